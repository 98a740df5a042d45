ghost use Rattle.seat_meaning.specs.Opened.{OpenedSeatsAreStill};

/// The nodes of all seats, with what is left on their wires, are a state of the model: what was taken from a wire and then what
/// is left there is what was pushed, and no wire was closed by a message that its receiver may not keep.
pub fn opened_seats_are_still()
    ensures { OpenedSeatsAreStill }
{}
