use crossbeam_queue::protocol::{Join, Lesson, Outcome, Protocol, Split};
use std::collections::LinkedList;
use tw_base::Message;

// What a pass may do, and what it has sent and taken. No value of it is made.
pub struct Hand {
    pub sends: bool,
    pub takes: bool,
    pub sent: LinkedList<Message>,
    pub taken: LinkedList<Message>,
}

// The rule of a wire: what was taken and then what the queue holds is what was sent.
pub struct InOrder;

impl Protocol<Message, Hand> for InOrder {
    ghost use Rattle.std.specs.Prelude.{true, []};
    ghost use Rattle.tw_wire.specs.Carries.{hand, Carries};

    ghost holds = { Carries };

    ghost first = { hand true true [] [] };
}

// The two ends of a wire: the sender's and the receiver's.
pub struct Sides;

impl Split<Hand> for Sides {
    ghost use Rattle.std.specs.Prelude.{true, false, []};
    ghost use Rattle.tw_wire.specs.Carries.{hand};

    ghost left = { λ v. hand true false v.sent [] };

    ghost right = { λ v. hand false true [] v.taken };
}

// The receiver's pass takes in the sender's.
impl Join<Hand> for Sides {
    ghost use Rattle.std.specs.Prelude.{true, false, []};
    ghost use Rattle.tw_wire.specs.Carries.{hand};

    ghost both = { λ v w. hand true true w.sent v.taken };

    ghost spent = { hand false false [] [] };
}

// A push.
pub struct Sends;

impl Outcome<Message, Hand> for Sends {
    ghost use Rattle.std.specs.Prelude.{◌≡◌, [], ◌∷◌, ◌++◌};
    ghost use Rattle.tw_wire.specs.Carries.{hand};

    ghost then = { λ v x w. w ≡ hand v.sends v.takes (v.sent ++ x ∷ []) v.taken };
}

// A pop by the receiver's pass.
pub struct Takes;

impl Outcome<Message, Hand> for Takes {
    ghost use Rattle.std.specs.Prelude.{◌≡◌, [], ◌∷◌, ◌++◌};
    ghost use Rattle.tw_wire.specs.Carries.{hand};

    ghost then = { λ v x w. w ≡ hand v.sends v.takes v.sent (v.taken ++ x ∷ []) };
}

// One end alone learns nothing of what the queue holds.
impl Lesson<Message, Hand> for Takes {
    ghost fact = { λ v items. Unit {0} };
}

// A pop by the pass that has both lists.
pub struct Drains;

impl Outcome<Message, Hand> for Drains {
    ghost use Rattle.std.specs.Prelude.{◌≡◌, [], ◌∷◌, ◌++◌};
    ghost use Rattle.tw_wire.specs.Carries.{hand};

    ghost then = { λ v x w. w ≡ hand v.sends v.takes v.sent (v.taken ++ x ∷ []) };
}

impl Lesson<Message, Hand> for Drains {
    ghost use Rattle.std.specs.Prelude.{◌≡◌, ◌++◌};

    ghost fact = { λ v items. v.sent ≡ v.taken ++ items };
}
