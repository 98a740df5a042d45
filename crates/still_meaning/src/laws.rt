ghost use Rattle.still_meaning.specs.Laws.{EventsOfOneAreOfAll, FirstMessagesHaveTheNextNumber, HandedMessagesChangeNothing};
ghost use Rattle.still_meaning.specs.Laws.{PutBehind, RunsGoOn, SchedulesGoOn, SchedulesSettle, TakenInHand};
ghost use Rattle.still_meaning.specs.Laws.{TestsTellWhatIsEnabled, WhatIsReadIsTheStates};

/// An event of one node is an event of all nodes and the messages between them.
pub fn events_of_one_are_of_all()
    ensures { EventsOfOneAreOfAll }
{}

/// A message that is handed over, from its sender or from a row of waiting ones, changes no state of the model.
pub fn handed_messages_change_nothing()
    ensures { HandedMessagesChangeNothing }
{}

/// A run goes on from where it got.
pub fn runs_of_all_go_on()
    ensures { RunsGoOn }
{}

/// A schedule goes on by the event that it takes next.
pub fn schedules_of_all_go_on()
    ensures { SchedulesGoOn }
{}

/// A schedule has settled where no event is enabled.
pub fn schedules_of_all_settle()
    ensures { SchedulesSettle }
{}

/// Words of bits that are the tests of the nodes tell the events that are enabled, in their order.
pub fn tests_tell_what_is_enabled()
    ensures { TestsTellWhatIsEnabled }
{}

/// The tags, words and ends that are read of the nodes are those of the state that they stand for.
pub fn what_is_read_is_the_states()
    ensures { WhatIsReadIsTheStates }
{}

/// A message that is taken out of its sender, and one that is put behind those of its row, stays on its way at its place.
pub fn messages_stay_on_their_way()
    ensures taken { TakenInHand }
    ensures put { PutBehind }
{}

/// The first message of a wire has the number that a receiver which keeps none of it asks for.
pub fn first_messages_have_the_next_number()
    ensures { FirstMessagesHaveTheNextNumber }
{}
