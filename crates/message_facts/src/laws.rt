ghost use Rattle.message_facts.specs.Facts.{EligibleMessagesAreFreed, SendsAreBare};

/// Where the message at hand is deferred and eligible, all deferred messages of its block are made eligible.
pub fn eligible_messages_are_freed()
    ensures { EligibleMessagesAreFreed }
{}

/// A message that declares no data is sent without payload.
pub fn sends_are_bare()
    ensures { SendsAreBare }
{}
