ghost use Rattle.handler_vm.specs.Apart.{ChainsStayApart};

/// A run at one block leaves the chains of the other blocks whole, with the records that they had, and apart from its own.
pub fn chains_stay_apart()
    ensures { ChainsStayApart }
{}
