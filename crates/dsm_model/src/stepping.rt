ghost use Rattle.std.specs.Prelude.{◌≡◌, IfOk, OnErr};
ghost use Rattle.dsm_model.specs.Globals.{setup_of, world_of};
ghost use Rattle.dsm_runs.specs.Worlds.{IsEnabled, Step, event_of};

use crate::Global;
use std::alloc;
use tw_base::{Entry, Event, Memory};

/// Makes an event, which is enabled. Want of memory is the only error, and after it nothing has changed.
pub fn step(alloc: alloc::Global, g: &mut Global, e: Event) -> Result<Entry, Memory>
    requires { IsEnabled (setup_of g.old) (world_of g.old) e }
    ensures setup { setup_of g.new ≡ setup_of g.old }
    ensures event { IfOk result (λ entry. event_of entry ≡ e) }
    ensures step { IfOk result (λ entry. Step (setup_of g.old) (world_of g.old) entry (world_of g.new)) }
    ensures err { OnErr result (world_of g.new ≡ world_of g.old) }
{
    g.make(alloc, e)
}
