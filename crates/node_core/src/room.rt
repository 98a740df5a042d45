ghost use Rattle.std.specs.Prelude.{◌≡◌, true, OnErr, OnOk};
ghost use Rattle.node_core.specs.States.{HasMadeRoom, HasRooms};

use crate::state::State;
use tw_base::Memory;

/// Takes the memory of one event. The counts of ops and records are so small afterwards that no event takes them past
/// their types.
pub fn make_room(state: &mut State) -> Result<(), Memory>
    ensures ok { OnOk result (state.new.ready ≡ true) }
    ensures rooms { OnOk result (HasRooms state.new) }
    ensures same { HasMadeRoom state.old state.new }
    ensures err { OnErr result (state.new.ready ≡ state.old.ready) }
{
    if state.ops > 1 << 63 || state.records >= 1 << 31 {
        return Err(Memory);
    }
    state.log.reserve()?;
    state.out.reserve(288)?;
    state.conts.reserve()?;
    state.deferred.ready()?;
    state.ready = true;
    Ok(())
}
