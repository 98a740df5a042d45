ghost use Rattle.std.specs.Prelude.{◌≡◌};
ghost use Rattle.tw_base.specs.NodeSets.{has};
ghost use Rattle.block_spots.specs.Cases.{members, without_node};
ghost use Rattle.stache_step.specs.Steps.{OnlyRow, RowIsMeant, row_for};

use crate::lookup::row_number;
use coherence_reads::{acks, note_of, place_seen, rest_read, sharers};
use stache_table::laws::{blocks_are_read, rows_say_the_table, table_is_the_meaning};
use teapot_meaning::Here;
use tw_base::{Message, NodeId, NodeSet};

// How many members are not the sender.
fn others(set: NodeSet, sender: NodeId) -> u32
    ensures { result ≡ members 8 (without_node (has set) sender) }
{
    let _eight = set.has(sender);
    set.without(sender).count()
}

fn row_seen(here: &Here, m: &Message) -> Option<u8>
    ensures { result ≡ row_for here.now m.now }
{
    let place = place_seen(here.state.state);
    let infos = here.infos.items();
    let came = note_of(m);
    let others = others(sharers(infos), m.from);
    row_number(
        place,
        rest_read(&here.state.cont),
        &came,
        others,
        acks(infos),
    )
}

/// The number of the row that applies to a message at a block, None where the table has none.
pub fn table_step(here: &Here, m: &Message) -> Option<u8>
    ensures value { result ≡ row_for here.now m.now }
    ensures meaning { RowIsMeant here.now m.now result }
    ensures only { OnlyRow here.now m.now result }
{
    blocks_are_read();
    table_is_the_meaning();
    rows_say_the_table();
    row_seen(here, m)
}
