//! The table of the shipped protocol, as it is written where nothing is read.

use crate::asking::{ROOM, expect, words};
use std::test::Fail;
use tempest_run::{Status, tempest_plain};
use tw_io::{MemSink, MemSource};

const TABLE: &str = "row 0 Home_RW GET_RO always goes Home_RO tag ReadOnly does data_ro_to_src
row 1 Home_RW GET_RW always goes Home_Excl tag Invalid does data_rw_to_src
row 2 Home_RO RD_FAULT always goes Home_RO tag ReadOnly does wake
row 3 Home_RO WR_FAULT always goes Home_Acks tag ReadOnly does inv_to_sharers
row 4 Home_RO GET_RO always goes Home_RO tag ReadOnly does data_ro_to_src
row 5 Home_RO GET_RW others goes Home_Acks tag ReadOnly does inv_to_others
row 6 Home_RO GET_RW alone goes Home_Excl tag Invalid does data_rw_to_src
row 7 Home_Excl RD_FAULT always goes Home_Put tag Invalid does recall_to_owner
row 8 Home_Excl WR_FAULT always goes Home_Put tag Invalid does recall_to_owner
row 9 Home_Excl GET_RO always goes Home_Put tag Invalid does recall_to_owner
row 10 Home_Excl GET_RW always goes Home_Put tag Invalid does recall_to_owner
row 11 Home_Acks ACK more goes Home_Acks tag ReadOnly does nothing
row 12 Home_Acks ACK last_home goes Home_RW tag ReadWrite does wake
row 13 Home_Acks ACK last_rw goes Home_Excl tag Invalid does data_rw_to_asker
row 14 Home_Acks other always goes Home_Acks tag ReadOnly does defer
row 15 Home_Put PUT home goes Home_RW tag ReadWrite does wake
row 16 Home_Put PUT ro goes Home_RO tag ReadOnly does data_ro_to_asker
row 17 Home_Put PUT rw goes Home_Excl tag Invalid does data_rw_to_asker
row 18 Home_Put other always goes Home_Put tag Invalid does defer
row 19 Cache_Inv RD_FAULT always goes Cache_Wait_RO tag Invalid does get_ro_to_home
row 20 Cache_Inv WR_FAULT always goes Cache_Wait_RW tag Invalid does get_rw_to_home
row 21 Cache_RO WR_FAULT always goes Cache_Wait_RW tag Invalid does get_rw_to_home
row 22 Cache_RO INV always goes Cache_Inv tag Invalid does ack_to_src
row 23 Cache_RW RECALL always goes Cache_Inv tag Invalid does put_to_src
row 24 Cache_Wait_RO DATA_RO always goes Cache_RO tag ReadOnly does wake
row 25 Cache_Wait_RW DATA_RW always goes Cache_RW tag ReadWrite does wake
row 26 Cache_Wait_RW INV always goes Cache_Wait_RW tag Invalid does ack_to_src
end
";

#[test]
fn table_is_written(rt: HostRuntime) -> Result<(), Fail> {
    let alloc = rt.alloc();
    expect(&rt, alloc, "table", "", Status::Done, TABLE)?;
    expect(&rt, alloc, "table", "no input", Status::Done, TABLE)?;
    for asked in ["table 0", "table --journal", "--meaning table"] {
        expect(&rt, alloc, asked, "", Status::Usage, "refused words\n")?;
    }
    Ok(())
}

// A source that fails at its first read, and a sink that fails at its second write.
#[test]
fn table_reads_nothing(rt: HostRuntime) -> Result<(), Fail> {
    let alloc = rt.alloc();
    let words = words(alloc, "table")?;
    let mut source = MemSource::new(Vec::new(alloc), 40, [1].to_vec(alloc)?);
    let mut sink = MemSink::new(alloc, ROOM, 16, [2].to_vec(alloc)?)?;
    assert_eq!(rt;
        tempest_plain(alloc, &words, &mut source, &mut sink),
        Status::WriteFault
    );
    assert_eq!(rt; sink.bytes(), b"row 0 Home_RW GE".as_slice());
    Ok(())
}
