//! What the sample protocols do with messages, worked out by hand: rows for tests of the interpreter and of compiled handlers.
//!
//! A row has the number of the state that a block of node 1 is in, whose home is node 2 and whose first word is 5; messages as
//! `GET@3`, one of node 3, with a first word 9 where it has data, or a fault; and what the last of them does: the state and how
//! many suspensions it holds, the tag, the first word and the infos, then what was sent, the marks and the end.
#![tactic(auto)]

/// The state before, the messages, and what the last of them does.
pub type Row = (u8, &'static str, &'static str);

pub static DEAF_ROWS: [Row; 2] = [
    (1, "RD", "I0() Invalid 5 () GET>2()"),
    (0, "GET@3", "H0() Invalid 5 ()"),
];

pub static PING_PONG_ROWS: [Row; 2] = [
    (1, "RD", "I0() Invalid 5 () PING>2()"),
    (0, "PING@3", "H0() Invalid 5 () PING>3()"),
];

pub static DOUBLE_ROWS: [Row; 4] = [
    (1, "WR", "I0() Invalid 5 () GET>2()"),
    (1, "DATA@2", "I0() ReadWrite 9 () woke"),
    (0, "GET@3", "H0() Invalid 5 () DATA>3()+5"),
    (0, "DATA@3", "H0() Invalid 5 () failed 0"),
];

pub static DEEP_ROWS: [Row; 3] = [
    (0, "NEST@2", "W1() Invalid 5 ()"),
    (
        0,
        "NEST@2 NEST@2 NEST@2 NEST@2 NEST@2 NEST@2 NEST@2 NEST@2",
        "W8() Invalid 5 ()",
    ),
    (
        0,
        "NEST@2 NEST@2 NEST@2 NEST@2 NEST@2 NEST@2 NEST@2 NEST@2 NEST@2",
        "W8() Invalid 5 () too deep",
    ),
];

pub static DROP_ROWS: [Row; 1] = [(0, "GO@3", "H0() Invalid 5 ()")];

pub static WALK_ROWS: [Row; 7] = [
    (2, "RD", "I0() Invalid 5 () GET>2()+5"),
    (2, "DONE@2", "I0() ReadWrite 9 () woke"),
    (0, "GET@3", "W1() Invalid 5 () ASK>2()"),
    (0, "GET@3 ASK@4", "W1() Invalid 5 () YES>4()"),
    (0, "GET@3 GET@4", "W1() Invalid 5 () stale"),
    (0, "GET@3 YES@2", "W1() Invalid 5 () ASK>3() freed"),
    (0, "GET@3 YES@2 YES@3", "H0() Invalid 9 () DONE>3()+9 freed"),
];

pub static STACHE_ROWS: [Row; 12] = [
    (5, "RD", "Cache_Wait_RO1() Invalid 5 ({} @0 0) GET_RO>2()"),
    (
        5,
        "RD DATA_RO@2",
        "Cache_RO0() ReadOnly 9 ({} @0 0) freed woke",
    ),
    (
        5,
        "RD DATA_RO@2 INV@2",
        "Cache_Inv0() Invalid 9 ({} @0 0) ACK>2() freed",
    ),
    (
        5,
        "WR DATA_RW@2 RECALL@2",
        "Cache_Inv0() Invalid 9 ({} @0 0) PUT>2()+9 freed",
    ),
    (
        5,
        "WR INV@2",
        "Cache_Wait_RW1() Invalid 5 ({} @0 0) ACK>2()",
    ),
    (5, "PUT@2", "Cache_Inv0() Invalid 5 ({} @0 0) failed 0"),
    (
        0,
        "GET_RO@3",
        "Home_RO0() ReadOnly 5 ({3} @0 0) DATA_RO>3()+5 freed",
    ),
    (
        0,
        "GET_RO@3 GET_RO@4",
        "Home_RO0() ReadOnly 5 ({34} @0 0) DATA_RO>4()+5",
    ),
    (
        0,
        "GET_RO@3 GET_RO@4 GET_RW@3",
        "Home_Acks1() ReadOnly 5 ({} @0 1) INV>4()",
    ),
    (
        0,
        "GET_RO@3 GET_RO@4 GET_RW@3 GET_RO@5",
        "Home_Acks1() ReadOnly 5 ({} @0 1) stale",
    ),
    (
        0,
        "GET_RO@3 GET_RO@4 GET_RW@3 ACK@4",
        "Home_Excl0() Invalid 5 ({} @3 0) DATA_RW>3()+5 freed",
    ),
    (
        0,
        "GET_RW@3 RD PUT@3",
        "Home_RW0() ReadWrite 9 ({} @3 0) freed woke",
    ),
];
