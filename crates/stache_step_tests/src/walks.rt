use stache_cases::{Does, StacheRow, row};
use stache_protocol::stache;
use stache_step::table_step;
use std::alloc::Global;
use std::process::Abort;
use std::test::Fail;
use teapot_interpreter::run;
use teapot_meaning::{Ended, Here, Kept, StateVal};
use teapot_tree::Checked;
use tw_base::{BlockId, Chan, Data, End, Kind, Listed, Message, NodeId, NodeSet, Tag, Value};

// Messages with their senders, that node 0 has at its own block or node 1 at a block of node 0, and the row of the last.
const WALKS: &str = "0 GET_RO:1 => 0
0 GET_RW:1 => 1
0 GET_RO:1 RD_FAULT:0 => 2
0 GET_RO:1 WR_FAULT:0 => 3
0 GET_RO:1 GET_RO:2 => 4
0 GET_RO:1 GET_RW:2 => 5
0 GET_RO:1 GET_RO:2 GET_RW:1 => 5
0 GET_RO:1 GET_RW:1 => 6
0 GET_RW:1 RD_FAULT:0 => 7
0 GET_RW:1 WR_FAULT:0 => 8
0 GET_RW:1 GET_RO:2 => 9
0 GET_RW:1 GET_RW:2 => 10
0 GET_RO:1 GET_RO:2 WR_FAULT:0 ACK:1 => 11
0 GET_RO:1 GET_RO:2 WR_FAULT:0 ACK:2 ACK:1 => 12
0 GET_RO:1 WR_FAULT:0 ACK:1 => 12
0 GET_RO:1 GET_RW:2 ACK:1 => 13
0 GET_RO:1 WR_FAULT:0 GET_RO:2 => 14
0 GET_RO:1 WR_FAULT:0 PUT:2 => 14
0 GET_RW:1 RD_FAULT:0 PUT:1 => 15
0 GET_RW:1 WR_FAULT:0 PUT:1 => 15
0 GET_RW:1 GET_RO:2 PUT:1 => 16
0 GET_RW:1 GET_RW:2 PUT:1 => 17
0 GET_RW:1 RD_FAULT:0 GET_RO:2 => 18
0 GET_RW:1 RD_FAULT:0 ACK:2 => 18
1 RD_FAULT:1 => 19
1 WR_FAULT:1 => 20
1 RD_FAULT:1 DATA_RO:0 WR_FAULT:1 => 21
1 RD_FAULT:1 DATA_RO:0 INV:0 => 22
1 WR_FAULT:1 DATA_RW:0 RECALL:0 => 23
1 RD_FAULT:1 DATA_RO:0 => 24
1 WR_FAULT:1 DATA_RW:0 => 25
1 RD_FAULT:1 DATA_RO:0 WR_FAULT:1 INV:0 => 26
0 ACK:1 => none
0 PUT:1 => none
0 GET_RO:1 PUT:1 => none
0 GET_RO:1 ACK:1 => none
0 GET_RW:1 ACK:1 => none
0 GET_RW:1 PUT:1 => none
1 INV:0 => none
1 DATA_RO:0 => none
1 RD_FAULT:1 DATA_RO:0 RECALL:0 => none
1 RD_FAULT:1 DATA_RO:0 DATA_RO:0 => none
1 WR_FAULT:1 DATA_RW:0 INV:0 => none
1 RD_FAULT:1 INV:0 => none
1 RD_FAULT:1 DATA_RW:0 => none
1 WR_FAULT:1 ACK:0 => none
1 WR_FAULT:1 DATA_RO:0 => none";

fn node(number: u8) -> NodeId {
    NodeId::new(number).unwrap_or(NodeId::new(0).unwrap())
}

fn words(first: u64) -> Data {
    Data {
        words: [first, 0, 0, 0, 0, 0, 0, 0],
        len: 1,
    }
}

// A block of node 0 in its first state.
fn block(alloc: Global, me: u8, number: BlockId) -> Result<Here, Fail> {
    let mut infos = Listed::new(alloc);
    infos.push(Value::Set(NodeSet::empty()))?;
    infos.push(Value::Node(node(0)))?;
    infos.push(Value::Int(0))?;
    let (state, tag) = if me == 0 {
        (0, Tag::ReadWrite)
    } else {
        (5, Tag::Invalid)
    };
    Ok(Here {
        me: node(me),
        home: node(0),
        block: number,
        infos,
        state: StateVal {
            state,
            args: Listed::new(alloc),
            cont: None,
        },
        tag,
        words: words(5),
    })
}

fn kind(name: &str) -> Result<Kind, Fail> {
    match name {
        "RD_FAULT" => Ok(Kind::RdFault),
        "WR_FAULT" => Ok(Kind::WrFault),
        "GET_RO" => Ok(Kind::Named(0)),
        "GET_RW" => Ok(Kind::Named(1)),
        "DATA_RO" => Ok(Kind::Named(2)),
        "DATA_RW" => Ok(Kind::Named(3)),
        "PUT" => Ok(Kind::Named(4)),
        "INV" => Ok(Kind::Named(5)),
        "ACK" => Ok(Kind::Named(6)),
        "RECALL" => Ok(Kind::Named(7)),
        _ => Err(Fail::new("a message of another name")),
    }
}

fn payload(kind: Kind) -> Option<Data> {
    match kind {
        Kind::Named(2..=4) => Some(words(9)),
        _ => None,
    }
}

// A message as a walk has it, with its sender behind a colon.
fn message(word: &str, me: NodeId, block: BlockId) -> Result<Message, Fail> {
    let (name, from) = word.split_once(':').ok_or("no sender")?;
    let kind = kind(name)?;
    Ok(Message {
        kind,
        block,
        from: node(from.parse::<u8>().ok().ok_or("sender")?),
        to: me,
        chan: Chan::Zero,
        number: 0,
        stamp: 0,
        args: [Value::Int(0); 4],
        arg_count: 0,
        payload: payload(kind),
    })
}

fn handled(alloc: Global, p: &Checked, here: &Here, m: &Message) -> Result<Ended, Fail> {
    if p.protocol()
        .states
        .get(usize::from(here.state.state))
        .is_none()
    {
        return Err(Fail::new("a state that the protocol has not"));
    }
    Ok(run(alloc, p, here, m)?)
}

// What a row says of a block before and of its end.
fn says(row: StacheRow, before: u8, end: &Ended) -> bool {
    row.state == before
        && row.goes == end.here.state.state
        && row.tag == end.here.tag
        && end.end == End::Fine
        && (row.does == Does::Wake) == end.woke
        && (row.does == Does::Defer) == (end.kept == Kept::Stale)
}

// The row of a message is what the interpreter does, and none where that fails.
fn expect_end(rt: &impl Abort, step: Option<u8>, before: u8, end: &Ended) {
    match step {
        Some(k) => match row(k) {
            Some(row) => assert!(rt; says(row, before, end)),
            None => assert!(rt; false),
        },
        None => assert_eq!(rt; end.end, End::Failed(0)),
    }
}

// The row of the last message.
fn walked(rt: &impl Abort, alloc: Global, p: &Checked, walk: &str) -> Result<Option<u8>, Fail> {
    let number = BlockId::new(0).ok_or("block")?;
    let (me, messages) = walk.split_once(' ').ok_or("node")?;
    let mut here = block(alloc, if me == "0" { 0 } else { 1 }, number)?;
    let mut last = None;
    for word in messages.split(' ') {
        let m = message(word, here.me, number)?;
        last = table_step(&here, &m);
        let end = handled(alloc, p, &here, &m)?;
        expect_end(rt, last, here.state.state, &end);
        here = end.here;
    }
    Ok(last)
}

#[test]
fn rows_are_met(rt: HostRuntime) -> Result<(), Fail> {
    let p = stache(rt.alloc())?;
    for line in WALKS.lines() {
        let (walk, expected) = line.split_once(" => ").ok_or("row")?;
        let last = walked(&rt, rt.alloc(), &p, walk)?;
        assert_eq!(rt; last, expected.parse::<u8>().ok(), "{walk}");
    }
    Ok(())
}
