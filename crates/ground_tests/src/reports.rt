use report_reader::{AuditError, Printed, read_lines};
use std::alloc::Global;
use std::fmt::Write;
use std::test::Fail;
use tw_base::Shape;
use tw_lex::lines;

// How many lines of each kind a report has.
fn counted(alloc: Global, report: &Printed) -> Result<String, Fail> {
    let mut out = String::new(alloc);
    let (prints, words) = (report.prints.len(), report.words.len());
    let (registers, nodes) = (report.registers.len(), report.nodes.len());
    let (events, history) = (report.events.len(), report.history.line);
    write!(
        out,
        "{prints} {words} {registers} {nodes} {events}, history at {history}"
    )?;
    Ok(out)
}

// What is read of a report of a machine of two nodes, and two blocks of one word.
fn read(alloc: Global, text: &[u8]) -> Result<String, Fail> {
    if text.len() > 4096 {
        return Err("too long".into());
    }
    let shape = Shape::new(2, 1, 2, 4000).ok_or("no shape")?;
    let found = lines(alloc, text)?;
    let after = found.all.saturating_add(1);
    match read_lines(alloc, 1, shape, found.list.items(), after) {
        Ok(report) => counted(alloc, &report),
        Err(AuditError::Denied { line, rule }) => {
            let mut out = String::new(alloc);
            write!(out, "line {line}: {rule:?}")?;
            Ok(out)
        }
        Err(AuditError::Memory) => Err("out of memory".into()),
    }
}

const HEAD: &str = "tempest report 1 nodes 2 words 1 blocks 2 budget 4000\n";

const NODES: &str =
    "node 0 halted place 0 instructions 1 handlers 0\nnode 1 spent place 0 instructions 0 handlers 0\n";

// What stands before the nodes, what stands behind them, and what is read.
const REPORTS: [(&str, &str, &str); 16] = [
    ("", "history agrees\nend\n", "0 0 0 2 0, history at 4"),
    (
        "print 1 7\nword 1 2\nregister 0 15 1\n",
        "event 0 stamp 1 node 0 halt\nhistory agrees\nend\n",
        "1 1 1 2 1, history at 8",
    ),
    ("print 2 7\n", "history agrees\nend\n", "line 2: BadLine"),
    ("word 2 7\n", "history agrees\nend\n", "line 2: BadLine"),
    (
        "register 0 16 7\n",
        "history agrees\nend\n",
        "line 2: BadLine",
    ),
    (
        "word 0 1\nprint 0 1\n",
        "history agrees\nend\n",
        "line 3: BadLine",
    ),
    (
        "",
        "counts 0 ops 1 records 0\nhistory agrees\nend\n",
        "line 5: BadLine",
    ),
    (
        "",
        "counts 0 ops 1 records 0\ncounts 1 ops 1 records 0\nhistory agrees\nend\n",
        "0 0 0 2 0, history at 6",
    ),
    (
        "",
        "event 1 stamp 1 node 0 halt\nhistory agrees\nend\n",
        "line 4: BadNumber",
    ),
    (
        "",
        "event 1 stamp 1 node 0 halt\nhistory broken\nend\n",
        "line 5: BadLine",
    ),
    (
        "",
        "event 0 stamp 1 node 0 deliver M block 1 from 1 channel 2 number 0 sends 0 state S tag Invalid\nhistory agrees\nend\n",
        "line 4: BadLine",
    ),
    (
        "",
        "event 0 stamp 1 node 0 deliver M block 1 from 1 channel 1 number 0 sends 0 state S tag Invalid failed E\nhistory agrees\nend\n",
        "0 0 0 2 1, history at 5",
    ),
    (
        "",
        "event 0 stamp 1 node 0 redeliver M block 1 from 1\nhistory agrees\nend\n",
        "line 4: BadLine",
    ),
    ("", "history agrees\n", "line 5: BadLine"),
    ("", "history agrees\nend\nend\n", "line 6: BadLine"),
    (
        "",
        "history broken event 0 node 1 address 1 read 0 due 7\nend\n",
        "0 0 0 2 0, history at 4",
    ),
];

fn text_of(alloc: Global, before: &str, behind: &str) -> Result<String, Fail> {
    let mut text = String::from_str(alloc, HEAD)?;
    text.push_str(before)?;
    text.push_str(NODES)?;
    text.push_str(behind)?;
    Ok(text)
}

#[test]
fn reports_are_read(rt: HostRuntime) -> Result<(), Fail> {
    let alloc = rt.alloc();
    for (before, behind, expected) in REPORTS {
        let text = text_of(alloc, before, behind)?;
        let found = read(alloc, text.as_bytes())?;
        assert_eq!(rt; found.as_str(), expected);
    }
    Ok(())
}
