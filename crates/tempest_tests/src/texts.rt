use crate::asking::{ROOM, expect, words};
use machine_texts::{ALONE, ALONE_REPORT};
use std::alloc::Global;
use std::test::Fail;
use teapot_samples::STACHE;
use tempest_run::{Status, tempest_plain};
use tw_io::{MemSink, MemSource};

const REPORTS: [(&str, Status, &str); 9] = [
    (ALONE, Status::Done, ALONE_REPORT),
    (
        "tempest 1\nnodes 1\nwords 1\nblocks 1\n",
        Status::Done,
        "tempest report 1 nodes 1 words 1 blocks 1 budget 4000\nnode 0 halted place 0 instructions 1 handlers 0\nhistory agrees\nend\n",
    ),
    (
        "tempest 1\nnodes 1\nwords 1\nblocks 1\nprogram 0\nend",
        Status::Unfinished,
        "tempest report 1 nodes 1 words 1 blocks 1 budget 4000\nnode 0 trapped FellOff place 0 instructions 1 handlers 0\nhistory agrees\nend\n",
    ),
    (
        "tempest 1\nnodes 1\nwords 1\nblocks 1\nprogram 0\nld r1 r0 1\nhalt\nend\n",
        Status::Unfinished,
        "tempest report 1 nodes 1 words 1 blocks 1 budget 4000\nnode 0 trapped BadAddress place 0 instructions 1 handlers 0\nhistory agrees\nend\n",
    ),
    (
        "tempest 1\nnodes 1\nwords 4\nblocks 2\ninit 7 3\nprogram 0\nld r1 r0 7\nld r2 r0 8\nhalt\nend\n",
        Status::Unfinished,
        "tempest report 1 nodes 1 words 4 blocks 2 budget 4000\nword 7 3\nregister 0 1 3\nnode 0 trapped BadAddress place 1 instructions 2 handlers 0\nhistory agrees\nend\n",
    ),
    (
        "tempest 1\nnodes 1\nwords 1\nblocks 1\nbudget 3\nprogram 0\na:\njmp a\nend\n",
        Status::Unfinished,
        "tempest report 1 nodes 1 words 1 blocks 1 budget 3\nnode 0 spent place 0 instructions 3 handlers 0\nhistory agrees\nend\n",
    ),
    (
        "tempest 1\nnodes 1\nwords 1\nblocks 1\nbudget 156250\nprogram 0\njmp a\nli r1 1\na:\nend\n",
        Status::Unfinished,
        "tempest report 1 nodes 1 words 1 blocks 1 budget 156250\nnode 0 trapped FellOff place 2 instructions 2 handlers 0\nhistory agrees\nend\n",
    ),
    (
        "tempest 2\nnodes 1\nwords 1\nblocks 1\ninit 0 40\nprogram 0\nli r1 2\nfaa r1 r1 r0 0\nprint r1\nli r2 3\nfaa r3 r2 r0 18446744073709551615\nhalt\nend\n",
        Status::Unfinished,
        "tempest report 2 nodes 1 words 1 blocks 1 budget 4000\nprint 0 40\nword 0 42\nregister 0 1 40\nregister 0 2 3\nnode 0 trapped BadAddress place 4 instructions 5 handlers 0\nhistory agrees\nend\n",
    ),
    (
        "# a comment\r\n\n tempest\t001 \nnodes 01\nwords 1 # w\nblocks 1\nprogram 0\nhalt\nend",
        Status::Done,
        "tempest report 1 nodes 1 words 1 blocks 1 budget 4000\nnode 0 halted place 0 instructions 1 handlers 0\nhistory agrees\nend\n",
    ),
];

#[test]
fn texts_are_run(rt: HostRuntime) -> Result<(), Fail> {
    for (text, status, report) in &REPORTS {
        expect(&rt, rt.alloc(), "serial 0", text, *status, report)?;
        expect(&rt, rt.alloc(), "serial 4294967295", text, *status, report)?;
    }
    Ok(())
}

const REFUSALS: [(&str, &str); 84] = [
    ("tempest 1\nnodes 1 \x01\n", "refused line 2 NotAscii\n"),
    (
        "tempest 1\nnodes 1\nwords 4\nblocks 2\nbudget 2x\n",
        "refused line 5 BadToken\n",
    ),
    (
        "tempest 1\nnodes 1\nwords 4\nblocks 2\nbudget !\n",
        "refused line 5 BadToken\n",
    ),
    ("tempest 1\n! \x7f\n", "refused line 2 NotAscii\n"),
    ("!\n\x7f\n", "refused line 1 BadToken\n"),
    (
        "tempest 1\nnodes 1\nwords 4\nblocks 2\ninit 0 18446744073709551616\n",
        "refused line 5 BadToken\n",
    ),
    ("nodes\n!\n", "refused line 2 BadToken\n"),
    ("", "refused line 1 BadLine\n"),
    ("\n\n# x\n", "refused line 4 BadLine\n"),
    ("tempest\n", "refused line 1 BadLine\n"),
    ("nodes 1\n", "refused line 1 BadLine\n"),
    ("tempest 1\n", "refused line 2 BadLine\n"),
    ("tempest 1\nwords 1\n", "refused line 2 BadLine\n"),
    ("tempest 1\nnodes 1\n", "refused line 3 BadLine\n"),
    ("tempest 1\nnodes 1\nwords 1\n", "refused line 4 BadLine\n"),
    ("tempest 1\nnodes 1\nblocks 1\n", "refused line 3 BadLine\n"),
    (
        "tempest 1\nnodes 1\nwords 4\nblocks 2\nhalt\n",
        "refused line 5 BadLine\n",
    ),
    (
        "tempest 1\nnodes 1\nwords 4\nblocks 2\nend\n",
        "refused line 5 BadLine\n",
    ),
    (
        "tempest 1\nnodes 1\nwords 4\nblocks 2\nprogram 0\nhalt\n",
        "refused line 7 BadLine\n",
    ),
    (
        "tempest 1\nnodes 1\nwords 4\nblocks 2\nprogram\nend\n",
        "refused line 5 BadLine\n",
    ),
    (
        "tempest 1\nnodes 1\nwords 4\nblocks 2\nprogram 0 0\nend\n",
        "refused line 5 BadLine\n",
    ),
    (
        "tempest 1\nnodes 1\nwords 4\nblocks 2\ninit 0\n",
        "refused line 5 BadLine\n",
    ),
    (
        "tempest 1\nnodes 1\nwords 4\nblocks 2\ninit 0 1 2\n",
        "refused line 5 BadLine\n",
    ),
    (
        "tempest 1\nnodes 1\nwords 4\nblocks 2\nbudget 1\nbudget 2\n",
        "refused line 6 BadLine\n",
    ),
    (
        "tempest 1\nnodes 1\nwords 4\nblocks 2\ninit 0 1\nbudget 2\n",
        "refused line 6 BadLine\n",
    ),
    (
        "tempest 1\nnodes 1\nwords 4\nblocks 2\nprogram 0\nend\ninit 0 1\n",
        "refused line 7 BadLine\n",
    ),
    (
        "tempest 1\nnodes 1\nwords 4\nblocks 2\nprogram 0\nend\nbudget 1\n",
        "refused line 7 BadLine\n",
    ),
    (
        "tempest 1\nnodes 1\nwords 4\nblocks 2\nprotocol\n",
        "refused line 6 BadLine\n",
    ),
    (
        "tempest 1\nnodes 1\nwords 4\nblocks 2\nprotocol\nx\nend\nprogram 0\nend\n",
        "refused line 8 BadLine\n",
    ),
    (
        "tempest 1\nnodes 1\nwords 4\nblocks 2\nprotocol\nend\nprotocol\nend\n",
        "refused line 7 BadLine\n",
    ),
    (
        "tempest 1\nnodes 1\nwords 4\nblocks 2\nshipped Stache\n",
        "refused line 5 BadLine\n",
    ),
    (
        "tempest 2\nnodes 1\nwords 1\nblocks 1\nshipped Other\n",
        "refused line 5 BadLine\n",
    ),
    (
        "tempest 2\nnodes 1\nwords 1\nblocks 1\nshipped Stache\nshipped Stache\n",
        "refused line 6 BadLine\n",
    ),
    (
        "tempest 3\nnodes 1\nwords 1\nblocks 1\nshipped Stache\n",
        "refused line 5 BadLine\n",
    ),
    ("Tempest 1\n", "refused line 1 BadLine\n"),
    (
        "tempest 1\nnodes 1\nwords 4\nblocks 2\ntempest 1\n",
        "refused line 5 BadLine\n",
    ),
    ("tempest 1\nnodes 9\nwords 1\n", "refused line 4 BadLine\n"),
    (
        "tempest 1\r\nnodes 1\r\n\twords 1\r\n",
        "refused line 4 BadLine\n",
    ),
    (
        "tempest 0\nnodes 1\nwords 1\nblocks 1\n",
        "refused line 1 OutOfRange\n",
    ),
    (
        "tempest 3\nnodes 9\nwords 1\nblocks 1\n",
        "refused line 1 OutOfRange\n",
    ),
    (
        "tempest 1\nnodes 0\nwords 1\nblocks 1\n",
        "refused line 2 OutOfRange\n",
    ),
    (
        "tempest 1\nnodes 9\nwords 1\nblocks 1\n",
        "refused line 2 OutOfRange\n",
    ),
    (
        "tempest 1\nnodes 18446744073709551615\nwords 1\nblocks 1\n",
        "refused line 2 OutOfRange\n",
    ),
    (
        "tempest 1\nnodes 1\nwords 0\nblocks 1\n",
        "refused line 3 OutOfRange\n",
    ),
    (
        "tempest 1\nnodes 1\nwords 9\nblocks 1\n",
        "refused line 3 OutOfRange\n",
    ),
    (
        "tempest 1\nnodes 1\nwords 1\nblocks 0\n",
        "refused line 4 OutOfRange\n",
    ),
    (
        "tempest 1\nnodes 1\nwords 1\nblocks 65\n",
        "refused line 4 OutOfRange\n",
    ),
    (
        "tempest 1\nnodes 1\nwords 4\nblocks 2\nbudget 0\n",
        "refused line 5 OutOfRange\n",
    ),
    (
        "tempest 1\nnodes 1\nwords 4\nblocks 2\nbudget 156251\n",
        "refused line 5 OutOfRange\n",
    ),
    (
        "tempest 1\nnodes 1\nwords 4\nblocks 2\nbudget 2305843009213693952\n",
        "refused line 5 OutOfRange\n",
    ),
    (
        "tempest 1\nnodes 8\nwords 1\nblocks 1\nbudget 4341\n",
        "refused line 5 OutOfRange\n",
    ),
    (
        "tempest 1\nnodes 1\nwords 4\nblocks 2\ninit 8 1\n",
        "refused line 5 OutOfRange\n",
    ),
    (
        "tempest 1\nnodes 1\nwords 4\nblocks 2\ninit 4294967296 1\n",
        "refused line 5 OutOfRange\n",
    ),
    (
        "tempest 1\nnodes 1\nwords 4\nblocks 2\ninit 0 1\ninit 0 1\n",
        "refused line 6 Repeated\n",
    ),
    (
        "tempest 1\nnodes 1\nwords 4\nblocks 2\ninit 7 1\ninit 8 1\ninit 7 1\n",
        "refused line 6 OutOfRange\n",
    ),
    (
        "tempest 1\nnodes 1\nwords 4\nblocks 2\ninit 7 1\ninit 7 1\ninit 8 1\n",
        "refused line 6 Repeated\n",
    ),
    (
        "tempest 1\nnodes 1\nwords 4\nblocks 2\nprogram 1\nend\n",
        "refused line 5 OutOfRange\n",
    ),
    (
        "tempest 1\nnodes 1\nwords 4\nblocks 2\nprogram 256\nend\n",
        "refused line 5 OutOfRange\n",
    ),
    (
        "tempest 1\nnodes 1\nwords 4\nblocks 2\nprogram 0\nend\nprogram 0\nend\n",
        "refused line 7 Repeated\n",
    ),
    (
        "tempest 1\nnodes 1\nwords 4\nblocks 2\nprogram 0\nend\nprogram 1\nend\n",
        "refused line 7 OutOfRange\n",
    ),
    (
        "tempest 1\nnodes 1\nwords 4\nblocks 2\nprogram 0\nnonsense\nend\nprogram 9\nend\n",
        "refused line 8 OutOfRange\n",
    ),
    (
        "tempest 1\nnodes 1\nwords 4\nblocks 2\ninit 0 1\nprogram 0\nend\nprogram 0\nend\n",
        "refused line 8 Repeated\n",
    ),
    (
        "tempest 1\nnodes 1\nwords 4\nblocks 2\nprogram 0\nfoo\nend\n",
        "refused line 6 BadLine\n",
    ),
    (
        "tempest 1\nnodes 1\nwords 4\nblocks 2\nprogram 0\nli r16 1\nend\n",
        "refused line 6 BadLine\n",
    ),
    (
        "tempest 1\nnodes 1\nwords 4\nblocks 2\nprogram 0\nli r1\nend\n",
        "refused line 6 BadLine\n",
    ),
    (
        "tempest 1\nnodes 1\nwords 4\nblocks 2\nprogram 0\nli r1 1 1\nend\n",
        "refused line 6 BadLine\n",
    ),
    (
        "tempest 1\nnodes 1\nwords 4\nblocks 2\nprogram 0\nhalt halt\nend\n",
        "refused line 6 BadLine\n",
    ),
    (
        "tempest 1\nnodes 1\nwords 4\nblocks 2\nprogram 0\nld r1 r0\nend\n",
        "refused line 6 BadLine\n",
    ),
    (
        "tempest 1\nnodes 1\nwords 4\nblocks 2\nprogram 0\nbeq r1 r2 r3\nend\n",
        "refused line 6 BadLine\n",
    ),
    (
        "tempest 1\nnodes 1\nwords 4\nblocks 2\nprogram 0\njmp r0\nend\n",
        "refused line 6 BadLine\n",
    ),
    (
        "tempest 1\nnodes 1\nwords 4\nblocks 2\nprogram 0\nr1:\nend\n",
        "refused line 6 BadLine\n",
    ),
    (
        "tempest 1\nnodes 1\nwords 4\nblocks 2\nprogram 0\nfaa r1 r2 r3 0\nend\n",
        "refused line 6 BadLine\n",
    ),
    (
        "tempest 1\nnodes 1\nwords 4\nblocks 2\nprogram 0\nprint 5\nend\n",
        "refused line 6 BadLine\n",
    ),
    (
        "tempest 1\nnodes 1\nwords 4\nblocks 2\nprogram 0\na : b\nend\n",
        "refused line 6 BadLine\n",
    ),
    (
        "tempest 1\nnodes 1\nwords 4\nblocks 2\nprogram 0\nst r1 r0 18446744073709551616\nend\n",
        "refused line 6 BadToken\n",
    ),
    (
        "tempest 1\nnodes 1\nwords 4\nblocks 2\nprogram 0\njmp end\nend\n",
        "refused line 6 NoLabel\n",
    ),
    (
        "tempest 1\nnodes 1\nwords 4\nblocks 2\nprogram 0\na:\na:\nend\n",
        "refused line 7 LabelTwice\n",
    ),
    (
        "tempest 1\nnodes 1\nwords 4\nblocks 2\nprogram 0\njmp a\nend\n",
        "refused line 6 NoLabel\n",
    ),
    (
        "tempest 1\nnodes 1\nwords 4\nblocks 2\nprogram 0\njmp a\nb:\nb:\nend\n",
        "refused line 8 LabelTwice\n",
    ),
    (
        "tempest 1\nnodes 1\nwords 4\nblocks 2\nprogram 0\njmp a\nfoo\nend\n",
        "refused line 7 BadLine\n",
    ),
    (
        "tempest 1\nnodes 1\nwords 4\nblocks 2\nprogram 0\na:\na:\nfoo\nend\n",
        "refused line 8 BadLine\n",
    ),
    (
        "tempest 1\nnodes 1\nwords 4\nblocks 2\nprogram 0\nbne r1 r2 x\nbeq r1 r2 y\nx:\nend\n",
        "refused line 7 NoLabel\n",
    ),
    (
        "tempest 2\nnodes 1\nwords 1\nblocks 1\nprogram 0\nfaa r1 r2 r3\nend\n",
        "refused line 6 BadLine\n",
    ),
    (
        "tempest 1\nnodes 2\nwords 1\nblocks 1\nprogram 1\nfoo\nend\n",
        "refused line 6 BadLine\n",
    ),
];

#[test]
fn texts_are_refused(rt: HostRuntime) -> Result<(), Fail> {
    for (text, refusal) in &REFUSALS {
        expect(&rt, rt.alloc(), "serial 0", text, Status::Refused, refusal)?;
    }
    Ok(())
}

// Texts whose protocol is not one, and the refusal of each by every command that reads a text.
const BAD_PROTOCOLS: [(&str, &str); 9] = [
    (
        "tempest 1\nnodes 1\nwords 1\nblocks 1\nprotocol\nend\n",
        "refused line 6 BadNest\n",
    ),
    (
        "tempest 1\nnodes 1\nwords 1\nblocks 1\nprotocol\n\n# none\n\nend\n",
        "refused line 9 BadNest\n",
    ),
    (
        "tempest 1\nnodes 1\nwords 1\nblocks 1\nprotocol\nProtocol P\nState H{}\nBegin\nDefault\nBegin\nEnd\nend\n",
        "refused line 12 BadNest\n",
    ),
    (
        "tempest 1\nnodes 1\nwords 1\nblocks 1\nprotocol\nProtocol P\nState H{}\nBegin\nEnd\nEnd\nend\n",
        "refused line 10 BadNest\n",
    ),
    (
        "tempest 1\nnodes 1\nwords 1\nblocks 1\nprotocol\nInfo a Int\nProtocol P\nResume C\nend\n",
        "refused line 8 BadLine\n",
    ),
    (
        "tempest 1\nnodes 1\nwords 1\nblocks 1\nprotocol\nProtocol P\nInfo a Int\nInfo b Int\nInfo c Int\nInfo d Int\nInfo e Int\nInfo f Int\nInfo g Int\nInfo h Int\nInfo i Int\nend\n",
        "refused line 15 TooMany\n",
    ),
    (
        "tempest 1\nnodes 1\nwords 1\nblocks 1\nprogram 0\nx\nend\nprotocol\nx\nend\n",
        "refused line 6 BadLine\n",
    ),
    (
        "tempest 1\nnodes 9\nwords 1\nblocks 1\nprotocol\nx\nend\n",
        "refused line 2 OutOfRange\n",
    ),
    (
        "tempest 1\nnodes 2\nwords 1\nblocks 1\nprotocol\nProtocol P\nForEach x y\nend\n",
        "refused line 7 BadLine\n",
    ),
];

#[test]
fn bad_protocols_are_refused(rt: HostRuntime) -> Result<(), Fail> {
    for (text, refusal) in &BAD_PROTOCOLS {
        for asked in ["check", "show", "serial 1"] {
            expect(&rt, rt.alloc(), asked, text, Status::Refused, refusal)?;
        }
    }
    Ok(())
}

const SHOWN: [(&str, Status, &str); 4] = [
    (
        "tempest 1\nnodes 2\nwords 1\nblocks 1\nprotocol\r\n\tProtocol  P # p\nMessage M ( Int,Set )01 data\n\nHomeStart S ReadWrite\nCacheStart S ReadWrite\nState S{ }\nBegin\nDefault\nBegin\nEnd\nEnd\nState H{ a Int;C }\nBegin\nOn M(x,y)\nBegin\nLocal n Int\nIf(x<7)\nBegin\nn:=(x+007)\nEnd\nElse\nBegin\nSend(src,M,n,One(self))\nEnd\nEnd\nDefault\nBegin\nEnd\nEnd\nend",
        Status::Done,
        "Protocol P\nMessage M(Int, Set) 1 data\nHomeStart S ReadWrite\nCacheStart S ReadWrite\nState S{}\nBegin\n  Default\n  Begin\n  End\nEnd\nState H{a Int; C}\nBegin\n  On M(x, y)\n  Begin\n    Local n Int\n    If (x < 7)\n    Begin\n      n := (x + 7)\n    End\n    Else\n    Begin\n      Send(src, M, n, One(self))\n    End\n  End\n  Default\n  Begin\n  End\nEnd\n",
    ),
    (
        "tempest 2\nnodes 1\nwords 1\nblocks 1\nprotocol\nProtocol P 02\nHomeStart S ReadOnly\nCacheStart S Invalid\nState S{}\nBegin\nDefault\nBegin\nLocal n Node\nForEach n With(Empty, home)\nBegin\nEnd\nEnd\nEnd\nend\n",
        Status::Done,
        "Protocol P 2\nHomeStart S ReadOnly\nCacheStart S Invalid\nState S{}\nBegin\n  Default\n  Begin\n    Local n Node\n    ForEach n With(Empty, home)\n    Begin\n    End\n  End\nEnd\n",
    ),
    (
        "tempest 1\nnodes 1\nwords 1\nblocks 1\n# none",
        Status::Done,
        STACHE,
    ),
    (
        "tempest 2\nnodes 8\nwords 1\nblocks 1\nshipped Stache\n\n",
        Status::Done,
        STACHE,
    ),
];

#[test]
fn protocols_are_shown(rt: HostRuntime) -> Result<(), Fail> {
    for (text, status, written) in &SHOWN {
        expect(&rt, rt.alloc(), "show", text, *status, written)?;
        expect(&rt, rt.alloc(), "-- show", text, *status, written)?;
    }
    Ok(())
}

// A protocol that breaks each of the rules, and its refusal by every command that reads a text.
const BROKEN: [(&str, &str); 12] = [
    (
        "tempest 1\nnodes 1\nwords 1\nblocks 1\nprotocol\nProtocol P\nMessage GO() 0\nMessage DATA(Int, Node) 1 data\nInfo count Int\nInfo who Node\nInfo sharers Set\nInfo flag Bool\nHomeStart H ReadWrite\nCacheStart H Invalid\nState H{}\nBegin\nOn GO()\nBegin\ncount := missing\nEnd\nDefault\nBegin\nEnd\nEnd\nState W{; C}\nBegin\nOn DATA(x, y)\nBegin\nEnd\nDefault\nBegin\nEnd\nEnd\nend\n",
        "refused line 19 Undeclared\n",
    ),
    (
        "tempest 1\nnodes 1\nwords 1\nblocks 1\nprotocol\nProtocol P\nMessage GO() 0\nMessage DATA(Int, Node) 1 data\nInfo count Int\nInfo who Node\nInfo sharers Set\nInfo flag Bool\nHomeStart H ReadWrite\nCacheStart H Invalid\nState H{}\nBegin\nOn GO()\nBegin\nLocal count Int\nEnd\nDefault\nBegin\nEnd\nEnd\nState W{; C}\nBegin\nOn DATA(x, y)\nBegin\nEnd\nDefault\nBegin\nEnd\nEnd\nend\n",
        "refused line 19 Twice\n",
    ),
    (
        "tempest 1\nnodes 1\nwords 1\nblocks 1\nprotocol\nProtocol P\nMessage GO() 0\nMessage DATA(Int, Node) 1 data\nInfo count Int\nInfo who Node\nInfo sharers Set\nInfo flag Bool\nHomeStart H ReadWrite\nCacheStart H Invalid\nState H{}\nBegin\nOn GO()\nBegin\ncount := flag\nEnd\nDefault\nBegin\nEnd\nEnd\nState W{; C}\nBegin\nOn DATA(x, y)\nBegin\nEnd\nDefault\nBegin\nEnd\nEnd\nend\n",
        "refused line 19 WrongType\n",
    ),
    (
        "tempest 1\nnodes 1\nwords 1\nblocks 1\nprotocol\nProtocol P\nMessage GO() 0\nMessage DATA(Int, Node) 1 data\nInfo count Int\nInfo who Node\nInfo sharers Set\nInfo flag Bool\nHomeStart H ReadWrite\nCacheStart H Invalid\nState H{}\nBegin\nOn GO()\nBegin\nSend(who, GO, 1)\nEnd\nDefault\nBegin\nEnd\nEnd\nState W{; C}\nBegin\nOn DATA(x, y)\nBegin\nEnd\nDefault\nBegin\nEnd\nEnd\nend\n",
        "refused line 19 ArgCount\n",
    ),
    (
        "tempest 1\nnodes 1\nwords 1\nblocks 1\nprotocol\nProtocol P\nMessage GO() 0\nMessage DATA(Int, Node) 1 data\nInfo count Int\nInfo who Node\nInfo sharers Set\nInfo flag Bool\nHomeStart H ReadWrite\nCacheStart H Invalid\nState H{}\nBegin\nOn GO()\nBegin\nEnd\nDefault\nBegin\nEnd\nEnd\nState W{; C}\nBegin\nOn DATA(x, y)\nBegin\nSetState(H{})\nEnd\nDefault\nBegin\nEnd\nEnd\nend\n",
        "refused line 28 ContDropped\n",
    ),
    (
        "tempest 1\nnodes 1\nwords 1\nblocks 1\nprotocol\nProtocol P\nMessage GO() 0\nMessage DATA(Int, Node) 1 data\nInfo count Int\nInfo who Node\nInfo sharers Set\nInfo flag Bool\nHomeStart H ReadWrite\nCacheStart H Invalid\nState H{}\nBegin\nOn GO()\nBegin\nEnd\nDefault\nBegin\nEnd\nEnd\nState W{; C}\nBegin\nOn DATA(x, y)\nBegin\nResume(C)\ncount := 1\nEnd\nDefault\nBegin\nEnd\nEnd\nend\n",
        "refused line 28 ResumeNotLast\n",
    ),
    (
        "tempest 1\nnodes 1\nwords 1\nblocks 1\nprotocol\nProtocol P\nMessage GO() 0\nMessage DATA(Int, Node) 1 data\nInfo count Int\nInfo who Node\nInfo sharers Set\nInfo flag Bool\nHomeStart H ReadWrite\nCacheStart H Invalid\nState H{}\nBegin\nOn GO()\nBegin\nResume(C)\nEnd\nDefault\nBegin\nEnd\nEnd\nState W{; C}\nBegin\nOn DATA(x, y)\nBegin\nEnd\nDefault\nBegin\nEnd\nEnd\nend\n",
        "refused line 19 ResumeForeign\n",
    ),
    (
        "tempest 1\nnodes 1\nwords 1\nblocks 1\nprotocol\nProtocol P\nMessage GO() 0\nMessage DATA(Int, Node) 1 data\nInfo count Int\nInfo who Node\nInfo sharers Set\nInfo flag Bool\nHomeStart H ReadWrite\nCacheStart H Invalid\nState H{}\nBegin\nOn GO()\nBegin\nSuspend(L, W{; L})\nEnqueue\nEnd\nDefault\nBegin\nEnd\nEnd\nState W{; C}\nBegin\nOn DATA(x, y)\nBegin\nEnd\nDefault\nBegin\nEnd\nEnd\nend\n",
        "refused line 20 AfterSuspend\n",
    ),
    (
        "tempest 1\nnodes 1\nwords 1\nblocks 1\nprotocol\nProtocol P\nMessage GO() 0\nMessage DATA(Int, Node) 1 data\nInfo count Int\nInfo who Node\nInfo sharers Set\nInfo flag Bool\nHomeStart H ReadWrite\nCacheStart H Invalid\nState H{}\nBegin\nOn GO()\nBegin\nInstall\nEnd\nDefault\nBegin\nEnd\nEnd\nState W{; C}\nBegin\nOn DATA(x, y)\nBegin\nEnd\nDefault\nBegin\nEnd\nEnd\nend\n",
        "refused line 19 NoData\n",
    ),
    (
        "tempest 1\nnodes 1\nwords 1\nblocks 1\nprotocol\nProtocol P\nHomeStart H ReadWrite\nCacheStart H Invalid\nState H{}\nBegin\nEnd\nend\n",
        "refused line 9 NoDefault\n",
    ),
    (
        "tempest 1\nnodes 1\nwords 1\nblocks 1\nprotocol\nProtocol P\nMessage GO() 0\nMessage DATA(Int, Node) 1 data\nInfo count Int\nInfo who Node\nInfo sharers Set\nInfo flag Bool\nHomeStart H ReadWrite\nCacheStart H Invalid\nState H{}\nBegin\nOn GO()\nBegin\nSend(who, GO)\nSend(who, GO)\nSend(who, GO)\nSend(who, GO)\nSend(who, GO)\nSend(who, GO)\nSend(who, GO)\nSend(who, GO)\nSend(who, GO)\nSend(who, GO)\nSend(who, GO)\nSend(who, GO)\nSend(who, GO)\nSend(who, GO)\nSend(who, GO)\nSend(who, GO)\nSend(who, GO)\nSend(who, GO)\nSend(who, GO)\nSend(who, GO)\nSend(who, GO)\nSend(who, GO)\nSend(who, GO)\nSend(who, GO)\nSend(who, GO)\nSend(who, GO)\nSend(who, GO)\nSend(who, GO)\nSend(who, GO)\nSend(who, GO)\nSend(who, GO)\nSend(who, GO)\nSend(who, GO)\nEnd\nDefault\nBegin\nEnd\nEnd\nState W{; C}\nBegin\nOn DATA(x, y)\nBegin\nEnd\nDefault\nBegin\nEnd\nEnd\nend\n",
        "refused line 17 TooManySends\n",
    ),
    (
        "tempest 1\nnodes 1\nwords 1\nblocks 1\nprotocol\nProtocol P\nHomeStart H ReadWrite\nend\n",
        "refused line 6 NotTwoStarts\n",
    ),
];

#[test]
fn broken_protocols_are_refused(rt: HostRuntime) -> Result<(), Fail> {
    for (text, refusal) in &BROKEN {
        for asked in ["check", "show", "serial 0"] {
            expect(&rt, rt.alloc(), asked, text, Status::Refused, refusal)?;
        }
    }
    Ok(())
}

const ACCEPTED: [(&str, &str); 3] = [
    (
        "tempest 1\nnodes 1\nwords 1\nblocks 1\nprotocol\nProtocol P\nMessage GO() 0\nMessage DATA(Int, Node) 1 data\nInfo count Int\nInfo who Node\nInfo sharers Set\nInfo flag Bool\nHomeStart H ReadWrite\nCacheStart H Invalid\nState H{}\nBegin\nOn GO()\nBegin\nEnd\nDefault\nBegin\nEnd\nEnd\nState W{; C}\nBegin\nOn DATA(x, y)\nBegin\nEnd\nDefault\nBegin\nEnd\nEnd\nend\n",
        "accepted P messages 2 infos 4 states 2 handlers 4\n",
    ),
    (
        "tempest 1\nnodes 4\nwords 1\nblocks 1\n",
        "accepted Stache messages 8 infos 3 states 10 handlers 30\n",
    ),
    (
        "tempest 2\nnodes 1\nwords 1\nblocks 1\nshipped Stache\n",
        "accepted Stache messages 8 infos 3 states 10 handlers 30\n",
    ),
];

#[test]
fn protocols_are_checked(rt: HostRuntime) -> Result<(), Fail> {
    for (text, written) in &ACCEPTED {
        expect(&rt, rt.alloc(), "check", text, Status::Done, written)?;
    }
    Ok(())
}

const NO_COMMANDS: [&str; 22] = [
    "",
    "serial",
    "serial -1",
    "serial +1",
    "serial 4294967296",
    "serial 0 0",
    "serial x",
    "run",
    "serial --",
    "-serial 0",
    "-- serial -- 0",
    "show 0",
    "show check",
    "--journal show",
    "serial 0 --journal --journal",
    "serial 0 --counts --counts",
    "serial 0 --counts --meaning",
    "serial 0 --meaning --counts",
    "check --counts",
    "check --meaning",
    "serial --batch 1 0",
    "Show",
];

#[test]
fn words_are_read(rt: HostRuntime) -> Result<(), Fail> {
    let (text, status, report) = &REPORTS[0];
    for asked in [
        "serial 007",
        "-- serial 0",
        "serial -- 1",
        "--meaning serial 0",
    ] {
        expect(&rt, rt.alloc(), asked, text, *status, report)?;
    }
    for asked in &NO_COMMANDS {
        expect(
            &rt,
            rt.alloc(),
            asked,
            text,
            Status::Usage,
            "refused words\n",
        )?;
    }
    Ok(())
}

#[test]
fn faults_are_told(rt: HostRuntime) -> Result<(), Fail> {
    let alloc = rt.alloc();
    let words = words(alloc, "serial 0")?;
    let text = REPORTS[0].0.as_bytes();
    let mut source = MemSource::new(text.to_vec(alloc)?, 40, [3].to_vec(alloc)?);
    let mut sink = MemSink::new(alloc, ROOM, 16, Vec::new(alloc))?;
    assert_eq!(rt;
        tempest_plain(alloc, &words, &mut source, &mut sink),
        Status::ReadFault
    );
    assert_eq!(rt; sink.bytes(), b"".as_slice());
    let mut source = MemSource::new(text.to_vec(alloc)?, 40, Vec::new(alloc));
    let mut sink = MemSink::new(alloc, ROOM, 16, [2].to_vec(alloc)?)?;
    assert_eq!(rt;
        tempest_plain(alloc, &words, &mut source, &mut sink),
        Status::WriteFault
    );
    assert_eq!(rt; sink.bytes(), b"tempest report 1".as_slice());
    Ok(())
}

// The text of the first report, with a comment of so many bytes.
fn padded(alloc: Global, count: usize) -> Result<Vec<u8>, Fail> {
    let mut text = REPORTS[0].0.as_bytes().to_vec(alloc)?;
    text.push(b'#')?;
    for _ in 0..count {
        text.push(b'x')?;
    }
    Ok(text)
}

#[test]
fn long_texts_are_refused(rt: HostRuntime) -> Result<(), Fail> {
    let alloc = rt.alloc();
    let words = words(alloc, "serial 0")?;
    let mut source = MemSource::new(padded(alloc, 1_048_482)?, 65_536, Vec::new(alloc));
    let mut sink = MemSink::new(alloc, ROOM, 65_536, Vec::new(alloc))?;
    assert_eq!(rt;
        tempest_plain(alloc, &words, &mut source, &mut sink),
        Status::Done
    );
    assert_eq!(rt; sink.bytes(), REPORTS[0].2.as_bytes());
    let mut source = MemSource::new(padded(alloc, 1_048_483)?, 65_536, Vec::new(alloc));
    let mut sink = MemSink::new(alloc, ROOM, 65_536, Vec::new(alloc))?;
    assert_eq!(rt;
        tempest_plain(alloc, &words, &mut source, &mut sink),
        Status::TooLong
    );
    assert_eq!(rt; sink.bytes(), b"refused length\n".as_slice());
    Ok(())
}
