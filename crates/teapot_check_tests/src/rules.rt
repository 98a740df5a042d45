//! Protocols that keep the rules, and protocols that break one, with the line and the rule that are named.

use crate::reading::checked;
use std::alloc::Global;
use std::test::Fail;
use teapot_tree::Rule;

// A protocol whose handler of GO, in state H, has this body from line 14 on, and whose handler of DATA, in state W
// with continuation C, has this one from line 23 on and as many more as the first has.
fn protocol(alloc: Global, profile: &str, body: &str, waiting: &str) -> Result<String, Fail> {
    Ok(format!(in alloc;
        "Protocol P{profile}\nMessage GO() 0\nMessage DATA(Int, Node) 1 data\n\
         Info count Int\nInfo who Node\nInfo sharers Set\nInfo flag Bool\n\
         HomeStart H ReadWrite\nCacheStart H Invalid\nState H{{}}\nBegin\nOn GO()\nBegin\n{body}End\n\
         Default\nBegin\nEnd\nEnd\nState W{{; C}}\nBegin\nOn DATA(x, y)\nBegin\n{waiting}End\nDefault\nBegin\nEnd\nEnd\n"
    )?)
}

// The text so many times.
fn repeated(alloc: Global, text: &str, times: usize) -> Result<String, Fail> {
    let mut out = String::new(alloc);
    for _ in 0..times {
        out.push_str(text)?;
    }
    Ok(out)
}

type Row = (
    &'static str,
    &'static str,
    &'static str,
    Option<(u32, Rule)>,
);

const BODIES: [Row; 80] = [
    // what is used is declared and visible
    ("", "count := missing\n", "", Some((14, Rule::Undeclared))),
    ("", "missing := 1\n", "", Some((14, Rule::Undeclared))),
    ("", "Send(who, NOPE)\n", "", Some((14, Rule::Undeclared))),
    ("", "SetState(X{})\n", "", Some((14, Rule::Undeclared))),
    ("", "Suspend(L, W{; M})\n", "", Some((14, Rule::Undeclared))),
    ("", "", "x := 1\n", Some((23, Rule::Undeclared))),
    ("", "count := x\n", "", Some((14, Rule::Undeclared))),
    (
        " 2",
        "Local k Node\nForEach who sharers\nBegin\nEnd\n",
        "",
        Some((15, Rule::Undeclared)),
    ),
    (
        " 2",
        "Local k Node\nForEach k sharers\nBegin\nwho := k\nEnd\n",
        "",
        None,
    ),
    (
        "",
        "Local k Int\nk := count\ncount := k\n",
        "count := x\nwho := y\n",
        None,
    ),
    // `end` is no reserved word
    ("", "Local end Int\nend := count\ncount := end\n", "", None),
    // what is declared once stands once
    ("", "Local count Int\n", "", Some((14, Rule::Twice))),
    (
        "",
        "Local k Int\nLocal k Node\n",
        "",
        Some((15, Rule::Twice)),
    ),
    ("", "", "Local x Int\n", Some((23, Rule::Twice))),
    ("", "Enqueue\nEnqueue\n", "", Some((15, Rule::Twice))),
    (
        "",
        "If flag\nBegin\nEnqueue\nEnd\nEnqueue\n",
        "",
        Some((18, Rule::Twice)),
    ),
    (
        "",
        "If flag\nBegin\nEnqueue\nEnd\nElse\nBegin\nEnqueue\nEnd\n",
        "",
        None,
    ),
    (
        " 2",
        "Local k Node\nForEach k sharers\nBegin\nEnqueue\nEnd\n",
        "",
        Some((17, Rule::Twice)),
    ),
    // a loop goes round again, so what stands in it follows itself, and what is behind it
    (
        " 2",
        "Local k Node\nForEach k sharers\nBegin\nEnqueue\nSuspend(L, W{; L})\nEnd\n",
        "",
        Some((17, Rule::Twice)),
    ),
    (
        " 2",
        "Local k Node\nForEach k sharers\nBegin\nSuspend(L, W{; L})\nIf flag\nBegin\nEnqueue\nEnd\nEnd\n",
        "",
        Some((20, Rule::Twice)),
    ),
    (
        " 2",
        "Local k Node\nForEach k sharers\nBegin\nSuspend(L, W{; L})\nEnd\n",
        "",
        None,
    ),
    ("", "Local C Int\n", "Local H Int\n", None),
    // operators, statements and arguments take values of their types
    ("", "count := flag\n", "", Some((14, Rule::WrongType))),
    (
        "",
        "If count\nBegin\nEnd\n",
        "",
        Some((14, Rule::WrongType)),
    ),
    ("", "Send(count, GO)\n", "", Some((14, Rule::WrongType))),
    ("", "SendAll(who, GO)\n", "", Some((14, Rule::WrongType))),
    (
        "",
        "Send(who, DATA, who, who)\n",
        "",
        Some((14, Rule::WrongType)),
    ),
    (
        "",
        "count := (count + True)\n",
        "",
        Some((14, Rule::WrongType)),
    ),
    (
        "",
        "Send(home, GO, (True + 1))\n",
        "",
        Some((14, Rule::WrongType)),
    ),
    ("", "flag := (who = 1)\n", "", Some((14, Rule::WrongType))),
    (
        " 2",
        "Local k Int\nForEach k sharers\nBegin\nEnd\n",
        "",
        Some((15, Rule::WrongType)),
    ),
    (
        " 2",
        "Local k Node\nForEach k who\nBegin\nEnd\n",
        "",
        Some((15, Rule::WrongType)),
    ),
    (
        "",
        "flag := (With(sharers, src) = One(who))\ncount := Count(sharers)\n",
        "",
        None,
    ),
    (
        "",
        "flag := (Has(sharers, self) & Not((count <= 7)))\n",
        "",
        None,
    ),
    // an argument for which no type is declared is to have some type
    (
        "",
        "Send(src, GO, Not(1))\n",
        "",
        Some((14, Rule::WrongType)),
    ),
    (
        "",
        "Send(src, GO, Not(flag))\n",
        "",
        Some((14, Rule::ArgCount)),
    ),
    // as many arguments stand as are declared
    ("", "Send(who, GO, 1)\n", "", Some((14, Rule::ArgCount))),
    (" 2", "Send(who, GO, 1)\n", "", Some((14, Rule::ArgCount))),
    ("", "Send(who, DATA, 1)\n", "", Some((14, Rule::ArgCount))),
    (
        "",
        "SendAll(sharers, DATA, 1, src, 2)\n",
        "",
        Some((14, Rule::ArgCount)),
    ),
    ("", "Suspend(L, H{; L})\n", "", Some((14, Rule::ArgCount))),
    ("", "SetState(W{})\n", "", Some((14, Rule::ArgCount))),
    ("", "SetState(H{1})\n", "", Some((14, Rule::ArgCount))),
    ("", "Send(who, DATA, 1, src)\n", "", None),
    // a continuation is not dropped
    ("", "", "SetState(H{})\n", Some((23, Rule::ContDropped))),
    (" 2", "", "SetState(H{})\n", Some((23, Rule::ContDropped))),
    (
        "",
        "",
        "If flag\nBegin\nSetState(H{})\nEnd\nResume(C)\n",
        Some((25, Rule::ContDropped)),
    ),
    (
        "",
        "count := 1\n",
        "SetState(H{})\n",
        Some((24, Rule::ContDropped)),
    ),
    ("", "", "SetState(H{1})\n", Some((23, Rule::ArgCount))),
    ("", "", "SetState(W{})\nResume(C)\n", None),
    ("", "SetState(H{})\n", "", None),
    // nothing follows a resumption
    (
        "",
        "",
        "Resume(C)\ncount := 1\n",
        Some((23, Rule::ResumeNotLast)),
    ),
    (
        "",
        "",
        "If flag\nBegin\nResume(C)\nEnd\ncount := 1\n",
        Some((25, Rule::ResumeNotLast)),
    ),
    (
        "",
        "",
        "Resume(C)\nIf flag\nBegin\nEnd\n",
        Some((23, Rule::ResumeNotLast)),
    ),
    (
        " 2",
        "",
        "Local k Node\nForEach k sharers\nBegin\nResume(C)\nEnd\n",
        Some((26, Rule::ResumeNotLast)),
    ),
    ("", "", "If flag\nBegin\nResume(C)\nEnd\n", None),
    (
        "",
        "",
        "If flag\nBegin\nResume(C)\nEnd\nElse\nBegin\ncount := 1\nEnd\n",
        None,
    ),
    // the continuation that is resumed is that of the handler's state
    ("", "Resume(C)\n", "", Some((14, Rule::ResumeForeign))),
    ("", "", "Resume(D)\n", Some((23, Rule::ResumeForeign))),
    (
        " 2",
        "",
        "If flag\nBegin\nResume(L)\nEnd\n",
        Some((25, Rule::ResumeForeign)),
    ),
    (
        "",
        "Suspend(L, W{; L})\nResume(L)\n",
        "",
        Some((15, Rule::ResumeForeign)),
    ),
    ("", "", "Suspend(C, W{; C})\nResume(C)\n", None),
    ("", "", "Resume(C)\n", None),
    // the message at hand is neither deferred nor, in profile 1, installed behind a suspension
    (
        "",
        "Suspend(L, W{; L})\nEnqueue\n",
        "",
        Some((15, Rule::AfterSuspend)),
    ),
    (
        "",
        "If flag\nBegin\nSuspend(L, W{; L})\nEnd\nEnqueue\n",
        "",
        Some((18, Rule::AfterSuspend)),
    ),
    (
        "",
        "",
        "Suspend(L, W{; L})\nInstall\n",
        Some((24, Rule::AfterSuspend)),
    ),
    (" 2", "", "Suspend(L, W{; L})\nInstall\n", None),
    ("", "Enqueue\nSuspend(L, W{; L})\n", "", None),
    (
        "",
        "If flag\nBegin\nSuspend(L, W{; L})\nEnd\nElse\nBegin\nEnqueue\nEnd\n",
        "",
        None,
    ),
    // what is installed came with the message
    ("", "Install\n", "", Some((14, Rule::NoData))),
    (
        "",
        "If flag\nBegin\nInstall\nEnd\n",
        "",
        Some((16, Rule::NoData)),
    ),
    (
        " 2",
        "Suspend(L, W{; L})\nInstall\n",
        "",
        Some((15, Rule::NoData)),
    ),
    ("", "", "Install\nInstall\n", None),
    ("", "", "If flag\nBegin\nInstall\nEnd\nResume(C)\n", None),
    // the first line, and on one line the first rule
    ("", "Install\ncount := flag\n", "", Some((14, Rule::NoData))),
    ("", "Send(flag, NOPE)\n", "", Some((14, Rule::Undeclared))),
    (
        "",
        "count := flag\n",
        "SetState(H{})\n",
        Some((14, Rule::WrongType)),
    ),
    (
        "",
        "Resume(M)\nWakeUp\n",
        "",
        Some((14, Rule::ResumeNotLast)),
    ),
    (
        "",
        "Error(Late)\nEnqueue\nEnqueue\n",
        "",
        Some((16, Rule::Twice)),
    ),
    (
        "",
        "WakeUp\nSetTag(ReadOnly)\nError(Any)\n",
        "WakeUp\n",
        None,
    ),
];

#[test]
fn bodies_are_checked(rt: HostRuntime) -> Result<(), Fail> {
    for (profile, body, waiting, due) in &BODIES {
        let text = protocol(rt.alloc(), profile, body, waiting)?;
        let got = checked(rt.alloc(), text.as_bytes())?;
        assert_eq!(rt; got, *due);
    }
    Ok(())
}

const HEAD: &str =
    "Protocol P\nMessage GO() 0\nMessage DATA(Int) 1 data\nHomeStart H ReadWrite\nCacheStart H Invalid\n";

// The lines behind the five of the head, and what is named.
const STATES: [(&str, Option<(u32, Rule)>); 28] = [
    ("State H{}\nBegin\nDefault\nBegin\nEnd\nEnd\n", None),
    (
        "State H{}\nBegin\nOn NOPE()\nBegin\nEnd\nDefault\nBegin\nEnd\nEnd\n",
        Some((8, Rule::Undeclared)),
    ),
    (
        "State G{}\nBegin\nDefault\nBegin\nEnd\nEnd\n",
        Some((4, Rule::Undeclared)),
    ),
    (
        "State H{}\nBegin\nDefault\nBegin\nEnd\nEnd\nState H{}\nBegin\nDefault\nBegin\nEnd\nEnd\n",
        Some((12, Rule::Twice)),
    ),
    (
        "State H{}\nBegin\nOn GO()\nBegin\nEnd\nOn GO()\nBegin\nEnd\nDefault\nBegin\nEnd\nEnd\n",
        Some((11, Rule::Twice)),
    ),
    (
        "State H{}\nBegin\nDefault\nBegin\nEnd\nDefault\nBegin\nEnd\nEnd\n",
        Some((11, Rule::Twice)),
    ),
    (
        "State H{}\nBegin\nOn RD_FAULT()\nBegin\nEnd\nOn RD_FAULT()\nBegin\nEnd\nDefault\nBegin\nEnd\nEnd\n",
        Some((11, Rule::Twice)),
    ),
    (
        "State H{}\nBegin\nDefault\nBegin\nEnd\nEnd\nState W{a Int; a}\nBegin\nDefault\nBegin\nEnd\nEnd\n",
        Some((12, Rule::Twice)),
    ),
    (
        "State H{}\nBegin\nDefault\nBegin\nEnd\nEnd\nState W{a Int, a Int}\nBegin\nDefault\nBegin\nEnd\nEnd\n",
        Some((12, Rule::Twice)),
    ),
    (
        "State H{}\nBegin\nDefault\nBegin\nEnd\nEnd\nState W{a Int}\nBegin\nOn DATA(a)\nBegin\nEnd\nDefault\nBegin\nEnd\nEnd\n",
        Some((14, Rule::Twice)),
    ),
    (
        "State H{}\nBegin\nOn GO()\nBegin\nEnd\nOn DATA(x)\nBegin\nEnd\nDefault\nBegin\nEnd\nEnd\n",
        None,
    ),
    (
        "State H{}\nBegin\nOn GO(x)\nBegin\nEnd\nDefault\nBegin\nEnd\nEnd\n",
        Some((8, Rule::ArgCount)),
    ),
    (
        "State H{}\nBegin\nOn DATA()\nBegin\nEnd\nDefault\nBegin\nEnd\nEnd\n",
        Some((8, Rule::ArgCount)),
    ),
    (
        "State H{}\nBegin\nOn DATA(a, b, c, d, e)\nBegin\nEnd\nDefault\nBegin\nEnd\nEnd\n",
        Some((8, Rule::ArgCount)),
    ),
    (
        "State H{}\nBegin\nOn WR_FAULT(x)\nBegin\nEnd\nDefault\nBegin\nEnd\nEnd\n",
        Some((8, Rule::ArgCount)),
    ),
    (
        "State H{a Int}\nBegin\nDefault\nBegin\nEnd\nEnd\n",
        Some((4, Rule::ArgCount)),
    ),
    (
        "State H{; C}\nBegin\nDefault\nBegin\nEnd\nEnd\n",
        Some((4, Rule::ArgCount)),
    ),
    // a name that two states have means the first: without a continuation, or with one
    (
        "State H{}\nBegin\nDefault\nBegin\nSuspend(L, W{; L})\nEnd\nEnd\n\
         State W{}\nBegin\nDefault\nBegin\nEnd\nEnd\nState W{; C}\nBegin\nDefault\nBegin\nEnd\nEnd\n",
        Some((10, Rule::ArgCount)),
    ),
    (
        "State H{}\nBegin\nDefault\nBegin\nSuspend(L, W{; L})\nEnd\nEnd\n\
         State W{; C}\nBegin\nDefault\nBegin\nEnd\nEnd\nState W{}\nBegin\nDefault\nBegin\nEnd\nEnd\n",
        Some((19, Rule::Twice)),
    ),
    ("State H{}\nBegin\nEnd\n", Some((6, Rule::NoDefault))),
    (
        "State H{}\nBegin\nOn GO()\nBegin\nEnd\nEnd\n",
        Some((6, Rule::NoDefault)),
    ),
    (
        "State H{}\nBegin\nOn GO()\nBegin\nInstall\nEnd\nEnd\n",
        Some((6, Rule::NoDefault)),
    ),
    (
        "State H{}\nBegin\nDefault\nBegin\nEnd\nEnd\nState Z{a Int, a Int}\nBegin\nEnd\n",
        Some((12, Rule::NoDefault)),
    ),
    (
        "State H{}\nBegin\nDefault\nBegin\nEnd\nEnd\nState Z{a Int; a}\nBegin\nEnd\n",
        Some((12, Rule::Twice)),
    ),
    (
        "State H{}\nBegin\nOn GO()\nBegin\nInstall\nEnd\nDefault\nBegin\nEnd\nEnd\nState Z{}\nBegin\nEnd\n",
        Some((10, Rule::NoData)),
    ),
    (
        "State H{}\nBegin\nOn RD_FAULT()\nBegin\nInstall\nEnd\nDefault\nBegin\nEnd\nEnd\n",
        Some((10, Rule::NoData)),
    ),
    (
        "State H{}\nBegin\nDefault\nBegin\nInstall\nEnd\nEnd\n",
        Some((10, Rule::NoData)),
    ),
    (
        "State H{}\nBegin\nOn DATA(x)\nBegin\nInstall\nEnd\nDefault\nBegin\nEnd\nEnd\n",
        None,
    ),
];

#[test]
fn states_are_checked(rt: HostRuntime) -> Result<(), Fail> {
    for (states, due) in &STATES {
        let text = format!(in rt.alloc(); "{HEAD}{states}")?;
        let got = checked(rt.alloc(), text.as_bytes())?;
        assert_eq!(rt; got, *due);
    }
    Ok(())
}

const TAIL: &str = "State H{}\nBegin\nDefault\nBegin\nEnd\nEnd\n";

// The lines before the state, and what is named.
const HEADS: [(&str, Option<(u32, Rule)>); 18] = [
    (
        "Protocol P\nHomeStart H ReadWrite\nCacheStart H Invalid\n",
        None,
    ),
    (
        "Protocol P\nCacheStart H Invalid\nHomeStart H ReadWrite\n",
        None,
    ),
    ("Protocol P\n", Some((1, Rule::NotTwoStarts))),
    (
        "Protocol P\nHomeStart H ReadWrite\n",
        Some((1, Rule::NotTwoStarts)),
    ),
    (
        "Protocol P\nCacheStart H ReadWrite\n",
        Some((1, Rule::NotTwoStarts)),
    ),
    (
        "Protocol P\nHomeStart H ReadWrite\nHomeStart H Invalid\n",
        Some((3, Rule::NotTwoStarts)),
    ),
    (
        "Protocol P\nHomeStart H ReadWrite\nCacheStart H Invalid\nCacheStart H Invalid\n",
        Some((4, Rule::NotTwoStarts)),
    ),
    (
        "Protocol P\nCacheStart H Invalid\nCacheStart H Invalid\nCacheStart H Invalid\n",
        Some((3, Rule::NotTwoStarts)),
    ),
    (
        "Protocol P\nHomeStart X ReadWrite\n",
        Some((1, Rule::NotTwoStarts)),
    ),
    (
        "Protocol P\nHomeStart X ReadWrite\nHomeStart X ReadWrite\nCacheStart H Invalid\n",
        Some((2, Rule::Undeclared)),
    ),
    (
        "Protocol P\nMessage GO() 0\nMessage GO(Int) 1\nHomeStart H ReadWrite\nCacheStart H Invalid\n",
        Some((3, Rule::Twice)),
    ),
    (
        "Protocol P\nInfo a Int\nInfo b Int\nInfo a Node\nHomeStart H ReadWrite\nCacheStart H Invalid\n",
        Some((4, Rule::Twice)),
    ),
    (
        "Protocol P\nMessage H() 0\nInfo H Int\nHomeStart H ReadWrite\nCacheStart H Invalid\n",
        None,
    ),
    (
        "Protocol P\nHomeStart H ReadWrite\nCacheStart W Invalid\nState W{a Int}\nBegin\nDefault\nBegin\nEnd\nEnd\n",
        Some((3, Rule::ArgCount)),
    ),
    (
        "Protocol P 2\nHomeStart H ReadWrite\nCacheStart H Invalid\n",
        None,
    ),
    (
        "Protocol P 2\nHomeStart H ReadWrite\n",
        Some((1, Rule::NotTwoStarts)),
    ),
    (
        "Protocol P 2\nHomeStart H ReadWrite\nCacheStart H Invalid\nState Z{}\nBegin\nEnd\n",
        Some((4, Rule::NoDefault)),
    ),
    (
        "Protocol H\nMessage A() 0\nMessage B() 0\nHomeStart H Invalid\nCacheStart H ReadOnly\n",
        None,
    ),
];

#[test]
fn heads_are_checked(rt: HostRuntime) -> Result<(), Fail> {
    for (head, due) in &HEADS {
        let text = format!(in rt.alloc(); "{head}{TAIL}")?;
        let got = checked(rt.alloc(), text.as_bytes())?;
        assert_eq!(rt; got, *due);
    }
    Ok(())
}

// How often the statement stands in the body, what stands before it and behind it, and whether that is refused.
const SENDS: [(&str, &str, usize, &str, &str, bool); 10] = [
    ("", "", 32, "Send(who, GO)\n", "", false),
    ("", "", 33, "Send(who, GO)\n", "", true),
    ("", "", 4, "SendAll(sharers, GO)\n", "", false),
    ("", "", 5, "SendAll(sharers, GO)\n", "", true),
    ("", "Send(who, GO)\n", 4, "SendAll(sharers, GO)\n", "", true),
    (
        "",
        "",
        4,
        "If flag\nBegin\nSendAll(sharers, GO)\nEnd\nElse\nBegin\nSend(who, GO)\nEnd\n",
        "",
        false,
    ),
    (
        "",
        "",
        4,
        "If flag\nBegin\nSend(who, GO)\nEnd\nElse\nBegin\nSendAll(sharers, GO)\nEnd\n",
        "Send(who, GO)\n",
        true,
    ),
    (
        " 2",
        "Local k Node\nForEach k sharers\nBegin\n",
        4,
        "Send(k, GO)\n",
        "End\n",
        false,
    ),
    (
        " 2",
        "Local k Node\nForEach k sharers\nBegin\n",
        5,
        "Send(k, GO)\n",
        "End\n",
        true,
    ),
    (
        " 2",
        "Local k Node\nForEach k sharers\nBegin\n",
        1,
        "SendAll(sharers, GO)\n",
        "End\n",
        true,
    ),
];

#[test]
fn sends_are_counted(rt: HostRuntime) -> Result<(), Fail> {
    for (profile, before, times, statement, behind, refused) in &SENDS {
        let body = format!(in rt.alloc();
            "{before}{}{behind}",
            repeated(rt.alloc(), statement, *times)?
        )?;
        let text = protocol(rt.alloc(), profile, body.as_str(), "")?;
        let due = refused.then_some((12, Rule::TooManySends));
        assert_eq!(rt; checked(rt.alloc(), text.as_bytes())?, due);
    }
    Ok(())
}

// A handler of a message without arguments that names so many, and assigns each to an info.
fn with_arguments(alloc: Global, count: u32) -> Result<String, Fail> {
    let mut text = format!(in alloc;
        "Protocol P\nMessage GO() 0\nInfo v Int\nHomeStart H Invalid\nCacheStart H Invalid\nState H{{}}\nBegin\nOn GO(x"
    )?;
    for n in 0..count {
        text.push_str(format!(in alloc; ",x{n}")?.as_str())?;
    }
    text.push_str(")\nBegin\n")?;
    for n in 0..count {
        text.push_str(format!(in alloc; "v:=x{n}\n")?.as_str())?;
    }
    text.push_str("End\nDefault\nBegin\nEnd\nEnd\n")?;
    Ok(text)
}

// Were a name looked for among all others, this would take minutes.
#[test]
fn very_many_arguments_are_looked_up(rt: HostRuntime) -> Result<(), Fail> {
    let text = with_arguments(rt.alloc(), 60_000)?;
    let got = checked(rt.alloc(), text.as_bytes())?;
    assert_eq!(rt; got, Some((8, Rule::ArgCount)));
    Ok(())
}
