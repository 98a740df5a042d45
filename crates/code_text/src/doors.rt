ghost use Rattle.std.specs.Prelude.{◌≡◌, ◌<◌, ◌≤◌, ◌++◌, IfOk, OnOk, length};
ghost use Rattle.std.specs.List.{flat_map, enumerate_from, slice_range};
ghost use Rattle.code_text.specs.Texts.{door_text, end_within, head_line, text_of, trigger_name};

use crate::ops::add_ops;
use crate::rests::add_rests;
use handler_code::{Code, Door, Kind2, OpCode};
use printed_text::{Names, Text};
use std::alloc::Global;
use teapot_tree::Checked;
use tw_base::{Kind, Memory};

/// What a handler is for.
fn trigger<'a>(names: &'a Names<'_>, on: Kind2) -> &'a [u8]
    ensures { result.now ≡ trigger_name names.now.protocol.now on }
{
    match on {
        Kind2::RdFault => names.kind(Kind::RdFault),
        Kind2::WrFault => names.kind(Kind::WrFault),
        Kind2::Named(number) => names.message(number),
        Kind2::Default => b"Default",
    }
}

fn add_head(out: &mut Text, names: &Names, door: &Door) -> Result<(), Memory>
    ensures { OnOk result (out.new ≡ out.old ++ head_line names.now.protocol.now door.now) }
{
    let slots = door.slots;
    out.add(b"handler ")?;
    out.add(names.state(door.state))?;
    out.add(b" ")?;
    out.add(trigger(names, door.on))?;
    writeln!(out, " slots {slots}")
}

/// Where the handler of this door ends.
fn end_within(code: &Code, door: usize) -> usize
    requires { door < length code.now.doors }
    ensures { result ≡ end_within code.now door }
{
    let end = code.ops.len();
    let doors = code.doors.items();
    match doors.get(door + 1) {
        Some(next) => (next.at as usize).min(end),
        None => end,
    }
}

/// The ops from a place up to another, none where that is not behind it.
fn ops_between(ops: &[OpCode], at: usize, end: usize) -> &[OpCode]
    requires { end ≤ length ops.now }
    ensures { result.now ≡ slice_range ops.now at end }
{
    if at < end { &ops[at..end] } else { &[] }
}

fn add_door(
    out: &mut Text,
    names: &Names,
    code: &Code,
    number: usize,
    door: &Door,
) -> Result<(), Memory>
    requires { number < length code.now.doors }
    ensures { OnOk result (out.new ≡ out.old ++ door_text names.now.protocol.now code.now (number, door.now)) }
{
    add_head(out, names, door)?;
    let at = door.at as usize;
    let ops = ops_between(code.ops.items(), at, end_within(code, number));
    add_ops(out, names, at, ops)?;
    add_rests(out, number, code.rests.items())
}

fn add_doors(out: &mut Text, names: &Names, code: &Code) -> Result<(), Memory>
    ensures { OnOk result (out.new ≡ out.old ++ flat_map (door_text names.now.protocol.now code.now)
        (enumerate_from 0 code.now.doors)) }
{
    let doors = code.doors.items();
    for (number, door) in doors.iter().enumerate() {
        add_door(out, names, code, number, door)?;
    }
    Ok(())
}

/// The text of a protocol's code.
pub fn code_text(alloc: Global, p: &Checked, code: &Code) -> Result<Vec<u8>, Memory>
    ensures { IfOk result (λ text. text.items ≡ text_of p.now code.now) }
{
    let names = Names::new(alloc, p.protocol())?;
    let mut out = Text::new(alloc);
    add_doors(&mut out, &names, code)?;
    out.add(b"end\n")?;
    Ok(out.into_vec())
}
