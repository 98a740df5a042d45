ghost use Rattle.std.specs.Prelude.{◌≡◌, ◌+◌, ◌^◌, ◌<◌, ◌++◌, codes, length, OnOk};
ghost use Rattle.std.specs.Fmt.{decimal};
ghost use Rattle.handler_code.specs.declared.code.OpCode.{OpCode};
ghost use Rattle.code_text.specs.Texts.{of, op_line, op_text, ops_text, two_text, value_text};

use handler_code::OpCode;
use printed_text::{Names, Text, tag_text};
use teapot_tree::Op;
use tw_base::{Memory, Value};

fn two_text(op: Op) -> &'static str
    ensures { result.now ≡ two_text op }
{
    match op {
        Op::Add => "Add",
        Op::Sub => "Sub",
        Op::Eq => "Eq",
        Op::Ne => "Ne",
        Op::Lt => "Lt",
        Op::Le => "Le",
        Op::And => "And",
        Op::Or => "Or",
        Op::Has => "Has",
        Op::With => "With",
        Op::Without => "Without",
    }
}

fn add_word(out: &mut Text, word: &str, what: &[u8]) -> Result<(), Memory>
    ensures { OnOk result (out.new ≡ out.old ++ of word.now what.now) }
{
    out.add(word.as_bytes())?;
    out.add(b" ")?;
    out.add(what)
}

fn add_number(out: &mut Text, word: &str, number: u32) -> Result<(), Memory>
    ensures { OnOk result (out.new ≡ out.old ++ of word.now (decimal number)) }
{
    out.add(word.as_bytes())?;
    write!(out, " {number}")
}

fn add_constant(out: &mut Text, value: Value) -> Result<(), Memory>
    ensures { OnOk result (out.new ≡ out.old ++ of (codes "Const") (value_text value)) }
{
    match value {
        Value::Int(n) => add_number(out, "Const", n),
        Value::Bool(true) => add_word(out, "Const", b"True"),
        Value::Bool(false) => add_word(out, "Const", b"False"),
        Value::Set(_) => add_word(out, "Const", b"Empty"),
        Value::Node(node) => add_number(out, "Const", u32::from(node.get())),
    }
}

fn add_suspend(out: &mut Text, names: &Names, state: u8, rest: u32) -> Result<(), Memory>
    ensures { OnOk result (out.new ≡ out.old ++ op_text names.now.protocol.now (OpCode.Suspend state rest)) }
{
    add_word(out, "Suspend", names.state(state))?;
    write!(out, " {rest}")
}

fn add_each(out: &mut Text, names: &Names, variable: u8, set: u8, to: u32) -> Result<(), Memory>
    ensures { OnOk result (out.new ≡ out.old ++ op_text names.now.protocol.now (OpCode.EachNext variable set to)) }
{
    write!(out, "EachNext {variable} {set} {to}")
}

fn add_op(out: &mut Text, names: &Names, op: &OpCode) -> Result<(), Memory>
    ensures { OnOk result (out.new ≡ out.old ++ op_text names.now.protocol.now op.now) }
{
    match op {
        OpCode::Const(value) => add_constant(out, *value),
        OpCode::Get(slot) => add_number(out, "Get", u32::from(*slot)),
        OpCode::GetInfo(info) => add_number(out, "GetInfo", u32::from(*info)),
        OpCode::Me => out.add(b"Self"),
        OpCode::Home => out.add(b"Home"),
        OpCode::One => out.add(b"One"),
        OpCode::Not => out.add(b"Not"),
        OpCode::Count => out.add(b"Count"),
        OpCode::Two(op) => out.add(two_text(*op).as_bytes()),
        OpCode::Put(slot) => add_number(out, "Put", u32::from(*slot)),
        OpCode::PutInfo(info) => add_number(out, "PutInfo", u32::from(*info)),
        OpCode::JumpIfNot(to) => add_number(out, "JumpIfNot", *to),
        OpCode::Jump(to) => add_number(out, "Jump", *to),
        OpCode::Tag(tag) => add_word(out, "Tag", tag_text(*tag).as_bytes()),
        OpCode::Install => out.add(b"Install"),
        OpCode::Enqueue => out.add(b"Enqueue"),
        OpCode::Wake => out.add(b"Wake"),
        OpCode::Send(message) => add_word(out, "Send", names.message(*message)),
        OpCode::SendAll(message) => add_word(out, "SendAll", names.message(*message)),
        OpCode::Goto(state) => add_word(out, "State", names.state(*state)),
        OpCode::Suspend(state, rest) => add_suspend(out, names, *state, *rest),
        OpCode::Resume => out.add(b"Resume"),
        OpCode::Fail(error) => add_word(out, "Fail", names.error(*error)),
        OpCode::Done => out.add(b"Done"),
        OpCode::EachNext(variable, set, to) => add_each(out, names, *variable, *set, *to),
        OpCode::JumpBack(to) => add_number(out, "JumpBack", *to),
    }
}

fn add_op_line(out: &mut Text, names: &Names, place: usize, op: &OpCode) -> Result<(), Memory>
    ensures { OnOk result (out.new ≡ out.old ++ op_line names.now.protocol.now place op.now) }
{
    write!(out, "  {place} ")?;
    add_op(out, names, op)?;
    out.add(b"\n")
}

/// A line for each op, of which the first stands at a place.
pub fn add_ops(out: &mut Text, names: &Names, at: usize, ops: &[OpCode]) -> Result<(), Memory>
    requires { at < 2 ^ 32 }
    ensures { OnOk result (out.new ≡ out.old ++ ops_text names.now.protocol.now at ops.now) }
{
    for (i, op) in ops.iter().enumerate() {
        add_op_line(out, names, at + i, op)?;
    }
    Ok(())
}
