//! Messages of a protocol that a linear congruence picks.

ghost use Rattle.std.specs.Prelude.{◌≡◌, ◌-◌, ◌<◌, ◌≤◌, None, drop, false, length, map, replicate, take, true};
ghost use Rattle.tw_base.specs.declared.value.Value.TheVariants.{Int};
ghost use Rattle.teapot_meaning.specs.Fits.{HasWords, IsMessageOf, type_of};

use std::test::Fail;
use teapot_tree::{MessageDecl, Protocol, ValType};
use tw_base::{BlockId, Chan, Data, Kind, Message, NodeId, NodeSet, Value};

// A number below a bound, the next of a linear congruence.
fn pick(dice: &mut u64, below: u64) -> u64
    requires { 0 < below }
    ensures { result < below }
{
    *dice = dice
        .wrapping_mul(6_364_136_223_846_793_005)
        .wrapping_add(1_442_695_040_888_963_407);
    (*dice >> 33) % below
}

fn any_node(dice: &mut u64) -> NodeId {
    NodeId::new(pick(dice, 8) as u8).unwrap()
}

// Few members, so that loops end soon, but at times many.
fn any_set(dice: &mut u64) -> NodeSet {
    let mut set = NodeSet::empty();
    let tries = match pick(dice, 16) {
        0 => 40,
        few => few % 4,
    };
    for _ in 0..tries {
        set = set.with(any_node(dice));
    }
    set
}

// Small numbers, and some of the largest.
fn any_number(dice: &mut u64) -> u32 {
    let number = pick(dice, 8) as u32;
    if pick(dice, 8) == 0 {
        u32::MAX - number
    } else {
        number
    }
}

fn any_value(dice: &mut u64, ty: ValType) -> Value {
    match ty {
        ValType::Int => Value::Int(any_number(dice)),
        ValType::Bool => Value::Bool(pick(dice, 2) == 0),
        ValType::Node => Value::Node(any_node(dice)),
        ValType::Set => Value::Set(any_set(dice)),
    }
}

// Values of these types, and 0 in the places past them.
fn any_values(dice: &mut u64, types: &[ValType]) -> [Value; 4]
    requires { length types.now ≤ 4 }
    ensures { drop (length types.now) result ≡ replicate (4 - length types.now) (Int 0) }
{
    let mut values = [Value::Int(0); 4];
    for (k, ty) in types.iter().enumerate() {
        values[k] = any_value(dice, *ty);
    }
    values
}

fn data_of(part: &[u64]) -> Data
    requires { length part.now ≤ 8 }
{
    let mut words = [0; 8];
    words[..part.len()].copy_from_slice(part);
    Data {
        words,
        len: part.len() as u8,
    }
}

fn any_words(dice: &mut u64, count: usize) -> Data
    requires { count ≤ 8 }
{
    let mut words = [0; 8];
    for word in &mut words {
        *word = pick(dice, 1000);
    }
    data_of(&words[..count])
}

/// A fault of this node.
pub fn fault(kind: Kind, me: NodeId, block: BlockId) -> Message {
    Message {
        kind,
        block,
        from: me,
        to: me,
        chan: Chan::Zero,
        number: 0,
        stamp: 0,
        args: [Value::Int(0); 4],
        arg_count: 0,
        payload: None,
    }
}

/// A message of this declaration without arguments, with one word where it has data.
pub fn plain(decl: &MessageDecl, number: u8, from: NodeId, block: BlockId, word: u64) -> Message {
    let payload = if decl.carries {
        Some(data_of(&[word]))
    } else {
        None
    };
    Message {
        kind: Kind::Named(number),
        block,
        from,
        to: from,
        chan: decl.chan,
        number: 0,
        stamp: 0,
        args: [Value::Int(0); 4],
        arg_count: 0,
        payload,
    }
}

// A message of this number and declaration, from any node.
fn declared(
    decl: &MessageDecl,
    number: u8,
    dice: &mut u64,
    me: NodeId,
    block: BlockId,
    words: u8,
) -> Result<Message, Fail> {
    let types = decl.args.items();
    if types.len() > 4 || words > 8 {
        return Err(Fail::new("a message or a block that is too long"));
    }
    let from = any_node(dice);
    let args = any_values(dice, types);
    let payload = if decl.carries {
        Some(any_words(dice, usize::from(words)))
    } else {
        None
    };
    Ok(Message {
        kind: Kind::Named(number),
        block,
        from,
        to: me,
        chan: decl.chan,
        number: 0,
        stamp: 0,
        args,
        arg_count: types.len() as u8,
        payload,
    })
}

/// A fault of this node or a message of the protocol, from any node.
pub fn any_message(
    p: &Protocol,
    dice: &mut u64,
    me: NodeId,
    block: BlockId,
    words: u8,
) -> Result<Message, Fail> {
    let number = pick(dice, 66) as usize % (p.messages.len().min(64) + 2);
    match p.messages.get(number) {
        Some(decl) if number < 64 => declared(decl, number as u8, dice, me, block, words),
        _ if number % 2 == 0 => Ok(fault(Kind::RdFault, me, block)),
        _ => Ok(fault(Kind::WrFault, me, block)),
    }
}

/// Whether values have these types.
pub fn have_types(values: &[Value], types: &[ValType]) -> bool
    ensures { result ≡ true → map type_of values.now ≡ types.now }
{
    if values.len() != types.len() {
        return false;
    }
    for (k, value) in values.iter().enumerate() {
        if type_of(*value) != types[k] {
            return false;
        }
    }
    true
}

fn type_of(value: Value) -> ValType
    ensures { result ≡ type_of value }
{
    match value {
        Value::Int(_) => ValType::Int,
        Value::Bool(_) => ValType::Bool,
        Value::Node(_) => ValType::Node,
        Value::Set(_) => ValType::Set,
    }
}

// Whether the data are of this many words and there exactly if a message carries them.
fn is_carried(carries: bool, payload: &Option<Data>, words: u8) -> bool
    ensures there { result ≡ true → carries ≡ true → HasWords words payload.now }
    ensures plain { result ≡ true → carries ≡ false → payload.now ≡ None }
{
    match payload {
        Some(data) => carries && data.len == words,
        None => !carries,
    }
}

// Whether this is a message of this declaration.
fn is_of(decl: &MessageDecl, words: u8, m: &Message) -> bool
    ensures types { result ≡ true → map type_of (take m.now.arg_count m.now.args) ≡ decl.now.args }
    ensures there { result ≡ true → decl.now.carries ≡ true → HasWords words m.now.payload }
    ensures plain { result ≡ true → decl.now.carries ≡ false → m.now.payload ≡ None }
{
    let args = &m.args[..usize::from(m.arg_count)];
    have_types(args, decl.args.items()) && is_carried(decl.carries, &m.payload, words)
}

// Whether this is a fault.
fn is_fault(m: &Message) -> bool
    ensures args { result ≡ true → m.now.arg_count ≡ 0 }
    ensures plain { result ≡ true → m.now.payload ≡ None }
{
    m.arg_count == 0 && m.payload.is_none()
}

/// Whether this is a fault or a message of the protocol, for blocks of this many words.
pub fn is_message(p: &Protocol, words: u8, m: &Message) -> bool
    ensures { result ≡ true → IsMessageOf p.now words m.now }
{
    match m.kind {
        Kind::Named(number) => match p.messages.get(usize::from(number)) {
            Some(decl) => is_of(decl, words, m),
            None => false,
        },
        _ => is_fault(m),
    }
}
