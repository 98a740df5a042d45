ghost use Rattle.std.specs.Prelude.{◌≡◌, ◌∷◌, ◌+◌, ◌-◌, ◌^◌, ◌<◌, ◌≤◌, drop, length, reverse, slice_set, take, unwrap_or, true};
ghost use Rattle.teapot_meaning.specs.Steps.{freed_kept};
ghost use Rattle.handler_code.specs.Machine.{below, landing, top, value_at};

use crate::sets::node;
use crate::values::{Args, Operands, Slots};
use cont_store::RecordKey;
use teapot_meaning::{Kept, free};
use tw_base::{BlockId, Data, NodeId, Tag, Value};

/// A run under way: what the machine of ops has, but for its sends and its records, of which it has the newest's key. Between
/// messages it is what the last one left of it.
#[derive(Drop)]
pub(crate) struct Running {
    pub at: usize,
    pub slots: Slots,
    pub stack: Operands,
    pub came: Option<Data>,
    pub me: NodeId,
    pub home: NodeId,
    pub block: BlockId,
    pub infos: [Value; 8],
    pub tag: Tag,
    pub words: Data,
    pub kept: Kept,
    pub freed: bool,
    pub woke: bool,
    pub state: u8,
    pub args: Args,
    pub cont: Option<RecordKey>,
    pub ops: u64,
    pub records: u8,
}

impl Running {
    /// Before the first message.
    pub(crate) fn idle() -> Running {
        Running {
            at: 0,
            slots: Slots::new(),
            stack: Operands::new(),
            came: None,
            me: node(0),
            home: node(0),
            block: BlockId::new(0).unwrap(),
            infos: [Value::Int(0); 8],
            tag: Tag::Invalid,
            words: Data {
                words: [0; 8],
                len: 0,
            },
            kept: Kept::No,
            freed: false,
            woke: false,
            state: 0,
            args: Args::of(&[]),
            cont: None,
            ops: 0,
            records: 0,
        }
    }

    /// Counts an op, which the next one follows.
    pub(crate) fn count(&mut self)
        requires place { self.old.at + 1 < 2 ^ 64 }
        requires ops { self.old.ops + 1 < 2 ^ 64 }
        ensures { self.new ≡ record self.old { at = self.old.at + 1; ops = self.old.ops + 1 } }
    {
        self.at += 1;
        self.ops += 1;
    }

    pub(crate) fn push(&mut self, value: Value)
        requires { length self.old.stack < 24 }
        ensures { self.new ≡ record self.old { stack = value ∷ self.old.stack } }
    {
        self.stack.push(value);
    }

    pub(crate) fn pop(&mut self) -> Value
        requires { 0 < length self.old.stack }
        ensures value { result ≡ top self.old.stack }
        ensures rest { self.new ≡ record self.old { stack = below self.old.stack } }
        ensures len { length self.new.stack ≡ length self.old.stack - 1 }
    {
        self.stack.pop()
    }

    pub(crate) fn take(&mut self, count: usize) -> Args
        requires few { count ≤ 4 }
        requires enough { count ≤ length self.old.stack }
        ensures args { result ≡ reverse (take count self.old.stack) }
        ensures rest { self.new ≡ record self.old { stack = drop count self.old.stack } }
    {
        self.stack.take(count)
    }

    pub(crate) fn info(&self, k: u8) -> Value
        requires { k < 8 }
        ensures { result ≡ value_at self.now.infos k }
    {
        self.infos[usize::from(k)]
    }

    /// The value on the stack becomes that of a slot.
    pub(crate) fn put(&mut self, k: u8)
        requires enough { 0 < length self.old.stack }
        requires there { k < length self.old.slots }
        ensures { self.new ≡ record self.old {
          slots = slice_set self.old.slots k (top self.old.stack);
          stack = below self.old.stack;
        } }
    {
        let value = self.stack.pop();
        self.slots.set(k, value);
    }

    /// The value on the stack becomes that of an info.
    pub(crate) fn put_info(&mut self, k: u8)
        requires enough { 0 < length self.old.stack }
        requires there { k < 8 }
        ensures { self.new ≡ record self.old {
          infos = slice_set self.old.infos k (top self.old.stack);
          stack = below self.old.stack;
        } }
    {
        let value = self.stack.pop();
        self.infos[usize::from(k)] = value;
    }

    pub(crate) fn jump(&mut self, to: u32)
        ensures { self.new ≡ record self.old { at = to } }
    {
        self.at = to as usize;
    }

    /// Jumps unless True is on the stack.
    pub(crate) fn jump_if_not(&mut self, to: u32)
        requires { 0 < length self.old.stack }
        ensures { self.new ≡ record self.old { at = landing (top self.old.stack) self.old.at to; stack = below self.old.stack } }
    {
        match self.stack.pop() {
            Value::Bool(true) => {}
            _ => self.at = to as usize,
        }
    }

    /// The words of the data that came, if any did.
    pub(crate) fn install(&mut self)
        ensures { self.new ≡ record self.old { words = unwrap_or self.old.came self.old.words } }
    {
        if let Some(words) = self.came {
            self.words = words;
        }
    }

    /// The block's deferred messages are eligible.
    pub(crate) fn free(&mut self)
        ensures { self.new ≡ record self.old { freed = true; kept = freed_kept self.old.kept } }
    {
        self.freed = true;
        self.kept = free(self.kept);
    }
}
