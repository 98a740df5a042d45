ghost use Rattle.std.specs.Prelude.{◌≡◌, ◌∷◌, ◌+◌, ◌^◌, ◌<◌, ◌≤◌, List, MatchOption, drop, length, reverse, slice_get};
ghost use Rattle.std.specs.Prelude.{slice_set, take, true};
ghost use Rattle.tw_base.specs.NodeSets.{without};
ghost use Rattle.tw_base.specs.declared.message.Message.{Message};
ghost use Rattle.teapot_meaning.specs.Steps.{freed_kept, least_of, set_of};
ghost use Rattle.teapot_meaning.specs.Values.{count_of, not_of, one_of, two_of};
ghost use Rattle.handler_code.specs.declared.code.Code.{Code};
ghost use Rattle.handler_code.specs.Machine.{Next, Saved, act, below, state_arity, top, value_at};
ghost use Rattle.handler_code.specs.Stacks.{put_by, taken_by};
ghost use Rattle.handler_vm.specs.Inside.{HasFew, IsInner, SameBlock, machine_of};
ghost use Rattle.handler_vm.specs.Room.{IsThere};

use crate::running::Running;
use handler_code::OpCode;
use teapot_meaning::{Kept, count, least_of, not, one, set_of, two};
use teapot_tree::{Op, Protocol};
use tw_base::Value;

/// How many arguments a state has.
pub(crate) fn state_arity(p: &Protocol, state: u8) -> usize
    requires { state < length p.now.states }
    ensures { result ≡ state_arity (slice_get p.now.states state) }
{
    p.states.items()[usize::from(state)].params.len()
}

impl Running {
    fn get(&mut self, k: u8)
        requires room { length self.old.stack < 24 }
        requires there { k < length self.old.slots }
        ensures { self.new ≡ record self.old { stack = value_at self.old.slots k ∷ self.old.stack } }
    {
        let value = self.slots.get(k);
        self.push(value);
    }

    fn get_info(&mut self, k: u8)
        requires room { length self.old.stack < 24 }
        requires there { k < 8 }
        ensures { self.new ≡ record self.old { stack = value_at self.old.infos k ∷ self.old.stack } }
    {
        let value = self.info(k);
        self.push(value);
    }

    fn one(&mut self)
        requires enough { 1 ≤ length self.old.stack }
        requires most { length self.old.stack ≤ 24 }
        ensures { self.new ≡ record self.old { stack = one_of (top self.old.stack) ∷ below self.old.stack } }
    {
        let value = self.pop();
        self.push(one(value));
    }

    fn not(&mut self)
        requires enough { 1 ≤ length self.old.stack }
        requires most { length self.old.stack ≤ 24 }
        ensures { self.new ≡ record self.old { stack = not_of (top self.old.stack) ∷ below self.old.stack } }
    {
        let value = self.pop();
        self.push(not(value));
    }

    fn members(&mut self)
        requires enough { 1 ≤ length self.old.stack }
        requires most { length self.old.stack ≤ 24 }
        ensures { self.new ≡ record self.old { stack = count_of (top self.old.stack) ∷ below self.old.stack } }
    {
        let value = self.pop();
        self.push(count(value));
    }

    fn two(&mut self, op: Op)
        requires enough { 2 ≤ length self.old.stack }
        requires most { length self.old.stack ≤ 24 }
        ensures { self.new
            ≡ record self.old {
              stack = two_of op (top (below self.old.stack)) (top self.old.stack) ∷ below
                  (below self.old.stack);
            } }
    {
        let second = self.pop();
        let first = self.pop();
        self.push(two(op, first, second));
    }

    /// The state of this number, with the arguments on the stack; the block's deferred messages are eligible.
    fn go_to(&mut self, p: &Protocol, state: u8)
        requires few { HasFew p.now }
        requires declared { state < length p.now.states }
        requires enough { state_arity (slice_get p.now.states state) ≤ length self.old.stack }
        ensures { let count = state_arity (slice_get p.now.states state) in
            self.new ≡ record self.old {
              freed = true;
              kept = freed_kept self.old.kept;
              state = state;
              args = reverse (take count self.old.stack);
              stack = drop count self.old.stack;
            } }
    {
        let args = self.take(state_arity(p, state));
        self.free();
        self.state = state;
        self.args = args;
    }

    /// The least node that is left of the set in slot `h` becomes the value of slot `k`, or the loop ends.
    fn turn(&mut self, k: u8, h: u8, to: u32)
        requires variable { k < length self.old.slots }
        requires set { h < length self.old.slots }
        ensures { let set = set_of (value_at self.old.slots h) in
            MatchOption (least_of set)
            (self.new ≡ record self.old { at = to })
            (λ n. self.new
            ≡ record self.old {
              slots = slice_set (slice_set self.old.slots k (Value.Node n)) h
                  (Value.Set (without set n));
            }) }
    {
        let set = set_of(self.slots.get(h));
        match least_of(set) {
            Some(node) => {
                self.slots.set(k, Value::Node(node));
                self.slots.set(h, Value::Set(set.without(node)));
            }
            None => self.at = to as usize,
        }
    }

    /// An op that touches neither the sends nor the records.
    pub(crate) fn work(&mut self, p: &Protocol, op: OpCode)
        requires inner { IsInner op }
        requires few { HasFew p.now }
        requires place { self.old.at + 1 < 2 ^ 64 }
        requires ops { self.old.ops + 1 < 2 ^ 64 }
        requires most { length self.old.stack ≤ 24 }
        requires enough { taken_by p.now op ≤ length self.old.stack }
        requires there { (code : Code) × IsThere p.now code (length self.old.slots) op }
        requires fits { length self.old.stack + put_by op ≤ 24 + taken_by p.now op }
        ensures does { (code : Code) (sent : List Message) (chain : List Saved) →
            act p.now code op (machine_of p.now self.old sent chain) ≡ Next (machine_of p.now self.new sent chain) }
        ensures cont { self.new.cont ≡ self.old.cont }
        ensures records { self.new.records ≡ self.old.records }
        ensures block { SameBlock p.now self.old self.new }
    {
        self.count();
        match op {
            OpCode::Const(value) => self.push(value),
            OpCode::Get(k) => self.get(k),
            OpCode::GetInfo(k) => self.get_info(k),
            OpCode::Me => self.push(Value::Node(self.me)),
            OpCode::Home => self.push(Value::Node(self.home)),
            OpCode::One => self.one(),
            OpCode::Not => self.not(),
            OpCode::Count => self.members(),
            OpCode::Two(op) => self.two(op),
            OpCode::Put(k) => self.put(k),
            OpCode::PutInfo(k) => self.put_info(k),
            OpCode::JumpIfNot(to) => self.jump_if_not(to),
            OpCode::Jump(to) => self.jump(to),
            OpCode::Tag(tag) => self.tag = tag,
            OpCode::Install => self.install(),
            OpCode::Enqueue => self.kept = Kept::Stale,
            OpCode::Wake => self.woke = true,
            OpCode::Goto(state) => self.go_to(p, state),
            OpCode::EachNext(k, h, to) => self.turn(k, h, to),
            OpCode::JumpBack(to) => self.jump(to),
            _ => unreachable!(),
        }
    }
}
