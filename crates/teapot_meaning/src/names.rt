ghost use Rattle.std.specs.Prelude.{◌≡◌, ◌≤◌, length, slice_get};
ghost use Rattle.teapot_meaning.specs.Names.{declared, info_number};
ghost use Rattle.teapot_meaning.specs.Steps.{payload_of};
ghost use Rattle.teapot_tree.specs.Scopes.{message_number, state_number};

use teapot_tree::Protocol;
use tw_base::Data;

/// The number of a message, 0 where it is not declared.
pub fn message_number(p: &Protocol, name: &[u8]) -> u8
    requires { length p.now.messages ≤ 64 }
    ensures { result ≡ declared (message_number p.now name.now) }
{
    match message_place(p, name) {
        Some(at) => at as u8,
        None => 0,
    }
}

pub fn message_place(p: &Protocol, name: &[u8]) -> Option<usize>
    ensures { result ≡ message_number p.now name.now }
{
    p.messages.items().iter().position(|m| m.name.is(name))
}

/// The number of a state, 0 where it is not declared.
pub fn state_number(p: &Protocol, name: &[u8]) -> u8
    requires { length p.now.states ≤ 64 }
    ensures { result ≡ declared (state_number p.now name.now) }
{
    match state_place(p, name) {
        Some(at) => at as u8,
        None => 0,
    }
}

fn state_place(p: &Protocol, name: &[u8]) -> Option<usize>
    ensures { result ≡ state_number p.now name.now }
{
    p.states.items().iter().position(|s| s.name.is(name))
}

pub fn info_place(p: &Protocol, name: &[u8]) -> Option<usize>
    ensures { result ≡ info_number p.now name.now }
{
    p.infos.items().iter().position(|i| i.name.is(name))
}

/// The data of a message of this number: the words, where it carries them.
#[tactic(auto, unfolding(crate::specs::Steps::payload_of))]
pub fn payload(p: &Protocol, number: u8, words: &Data) -> Option<Data>
    ensures { result ≡ payload_of (slice_get p.now.messages number) words.now }
{
    match p.messages.get(usize::from(number)) {
        Some(m) => { if m.carries { Some(*words) } else { None } }
        None => None,
    }
}
