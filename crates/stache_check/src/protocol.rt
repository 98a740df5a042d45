ghost use Rattle.std.specs.Prelude.{◌≡◌, ◌↔◌, IsTrue, Some, None, [], ◌∷◌, map, if◌then◌else◌};
ghost use Rattle.teapot_tree.specs.Bare.{bare_message, bare_param, bare_start, bare_state};
ghost use Rattle.stache_d_tree.specs.Tree.{IsStacheD, stache_d, states_d};
ghost use Rattle.stache_l_tree.specs.Tree.{IsStacheL, stache_l, states_l};
ghost use Rattle.stache_tree.specs.Tree.{IsStache, info, message, starts_in, stache, states, home_rw, home_ro, home_excl};
ghost use Rattle.stache_tree.specs.Tree.{home_acks, home_put, cache_inv, cache_ro, cache_rw, cache_wait_ro, cache_wait_rw};
ghost use Rattle.stache_check.specs.Words.{cont_of, message_of, state_by, state_by_d, state_by_l, state_under, word_of};

use crate::states::{
    is_cache_inv, is_cache_ro, is_cache_rw, is_cache_wait_ro, is_cache_wait_rw, is_home_acks,
    is_home_excl, is_home_put, is_home_ro, is_home_rw,
};
use crate::states_d::{is_cache_rw_d, is_home_excl_d, is_home_put_d};
use crate::states_l::is_home_ro_l;
use crate::{Directory, Word, are_none, is_info};
use teapot_tree::{Handler, MessageDecl, Param, Protocol, Start, State, ValType};
use tw_base::{Chan, Name, Tag};

#[derive(Clone, Copy)]
pub struct Sent {
    pub word: Word,
    pub chan: Chan,
    pub carries: bool,
}

fn is_message(m: &MessageDecl, sent: Sent) -> bool
    ensures { IsTrue result ↔ (bare_message m.now ≡ message_of sent) }
{
    sent.word.is(&m.name) && m.args.is_empty() && m.chan == sent.chan && m.carries == sent.carries
}

fn are_messages(messages: &[MessageDecl], sents: &[Sent]) -> bool
    ensures { IsTrue result ↔ (map bare_message messages.now ≡ map message_of sents.now) }
{
    if messages.len() != sents.len() {
        return false;
    }
    for (at, m) in messages.iter().enumerate() {
        if !is_message(m, sents[at]) {
            return false;
        }
    }
    true
}

fn is_start(s: &Start, home: bool, word: Word, tag: Tag) -> bool
    ensures { IsTrue result ↔ (bare_start s.now ≡ starts_in home (word_of word) tag) }
{
    s.home == home && word.is(&s.state) && s.tag == tag
}

fn are_infos(infos: &[Param]) -> bool
    ensures { IsTrue result ↔ (map bare_param infos.now ≡ stache.infos) }
{
    match infos {
        [a, b, c] => {
            is_info(a, Word::Sharers, ValType::Set)
                && is_info(b, Word::Owner, ValType::Node)
                && is_info(c, Word::Acks, ValType::Int)
        }
        _ => false,
    }
}

fn are_starts(starts: &[Start]) -> bool
    ensures { IsTrue result ↔ (map bare_start starts.now ≡ stache.starts) }
{
    match starts {
        [a, b] => {
            is_start(a, true, Word::HomeRw, Tag::ReadWrite)
                && is_start(b, false, Word::CacheInv, Tag::Invalid)
        }
        _ => false,
    }
}

fn is_cont(cont: &Option<Name>, held: bool) -> bool
    ensures { IsTrue result ↔ (cont.now ≡ cont_of held) }
{
    match cont {
        Some(name) => held && Word::C.is(name),
        None => !held,
    }
}

/// All of a state but its handlers.
fn is_head(s: &State, word: Word, held: bool) -> bool
    ensures { IsTrue result ↔ ((s.now.name ≡ word_of word) × (map bare_param s.now.params ≡ []) × (s.now.cont ≡ cont_of held)) }
{
    word.is(&s.name) && are_none(s.params.items()) && is_cont(&s.cont, held)
}

/// The states.
#[derive(Clone, Copy)]
pub enum Place {
    HomeRw,
    HomeRo,
    HomeExcl,
    HomeAcks,
    HomePut,
    CacheInv,
    CacheRo,
    CacheRw,
    CacheWaitRo,
    CacheWaitRw,
}

fn is_state_of_stache(s: &State, place: Place) -> bool
    ensures { IsTrue result ↔ (bare_state s.now ≡ state_by place) }
{
    let handlers = s.handlers.items();
    match place {
        Place::HomeRw => is_head(s, Word::HomeRw, false) && is_home_rw(handlers),
        Place::HomeRo => is_head(s, Word::HomeRo, false) && is_home_ro(handlers),
        Place::HomeExcl => is_head(s, Word::HomeExcl, false) && is_home_excl(handlers),
        Place::HomeAcks => is_head(s, Word::HomeAcks, true) && is_home_acks(handlers),
        Place::HomePut => is_head(s, Word::HomePut, true) && is_home_put(handlers),
        Place::CacheInv => is_head(s, Word::CacheInv, false) && is_cache_inv(handlers),
        Place::CacheRo => is_head(s, Word::CacheRo, false) && is_cache_ro(handlers),
        Place::CacheRw => is_head(s, Word::CacheRw, false) && is_cache_rw(handlers),
        Place::CacheWaitRo => is_head(s, Word::CacheWaitRo, true) && is_cache_wait_ro(handlers),
        Place::CacheWaitRw => is_head(s, Word::CacheWaitRw, true) && is_cache_wait_rw(handlers),
    }
}

#[tactic(auto, using(crate::proofs::Places::same_elsewhere))]
fn is_state_of_d(s: &State, place: Place) -> bool
    ensures { IsTrue result ↔ (bare_state s.now ≡ state_by_d place) }
{
    let handlers = s.handlers.items();
    match place {
        Place::HomeExcl => is_head(s, Word::HomeExcl, false) && is_home_excl_d(handlers),
        Place::HomePut => is_head(s, Word::HomePut, true) && is_home_put_d(handlers),
        Place::CacheRw => is_head(s, Word::CacheRw, false) && is_cache_rw_d(handlers),
        _ => is_state_of_stache(s, place),
    }
}

#[tactic(auto, using(crate::proofs::Places::same_but_home_ro))]
fn is_state_of_l(s: &State, place: Place) -> bool
    ensures { IsTrue result ↔ (bare_state s.now ≡ state_by_l place) }
{
    match place {
        Place::HomeRo => { is_head(s, Word::HomeRo, false) && is_home_ro_l(s.handlers.items()) }
        _ => is_state_of_stache(s, place),
    }
}

fn is_state(s: &State, directory: Directory, place: Place) -> bool
    ensures { IsTrue result ↔ (bare_state s.now ≡ state_under directory place) }
{
    match directory {
        Directory::Stache => is_state_of_stache(s, place),
        Directory::StacheD => is_state_of_d(s, place),
        Directory::StacheL => is_state_of_l(s, place),
    }
}

fn are_states(states: &[State], directory: Directory, places: &[Place]) -> bool
    ensures { IsTrue result ↔ (map bare_state states.now ≡ map (state_under directory) places.now) }
{
    if states.len() != places.len() {
        return false;
    }
    for (at, s) in states.iter().enumerate() {
        if !is_state(s, directory, places[at]) {
            return false;
        }
    }
    true
}

fn are_all_messages(messages: &[MessageDecl]) -> bool
    ensures { IsTrue result ↔ (map bare_message messages.now ≡ stache.messages) }
{
    are_messages(
        messages,
        &[
            Sent {
                word: Word::GetRo,
                chan: Chan::Zero,
                carries: false,
            },
            Sent {
                word: Word::GetRw,
                chan: Chan::Zero,
                carries: false,
            },
            Sent {
                word: Word::DataRo,
                chan: Chan::One,
                carries: true,
            },
            Sent {
                word: Word::DataRw,
                chan: Chan::One,
                carries: true,
            },
            Sent {
                word: Word::Put,
                chan: Chan::One,
                carries: true,
            },
            Sent {
                word: Word::Inv,
                chan: Chan::One,
                carries: false,
            },
            Sent {
                word: Word::Ack,
                chan: Chan::One,
                carries: false,
            },
            Sent {
                word: Word::Recall,
                chan: Chan::One,
                carries: false,
            },
        ],
    )
}

/// The states of each of the protocols, in their order.
const PLACES: [Place; 10] = [
    Place::HomeRw,
    Place::HomeRo,
    Place::HomeExcl,
    Place::HomeAcks,
    Place::HomePut,
    Place::CacheInv,
    Place::CacheRo,
    Place::CacheRw,
    Place::CacheWaitRo,
    Place::CacheWaitRw,
];

#[tactic(auto, unfolding(stache_tree::specs::Tree::states))]
fn are_all_states(found: &[State]) -> bool
    ensures { IsTrue result ↔ (map bare_state found.now ≡ states) }
{
    are_states(found, Directory::Stache, &PLACES)
}

/// Whether it is Stache, line numbers aside.
pub fn is_stache(p: &Protocol) -> bool
    ensures { IsTrue result ↔ IsStache p.now }
{
    Word::Stache.is(&p.name)
        && p.profile == 1
        && are_all_messages(p.messages.items())
        && are_infos(p.infos.items())
        && are_starts(p.starts.items())
        && are_all_states(p.states.items())
}

/// The messages of Stache_D: those of Stache, a recall that leaves a copy, and its answer.
const MESSAGES_OF_D: [Sent; 10] = [
    Sent {
        word: Word::GetRo,
        chan: Chan::Zero,
        carries: false,
    },
    Sent {
        word: Word::GetRw,
        chan: Chan::Zero,
        carries: false,
    },
    Sent {
        word: Word::DataRo,
        chan: Chan::One,
        carries: true,
    },
    Sent {
        word: Word::DataRw,
        chan: Chan::One,
        carries: true,
    },
    Sent {
        word: Word::Put,
        chan: Chan::One,
        carries: true,
    },
    Sent {
        word: Word::Inv,
        chan: Chan::One,
        carries: false,
    },
    Sent {
        word: Word::Ack,
        chan: Chan::One,
        carries: false,
    },
    Sent {
        word: Word::Recall,
        chan: Chan::One,
        carries: false,
    },
    Sent {
        word: Word::RecallRo,
        chan: Chan::One,
        carries: false,
    },
    Sent {
        word: Word::PutRo,
        chan: Chan::One,
        carries: true,
    },
];

fn are_messages_of_d(messages: &[MessageDecl]) -> bool
    ensures { IsTrue result ↔ (map bare_message messages.now ≡ stache_d.messages) }
{
    are_messages(messages, &MESSAGES_OF_D)
}

#[tactic(auto, unfolding(stache_d_tree::specs::Tree::states_d))]
fn are_states_of_d(found: &[State]) -> bool
    ensures { IsTrue result ↔ (map bare_state found.now ≡ states_d) }
{
    are_states(found, Directory::StacheD, &PLACES)
}

/// Whether it is Stache_D, line numbers aside.
pub fn is_stache_d(p: &Protocol) -> bool
    ensures { IsTrue result ↔ IsStacheD p.now }
{
    Word::StacheD.is(&p.name)
        && p.profile == 1
        && are_messages_of_d(p.messages.items())
        && are_infos(p.infos.items())
        && are_starts(p.starts.items())
        && are_states_of_d(p.states.items())
}

#[tactic(auto, unfolding(stache_l_tree::specs::Tree::states_l))]
fn are_states_of_l(found: &[State]) -> bool
    ensures { IsTrue result ↔ (map bare_state found.now ≡ states_l) }
{
    are_states(found, Directory::StacheL, &PLACES)
}

/// Whether it is Stache_L, line numbers aside.
pub fn is_stache_l(p: &Protocol) -> bool
    ensures { IsTrue result ↔ IsStacheL p.now }
{
    Word::StacheL.is(&p.name)
        && p.profile == 2
        && are_all_messages(p.messages.items())
        && are_infos(p.infos.items())
        && are_starts(p.starts.items())
        && are_states_of_l(p.states.items())
}
