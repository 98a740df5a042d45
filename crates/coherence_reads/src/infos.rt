ghost use Rattle.std.specs.Prelude.{ℕ, ◌≡◌, ◌≤◌, ◌<◌, true, false, slice_get};
ghost use Rattle.std.specs.Bool.{Decides};
ghost use Rattle.tw_base.specs.NodeSets.{count, has};
ghost use Rattle.block_spots.specs.Cases.{members};
ghost use Rattle.block_spots.specs.Views.{int_of, value_at};
ghost use Rattle.teapot_meaning.specs.Steps.{node_of, set_of};
ghost use Rattle.coherence_inv.specs.Coherent.{Infos, IsCacheNode};
ghost use Rattle.stache_l_inv.specs.Coherent as words_l;
ghost use Rattle.coherence_reads.specs.Directories.{InfosUnder};
ghost use Rattle.coherence_reads.specs.Seeing.{here_in};
ghost use Rattle.block_reads.specs.Whose.{rest_in, state_in};

use crate::states::is_cache_node;
use crate::{Home, Whose, is_nobody};
use stache_check::{Directory, Place};
use tw_base::{NodeId, NodeSet, Value};

fn info(infos: &[Value], at: usize) -> Value
    ensures { result ≡ value_at infos.now at }
{
    if at < infos.len() {
        infos[at]
    } else {
        Value::Int(0)
    }
}

pub fn sharers(infos: &[Value]) -> NodeSet
    ensures { result ≡ set_of (value_at infos.now 0) }
{
    match info(infos, 0) {
        Value::Set(set) => set,
        _ => NodeSet::empty(),
    }
}

pub fn owner(infos: &[Value]) -> NodeId
    ensures { result ≡ node_of (value_at infos.now 1) }
{
    match info(infos, 1) {
        Value::Node(node) => node,
        _ => NodeId::new(0).unwrap(),
    }
}

pub fn acks(infos: &[Value]) -> u32
    ensures { result ≡ int_of (value_at infos.now 2) }
{
    match info(infos, 2) {
        Value::Int(number) => number,
        _ => 0,
    }
}

fn fits(set: NodeSet, nodes: u8, home: NodeId, node: NodeId) -> bool
    ensures { Decides result (has set node ≡ true → IsCacheNode nodes home node) }
{
    if set.has(node) {
        is_cache_node(nodes, home, node)
    } else {
        true
    }
}

/// Whether each member is a cache of a block of this home.
fn are_caches(set: NodeSet, nodes: u8, home: NodeId) -> bool
    ensures { Decides result ((k : ℕ) → has set k ≡ true → IsCacheNode nodes home k) }
{
    let _eight = set.has(home);
    for number in 0..8 {
        let node = NodeId::new(number).unwrap();
        if !fits(set, nodes, home, node) {
            return false;
        }
    }
    true
}

fn has_members(set: NodeSet) -> bool
    ensures { Decides result (1 ≤ count set) }
{
    set.count() >= 1
}

fn are_sharers(set: NodeSet, nodes: u8, home: NodeId) -> bool
    requires { nodes ≤ 8 }
    ensures { Decides result (((k : ℕ) → has set k ≡ true → IsCacheNode nodes home k) × (1 ≤ members nodes (has set))) }
{
    if !are_caches(set, nodes, home) {
        return false;
    }
    has_members(set)
}

/// Whether the sharers, the owner and the count of a home of Stache are as its state asks.
fn infos_fit_of_stache(x: &Home, nodes: u8, home: NodeId) -> bool
    requires { nodes ≤ 8 }
    ensures { Decides result (Infos nodes home (state_in x.now.place) (here_in x.now)) }
{
    match x.place {
        Place::HomeRw => is_nobody(x.sharers),
        Place::HomeRo => are_sharers(x.sharers, nodes, home),
        Place::HomeAcks => is_nobody(x.sharers) && x.acks >= 1,
        Place::HomeExcl => is_nobody(x.sharers) && is_cache_node(nodes, home, x.owner),
        Place::HomePut => is_nobody(x.sharers) && is_cache_node(nodes, home, x.owner),
        _ => false,
    }
}

fn has_one_or_two(set: NodeSet) -> bool
    ensures { Decides result ((1 ≤ count set) × (count set ≤ 2)) }
{
    set.count() >= 1 && set.count() <= 2
}

/// Whether it is one cache, or two.
fn are_one_or_two(set: NodeSet, nodes: u8, home: NodeId) -> bool
    requires { nodes ≤ 8 }
    ensures { Decides result (((k : ℕ) → has set k ≡ true → IsCacheNode nodes home k) × (1 ≤ members nodes (has set))
        × (members nodes (has set) ≤ 2)) }
{
    if !are_caches(set, nodes, home) {
        return false;
    }
    has_one_or_two(set)
}

fn has_one_beside(set: NodeSet, reader: NodeId) -> bool
    ensures { Decides result ((count set ≡ 1) × (has set reader ≡ false)) }
{
    set.count() == 1 && !set.has(reader)
}

/// Whether it is one cache, and not the reader.
fn is_one_beside(set: NodeSet, nodes: u8, home: NodeId, reader: NodeId) -> bool
    requires { nodes ≤ 8 }
    ensures { Decides result (((k : ℕ) → has set k ≡ true → IsCacheNode nodes home k) × (members nodes (has set) ≡ 1)
        × (has set reader ≡ false)) }
{
    if !are_caches(set, nodes, home) {
        return false;
    }
    has_one_beside(set, reader)
}

/// Whether the sharers and the count of a home of Stache_L that collects acknowledgements are as its continuation asks.
fn infos_fit_in_acks(x: &Home, nodes: u8, home: NodeId) -> bool
    requires { nodes ≤ 8 }
    ensures { Decides result (words_l.InfosInAcks nodes home (rest_in x.now.whose) (here_in x.now)) }
{
    match x.whose {
        Whose::OfRo(reader) => is_one_beside(x.sharers, nodes, home, reader) && x.acks == 1,
        _ => is_nobody(x.sharers) && x.acks >= 1 && x.acks <= 2,
    }
}

fn infos_fit_of_l(x: &Home, nodes: u8, home: NodeId) -> bool
    requires { nodes ≤ 8 }
    ensures { Decides result (words_l.Infos nodes home (state_in x.now.place) (here_in x.now)) }
{
    match x.place {
        Place::HomeRo => are_one_or_two(x.sharers, nodes, home),
        Place::HomeAcks => infos_fit_in_acks(x, nodes, home),
        _ => infos_fit_of_stache(x, nodes, home),
    }
}

/// Whether the sharers, the owner and the count of a home are as its state asks.
pub fn infos_fit(directory: Directory, x: &Home, nodes: u8, home: NodeId) -> bool
    requires { nodes ≤ 8 }
    ensures { Decides result (InfosUnder directory nodes home (state_in x.now.place) (here_in x.now)) }
{
    match directory {
        Directory::Stache => infos_fit_of_stache(x, nodes, home),
        Directory::StacheD => infos_fit_of_stache(x, nodes, home),
        Directory::StacheL => infos_fit_of_l(x, nodes, home),
    }
}
