ghost use Rattle.std.specs.Prelude.{ℕ, ◌≡◌, ◌≢◌, ◌≤◌, ◌+◌, ◌&&◌, ◌||◌, not, true, false};
ghost use Rattle.std.specs.Bool.{Decides};
ghost use Rattle.block_tags.specs.Copies.{permits};
ghost use Rattle.block_spots.specs.Cases.{CacheWaitRo, CacheWaitRw};
ghost use Rattle.block_spots.specs.Notes.{held_home};
ghost use Rattle.block_spots.specs.Sketches.{Layout, Loads, Local, Stores};
ghost use Rattle.coherence_inv.specs.Coherent.{HeldFor, IsWaiting, allows_load, allows_store, own_rd, own_wr};
ghost use Rattle.stache_d_inv.specs.Coherent as words_d;
ghost use Rattle.dsm_runs.specs.declared.mode.Mode.TheVariants as mode;
ghost use Rattle.note_reads.specs.Counts.{IsCount};
ghost use Rattle.coherence_reads.specs.Directories.{HeldUnder};
ghost use Rattle.block_reads.specs.Whose.{rest_in, state_in};
ghost use Rattle.coherence_check.specs.Under.{AtNodeUnder};
ghost use Rattle.coherence_check.specs.Waits.{IsNode};

use coherence_reads::{Count, Whose, both, held_home, is_waiting};
use stache_check::{Directory, Place};
use tw_base::Tag;

/// What is read of a node about a block.
#[derive(Clone, Copy)]
pub struct Node {
    /// It is the block's home.
    pub own: bool,
    pub blocked: bool,
    pub woken: bool,
    pub may: bool,
    /// Its next instruction loads of the block, or stores.
    pub loads: bool,
    pub stores: bool,
    pub place: Place,
    pub tag: Tag,
    /// Its own faults that it deferred.
    pub rd_fault: Count,
    pub wr_fault: Count,
    /// What its continuation serves.
    pub whose: Whose,
}

pub fn implies(first: bool, second: bool) -> bool
    ensures { result ≡ not first || second }
{
    !first || second
}

fn is_wait_ro(place: Place) -> bool
    ensures { Decides result (state_in place ≡ CacheWaitRo) }
{
    matches!(place, Place::CacheWaitRo)
}

fn is_wait_rw(place: Place) -> bool
    ensures { Decides result (state_in place ≡ CacheWaitRw) }
{
    matches!(place, Place::CacheWaitRw)
}

fn is_some(count: Count) -> bool
    ensures { (n : ℕ) → IsCount count n → Decides result (1 ≤ n) }
{
    !matches!(count, Count::Zero)
}

fn held_for_of_stache(place: Place, loads: bool, stores: bool) -> bool
    ensures { (l : Local) (b : ℕ) → Decides loads (l.next ≡ Loads b) → Decides stores (l.next ≡ Stores b) →
        Decides result (HeldFor (state_in place) l.next b) }
{
    match place {
        Place::HomePut => loads || stores,
        _ => stores,
    }
}

fn held_for_of_d(whose: Whose, loads: bool, stores: bool) -> bool
    ensures { (l : Local) (b : ℕ) → Decides loads (l.next ≡ Loads b) → Decides stores (l.next ≡ Stores b) →
        Decides result (words_d.HeldFor (rest_in whose) l.next b) }
{
    match whose {
        Whose::OfLoad => loads,
        _ => stores,
    }
}

/// Whether the home's next instruction is that whose fault it serves.
fn held_for(directory: Directory, x: &Node) -> bool
    ensures { (l : Local) (b : ℕ) → Decides x.now.loads (l.next ≡ Loads b) → Decides x.now.stores (l.next ≡ Stores b) →
        Decides result (HeldUnder directory (state_in x.now.place) (rest_in x.now.whose) l.next b) }
{
    match directory {
        Directory::Stache => held_for_of_stache(x.place, x.loads, x.stores),
        Directory::StacheD => held_for_of_d(x.whose, x.loads, x.stores),
        Directory::StacheL => held_for_of_stache(x.place, x.loads, x.stores),
    }
}

fn loads_at(tag: Tag) -> bool
    ensures { Decides result (permits tag false ≡ true) }
{
    !matches!(tag, Tag::Invalid)
}

fn stores_at(tag: Tag) -> bool
    ensures { Decides result (permits tag true ≡ true) }
{
    matches!(tag, Tag::ReadWrite)
}

/// Blocked, where it waits so.
fn waits(x: &Node, so: bool, next: bool) -> bool
    ensures { result ≡ not so || (x.now.blocked && next) }
{
    implies(so, both(x.blocked, next))
}

fn waits_ro(x: &Node) -> bool
    ensures { (h i b : ℕ) (l : Local) → IsNode x.now h l i b →
        Decides result (i ≢ h → (l.blocks b).state ≡ CacheWaitRo → (l.mode ≡ mode.Blocked b) × (l.next ≡ Loads b)) }
{
    implies(!x.own, waits(x, is_wait_ro(x.place), x.loads))
}

fn waits_rw(x: &Node) -> bool
    ensures { (h i b : ℕ) (l : Local) → IsNode x.now h l i b →
        Decides result (i ≢ h → (l.blocks b).state ≡ CacheWaitRw → (l.mode ≡ mode.Blocked b) × (l.next ≡ Stores b)) }
{
    implies(!x.own, waits(x, is_wait_rw(x.place), x.stores))
}

fn blocked_waits(x: &Node) -> bool
    ensures { (h i b : ℕ) (l : Local) → IsNode x.now h l i b →
        Decides result (i ≢ h → l.mode ≡ mode.Blocked b → IsWaiting (l.blocks b).state) }
{
    implies(!x.own, implies(x.blocked, is_waiting(x.place)))
}

fn own_read(x: &Node) -> bool
    ensures { (h i b : ℕ) (l : Local) → IsNode x.now h l i b →
        Decides result (i ≡ h → 1 ≤ own_rd l i b → (l.mode ≡ mode.Blocked b) × (l.next ≡ Loads b)) }
{
    implies(x.own, waits(x, is_some(x.rd_fault), x.loads))
}

fn own_write(x: &Node) -> bool
    ensures { (h i b : ℕ) (l : Local) → IsNode x.now h l i b →
        Decides result (i ≡ h → 1 ≤ own_wr l i b → (l.mode ≡ mode.Blocked b) × (l.next ≡ Stores b)) }
{
    implies(x.own, waits(x, is_some(x.wr_fault), x.stores))
}

fn own_held(directory: Directory, x: &Node) -> bool
    ensures { (h i b : ℕ) (l : Local) → IsNode x.now h l i b →
        Decides result (i ≡ h → 1 ≤ held_home (l.blocks b).rest →
        (l.mode ≡ mode.Blocked b) × HeldUnder directory (l.blocks b).state (l.blocks b).rest l.next b) }
{
    implies(
        x.own,
        waits(x, is_some(held_home(x.whose)), held_for(directory, x)),
    )
}

fn own_blocked(x: &Node) -> bool
    ensures { (h i b : ℕ) (l : Local) → IsNode x.now h l i b →
        Decides result (i ≡ h → l.mode ≡ mode.Blocked b → own_rd l i b + own_wr l i b + held_home (l.blocks b).rest ≡ 1) }
{
    implies(
        x.own,
        implies(
            x.blocked,
            x.rd_fault
                .plus(x.wr_fault)
                .plus(held_home(x.whose))
                .is_one(),
        ),
    )
}

fn woken_loads(x: &Node) -> bool
    ensures { (h i b : ℕ) (l : Local) → IsNode x.now h l i b →
        Decides result (l.mode ≡ mode.Woken → l.may ≡ true → l.next ≡ Loads b → allows_load (l.blocks b).tag) }
{
    implies(x.woken, implies(x.may, implies(x.loads, loads_at(x.tag))))
}

fn woken_stores(x: &Node) -> bool
    ensures { (h i b : ℕ) (l : Local) → IsNode x.now h l i b →
        Decides result (l.mode ≡ mode.Woken → l.may ≡ true → l.next ≡ Stores b → allows_store (l.blocks b).tag) }
{
    implies(x.woken, implies(x.may, implies(x.stores, stores_at(x.tag))))
}

/// Whether a node waits for the block only where it has asked for it, and completes its access when it is woken.
pub fn node_fits(directory: Directory, x: &Node) -> bool
    ensures { (s : Layout) (i b : ℕ) (l : Local) → IsNode x.now (s.home b) l i b →
        Decides result (AtNodeUnder directory s l i b) }
{
    let woken = both(woken_loads(x), woken_stores(x));
    let held = both(own_held(directory, x), both(own_blocked(x), woken));
    let own = both(own_read(x), both(own_write(x), held));
    both(waits_ro(x), both(waits_rw(x), both(blocked_waits(x), own)))
}
