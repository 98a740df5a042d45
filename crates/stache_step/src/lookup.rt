ghost use Rattle.std.specs.Prelude.{◌≡◌, ℕ};
ghost use Rattle.block_spots.specs.Cases as cases;
ghost use Rattle.block_reads.specs.Whose.{rest_in, state_in};
ghost use Rattle.stache_table.specs.Numbered.{last_row, put_row, row_at};
ghost use Rattle.stache_step.specs.Steps.{kind_in};

use coherence_reads::{Note, Whose};
use stache_check::Place;

fn home_rw(came: &Note) -> Option<u8>
    ensures { (rest : cases.Rest) (others acks : ℕ) → result ≡ row_at cases.HomeRw (kind_in came.now) rest others acks }
{
    match came {
        Note::GetRo => Some(0),
        Note::GetRw => Some(1),
        _ => None,
    }
}

fn home_ro(came: &Note, others: u32) -> Option<u8>
    ensures { (rest : cases.Rest) (acks : ℕ) → result ≡ row_at cases.HomeRo (kind_in came.now) rest others acks }
{
    match came {
        Note::RdFault => Some(2),
        Note::WrFault => Some(3),
        Note::GetRo => Some(4),
        Note::GetRw if others > 0 => Some(5),
        Note::GetRw => Some(6),
        _ => None,
    }
}

fn home_excl(came: &Note) -> Option<u8>
    ensures { (rest : cases.Rest) (others acks : ℕ) → result ≡ row_at cases.HomeExcl (kind_in came.now) rest others acks }
{
    match came {
        Note::RdFault => Some(7),
        Note::WrFault => Some(8),
        Note::GetRo => Some(9),
        Note::GetRw => Some(10),
        _ => None,
    }
}

// At the last ACK.
fn last_row(whose: Whose) -> Option<u8>
    ensures { result ≡ last_row (rest_in whose) }
{
    match whose {
        Whose::OfHome => Some(12),
        Whose::OfRw(_) => Some(13),
        _ => None,
    }
}

fn home_acks(came: &Note, whose: Whose, acks: u32) -> Option<u8>
    ensures { (others : ℕ) → result ≡ row_at cases.HomeAcks (kind_in came.now) (rest_in whose) others acks }
{
    match came {
        Note::Ack if acks > 1 => Some(11),
        Note::Ack => last_row(whose),
        _ => Some(14),
    }
}

// At the owner's PUT.
fn put_row(whose: Whose) -> Option<u8>
    ensures { result ≡ put_row (rest_in whose) }
{
    match whose {
        Whose::OfHome => Some(15),
        Whose::OfRo(_) => Some(16),
        Whose::OfRw(_) => Some(17),
        _ => None,
    }
}

fn home_put(came: &Note, whose: Whose) -> Option<u8>
    ensures { (others acks : ℕ) → result ≡ row_at cases.HomePut (kind_in came.now) (rest_in whose) others acks }
{
    match came {
        Note::Put(_) => put_row(whose),
        _ => Some(18),
    }
}

fn cache_inv(came: &Note) -> Option<u8>
    ensures { (rest : cases.Rest) (others acks : ℕ) → result ≡ row_at cases.CacheInv (kind_in came.now) rest others acks }
{
    match came {
        Note::RdFault => Some(19),
        Note::WrFault => Some(20),
        _ => None,
    }
}

fn cache_ro(came: &Note) -> Option<u8>
    ensures { (rest : cases.Rest) (others acks : ℕ) → result ≡ row_at cases.CacheRo (kind_in came.now) rest others acks }
{
    match came {
        Note::WrFault => Some(21),
        Note::Inv => Some(22),
        _ => None,
    }
}

fn cache_rw(came: &Note) -> Option<u8>
    ensures { (rest : cases.Rest) (others acks : ℕ) → result ≡ row_at cases.CacheRw (kind_in came.now) rest others acks }
{
    match came {
        Note::Recall => Some(23),
        _ => None,
    }
}

fn cache_wait_ro(came: &Note) -> Option<u8>
    ensures { (rest : cases.Rest) (others acks : ℕ) → result ≡ row_at cases.CacheWaitRo (kind_in came.now) rest others acks }
{
    match came {
        Note::DataRo(_) => Some(24),
        _ => None,
    }
}

fn cache_wait_rw(came: &Note) -> Option<u8>
    ensures { (rest : cases.Rest) (others acks : ℕ) → result ≡ row_at cases.CacheWaitRw (kind_in came.now) rest others acks }
{
    match came {
        Note::DataRw(_) => Some(25),
        Note::Inv => Some(26),
        _ => None,
    }
}

/// The row for what came, in this state with this continuation, this many sharers that are not the sender, and this many
/// ACKs that are due.
pub fn row_number(place: Place, whose: Whose, came: &Note, others: u32, acks: u32) -> Option<u8>
    ensures { result ≡ row_at (state_in place) (kind_in came.now) (rest_in whose) others acks }
{
    match place {
        Place::HomeRw => home_rw(came),
        Place::HomeRo => home_ro(came, others),
        Place::HomeExcl => home_excl(came),
        Place::HomeAcks => home_acks(came, whose, acks),
        Place::HomePut => home_put(came, whose),
        Place::CacheInv => cache_inv(came),
        Place::CacheRo => cache_ro(came),
        Place::CacheRw => cache_rw(came),
        Place::CacheWaitRo => cache_wait_ro(came),
        Place::CacheWaitRw => cache_wait_rw(came),
    }
}
