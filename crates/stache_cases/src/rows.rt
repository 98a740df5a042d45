ghost use Rattle.std.specs.Prelude.{◌≡◌, slice_get};
ghost use Rattle.std.specs.Option.{option_map};
ghost use Rattle.stache_table.specs.Numbered.{rows};
ghost use Rattle.stache_cases.specs.Rows.{shown};

use tw_base::{Kind, Tag};

/// What a row asks for besides its state and its trigger.
#[derive(Clone, Copy, Debug, PartialEq, Eq)]
pub enum When {
    /// Nothing.
    Always,
    /// There is a sharer that is not the sender.
    Others,
    /// There is no sharer but the sender.
    Alone,
    /// More than one ACK is due.
    More,
    /// The last ACK came, and the home's own store waits.
    LastHome,
    /// The last ACK came, and a GET_RW waits.
    LastRw,
    /// The home's own load or store waits.
    Home,
    /// A GET_RO waits.
    Ro,
    /// A GET_RW waits.
    Rw,
}

/// What a row sends, or does in place of sending.
#[derive(Clone, Copy, Debug, PartialEq, Eq)]
pub enum Does {
    DataRoToSrc,
    DataRwToSrc,
    /// The asker is the node whose request waits.
    DataRoToAsker,
    DataRwToAsker,
    /// The node's own program goes on.
    Wake,
    InvToSharers,
    /// An INV to each sharer that is not the sender.
    InvToOthers,
    RecallToOwner,
    GetRoToHome,
    GetRwToHome,
    AckToSrc,
    PutToSrc,
    /// The message waits until the block is free.
    Defer,
    Nothing,
}

/// A row of the table: in this state, at this message, or at any that has no row of its own (`on` is None), under this
/// condition, a block goes to this state and tag, and this is done.
#[derive(Clone, Copy, Debug, PartialEq, Eq)]
pub struct StacheRow {
    pub state: u8,
    pub on: Option<Kind>,
    pub when: When,
    pub goes: u8,
    pub tag: Tag,
    pub does: Does,
}

const HOME_RW: u8 = 0;

const HOME_RO: u8 = 1;

const HOME_EXCL: u8 = 2;

const HOME_ACKS: u8 = 3;

const HOME_PUT: u8 = 4;

const CACHE_INV: u8 = 5;

const CACHE_RO: u8 = 6;

const CACHE_RW: u8 = 7;

const CACHE_WAIT_RO: u8 = 8;

const CACHE_WAIT_RW: u8 = 9;

const RD_FAULT: Option<Kind> = Some(Kind::RdFault);

const WR_FAULT: Option<Kind> = Some(Kind::WrFault);

const GET_RO: Option<Kind> = Some(Kind::Named(0));

const GET_RW: Option<Kind> = Some(Kind::Named(1));

const DATA_RO: Option<Kind> = Some(Kind::Named(2));

const DATA_RW: Option<Kind> = Some(Kind::Named(3));

const PUT: Option<Kind> = Some(Kind::Named(4));

const INV: Option<Kind> = Some(Kind::Named(5));

const ACK: Option<Kind> = Some(Kind::Named(6));

const RECALL: Option<Kind> = Some(Kind::Named(7));

const OTHER: Option<Kind> = None;

// A row: the state, the trigger and the condition, then the next state, its tag, and what is done.
macro_rules! case {
    ($state:ident $on:ident $when:ident => $goes:ident $tag:ident $does:ident) => {
        StacheRow {
            state: $state,
            on: $on,
            when: When::$when,
            goes: $goes,
            tag: Tag::$tag,
            does: Does::$does,
        }
    };
}

/// The rows, by their numbers.
pub const ROWS: [StacheRow; 27] = [
    case!(HOME_RW GET_RO Always => HOME_RO ReadOnly DataRoToSrc),
    case!(HOME_RW GET_RW Always => HOME_EXCL Invalid DataRwToSrc),
    case!(HOME_RO RD_FAULT Always => HOME_RO ReadOnly Wake),
    case!(HOME_RO WR_FAULT Always => HOME_ACKS ReadOnly InvToSharers),
    case!(HOME_RO GET_RO Always => HOME_RO ReadOnly DataRoToSrc),
    case!(HOME_RO GET_RW Others => HOME_ACKS ReadOnly InvToOthers),
    case!(HOME_RO GET_RW Alone => HOME_EXCL Invalid DataRwToSrc),
    case!(HOME_EXCL RD_FAULT Always => HOME_PUT Invalid RecallToOwner),
    case!(HOME_EXCL WR_FAULT Always => HOME_PUT Invalid RecallToOwner),
    case!(HOME_EXCL GET_RO Always => HOME_PUT Invalid RecallToOwner),
    case!(HOME_EXCL GET_RW Always => HOME_PUT Invalid RecallToOwner),
    case!(HOME_ACKS ACK More => HOME_ACKS ReadOnly Nothing),
    case!(HOME_ACKS ACK LastHome => HOME_RW ReadWrite Wake),
    case!(HOME_ACKS ACK LastRw => HOME_EXCL Invalid DataRwToAsker),
    case!(HOME_ACKS OTHER Always => HOME_ACKS ReadOnly Defer),
    case!(HOME_PUT PUT Home => HOME_RW ReadWrite Wake),
    case!(HOME_PUT PUT Ro => HOME_RO ReadOnly DataRoToAsker),
    case!(HOME_PUT PUT Rw => HOME_EXCL Invalid DataRwToAsker),
    case!(HOME_PUT OTHER Always => HOME_PUT Invalid Defer),
    case!(CACHE_INV RD_FAULT Always => CACHE_WAIT_RO Invalid GetRoToHome),
    case!(CACHE_INV WR_FAULT Always => CACHE_WAIT_RW Invalid GetRwToHome),
    case!(CACHE_RO WR_FAULT Always => CACHE_WAIT_RW Invalid GetRwToHome),
    case!(CACHE_RO INV Always => CACHE_INV Invalid AckToSrc),
    case!(CACHE_RW RECALL Always => CACHE_INV Invalid PutToSrc),
    case!(CACHE_WAIT_RO DATA_RO Always => CACHE_RO ReadOnly Wake),
    case!(CACHE_WAIT_RW DATA_RW Always => CACHE_RW ReadWrite Wake),
    case!(CACHE_WAIT_RW INV Always => CACHE_WAIT_RW Invalid AckToSrc),
];

fn row_in(rows: &[StacheRow], k: usize) -> Option<StacheRow>
    ensures { result ≡ slice_get rows.now k }
{
    rows.get(k).copied()
}

/// The row of this number, None past the last.
pub fn row(k: u8) -> Option<StacheRow>
    ensures { result ≡ option_map shown (slice_get rows k) }
{
    row_in(&ROWS, usize::from(k))
}
