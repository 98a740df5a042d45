ghost use Rattle.std.specs.Prelude.{◌≡◌};
ghost use Rattle.printed_text.specs.Names.{kind_name, message_name, state_name};
ghost use Rattle.stache_tree.specs.Tree.{stache};
ghost use Rattle.stache_cases.specs.Text.{does_text, trigger_text, when_text};

use crate::{Does, When};
use tw_base::Kind;

/// The name of the state of this number, nothing where there is none.
#[tactic(auto, using(crate::proofs::Past::past_states), unfolding(stache_tree::specs::Tree::states))]
pub fn state_text(state: u8) -> &'static str
    ensures { result.now ≡ state_name stache state }
{
    match state {
        0 => "Home_RW",
        1 => "Home_RO",
        2 => "Home_Excl",
        3 => "Home_Acks",
        4 => "Home_Put",
        5 => "Cache_Inv",
        6 => "Cache_RO",
        7 => "Cache_RW",
        8 => "Cache_Wait_RO",
        9 => "Cache_Wait_RW",
        _ => "",
    }
}

/// The name of the message of this number, nothing where there is none.
#[tactic(auto, using(crate::proofs::Past::past_messages))]
fn message_text(number: u8) -> &'static str
    ensures { result.now ≡ message_name stache number }
{
    match number {
        0 => "GET_RO",
        1 => "GET_RW",
        2 => "DATA_RO",
        3 => "DATA_RW",
        4 => "PUT",
        5 => "INV",
        6 => "ACK",
        7 => "RECALL",
        _ => "",
    }
}

fn kind_text(kind: Kind) -> &'static str
    ensures { result.now ≡ kind_name stache kind }
{
    match kind {
        Kind::RdFault => "RD_FAULT",
        Kind::WrFault => "WR_FAULT",
        Kind::Named(number) => message_text(number),
    }
}

/// What a row is for; None stands for any that has no row of its own.
pub fn trigger_text(on: Option<Kind>) -> &'static str
    ensures { result.now ≡ trigger_text on }
{
    match on {
        Some(kind) => kind_text(kind),
        None => "other",
    }
}

pub fn when_text(when: When) -> &'static str
    ensures { result.now ≡ when_text when }
{
    match when {
        When::Always => "always",
        When::Others => "others",
        When::Alone => "alone",
        When::More => "more",
        When::LastHome => "last_home",
        When::LastRw => "last_rw",
        When::Home => "home",
        When::Ro => "ro",
        When::Rw => "rw",
    }
}

pub fn does_text(does: Does) -> &'static str
    ensures { result.now ≡ does_text does }
{
    match does {
        Does::DataRoToSrc => "data_ro_to_src",
        Does::DataRwToSrc => "data_rw_to_src",
        Does::DataRoToAsker => "data_ro_to_asker",
        Does::DataRwToAsker => "data_rw_to_asker",
        Does::Wake => "wake",
        Does::InvToSharers => "inv_to_sharers",
        Does::InvToOthers => "inv_to_others",
        Does::RecallToOwner => "recall_to_owner",
        Does::GetRoToHome => "get_ro_to_home",
        Does::GetRwToHome => "get_rw_to_home",
        Does::AckToSrc => "ack_to_src",
        Does::PutToSrc => "put_to_src",
        Does::Defer => "defer",
        Does::Nothing => "nothing",
    }
}
