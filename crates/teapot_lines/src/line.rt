ghost use Rattle.std.specs.Prelude.{◌≡◌, map};
ghost use Rattle.teapot_lines.specs.Seen.{seen};
ghost use Rattle.teapot_lines.specs.Parts.{Reads};
ghost use Rattle.teapot_lines.specs.Lines.{ended, profile_in, carried_in, cont, read_protocol, read_message, read_info};
ghost use Rattle.teapot_lines.specs.Lines.{read_start, read_state, read_on, read_local, read_if, read_assign, read_send};
ghost use Rattle.teapot_lines.specs.Lines.{read_set_tag, read_set_state, read_suspend, read_resume, read_error, read_for_each};
ghost use Rattle.teapot_lines.specs.Lines.{form_by, form_of};

use crate::cut::Cut;
use crate::form::{Form, Reach, Typed};
use crate::lists::{items, more_items};
use crate::parts::{
    ReadError, answers, bracketed, channel, expr, named, past, tagged, typed, want,
};
use std::alloc::Global;
use teapot_tree::{Keyword, ValType, keyword_of};
use tw_base::{Chan, Listed, Name};
use tw_lex::{Mark, Token, What};

/// Nothing stands behind the form. In line, the form is made where it is wanted, and not moved there.
#[inline(always)]
fn ended(profile: u8, tokens: &[Token], form: Form<Cut>) -> Result<Form<Cut>, ReadError>
    ensures { Reads (λ f. f) result (ended (map (seen profile) tokens.now) form) }
{
    // The profile is named for the contract alone.
    let _ = profile;
    match tokens.split_first() {
        None => Ok(form),
        Some(_) => Err(ReadError::Bad),
    }
}

/// The number of the profile stands in profile 2 alone.
#[tactic(auto, using(crate::proofs::Words::word_is_no_profile))]
fn profile_in(profile: u8, name: Name, tokens: &[Token]) -> Result<Form<Cut>, ReadError>
    ensures { Reads (λ f. f) result (profile_in profile name (map (seen profile) tokens.now)) }
{
    let Some((first, rest)) = tokens.split_first() else {
        return Ok(Form::Protocol(name, 1));
    };
    match &first.what {
        What::Number(number) => {
            if profile == 2 && *number == 2 {
                ended(profile, rest, Form::Protocol(name, 2))
            } else {
                Err(ReadError::Bad)
            }
        }
        What::Word(_) => Err(ReadError::Bad),
        What::Mark(_) => Err(ReadError::Bad),
    }
}

/// What may stand behind the channel of a message.
fn carried_in(
    profile: u8,
    name: Name,
    types: Listed<ValType>,
    chan: Chan,
    tokens: &[Token],
) -> Result<Form<Cut>, ReadError>
    ensures { Reads (λ f. f) result (carried_in name types chan (map (seen profile) tokens.now)) }
{
    let Some((first, rest)) = tokens.split_first() else {
        return Ok(Form::Message(name, types, chan, false));
    };
    match &first.what {
        What::Word(word) => match keyword_of(profile, word.bytes()) {
            Some(Keyword::Data) => ended(profile, rest, Form::Message(name, types, chan, true)),
            _ => Err(ReadError::Bad),
        },
        What::Number(_) => Err(ReadError::Bad),
        What::Mark(_) => Err(ReadError::Bad),
    }
}

/// The end of the line of a state.
fn cont(alloc: Global, profile: u8, tokens: &[Token]) -> Result<(Option<Name>, &[Token]), ReadError>
    ensures { Reads (λ x. (x.0, map (seen profile) x.1.now)) result (cont (map (seen profile) tokens.now)) }
{
    match past(profile, Mark::BraceClose, tokens) {
        Some(rest) => Ok((None, rest)),
        None => {
            let rest = want(profile, Mark::Semicolon, tokens)?;
            let (name, rest) = named(alloc, profile, rest)?;
            let rest = want(profile, Mark::BraceClose, rest)?;
            Ok((Some(name), rest))
        }
    }
}

#[tactic(auto, unfolding(crate::specs::Lines::read_protocol))]
fn read_protocol(alloc: Global, profile: u8, tokens: &[Token]) -> Result<Form<Cut>, ReadError>
    ensures { Reads (λ f. f) result (read_protocol profile (map (seen profile) tokens.now)) }
{
    let (name, rest) = named(alloc, profile, tokens)?;
    profile_in(profile, name, rest)
}

#[tactic(auto, unfolding(crate::specs::Lines::read_message))]
fn read_message(alloc: Global, profile: u8, tokens: &[Token]) -> Result<Form<Cut>, ReadError>
    ensures { Reads (λ f. f) result (read_message (map (seen profile) tokens.now)) }
{
    let (name, rest) = named(alloc, profile, tokens)?;
    let rest = want(profile, Mark::Open, rest)?;
    let (args, rest) = items::<ValType>(alloc, profile, rest)?;
    let rest = want(profile, Mark::Close, rest)?;
    let (chan, rest) = channel(profile, rest)?;
    carried_in(profile, name, args, chan, rest)
}

#[tactic(auto, unfolding(crate::specs::Lines::read_info))]
fn read_info(alloc: Global, profile: u8, tokens: &[Token]) -> Result<Form<Cut>, ReadError>
    ensures { Reads (λ f. f) result (read_info (map (seen profile) tokens.now)) }
{
    let (name, rest) = named(alloc, profile, tokens)?;
    let (ty, rest) = typed(profile, rest)?;
    ended(profile, rest, Form::Info(name, ty))
}

#[tactic(auto, unfolding(crate::specs::Lines::read_start))]
fn read_start(
    alloc: Global,
    profile: u8,
    home: bool,
    tokens: &[Token],
) -> Result<Form<Cut>, ReadError>
    ensures { Reads (λ f. f) result (read_start home (map (seen profile) tokens.now)) }
{
    let (name, rest) = named(alloc, profile, tokens)?;
    let (tag, rest) = tagged(profile, rest)?;
    ended(profile, rest, Form::Start(home, name, tag))
}

#[tactic(auto, unfolding(crate::specs::Lines::read_state))]
fn read_state(alloc: Global, profile: u8, tokens: &[Token]) -> Result<Form<Cut>, ReadError>
    ensures { Reads (λ f. f) result (read_state (map (seen profile) tokens.now)) }
{
    let (name, rest) = named(alloc, profile, tokens)?;
    let rest = want(profile, Mark::BraceOpen, rest)?;
    let (args, rest) = items::<Typed>(alloc, profile, rest)?;
    let (cont, rest) = cont(alloc, profile, rest)?;
    ended(profile, rest, Form::State(name, args, cont))
}

#[tactic(auto, unfolding(crate::specs::Lines::read_on))]
fn read_on(alloc: Global, profile: u8, tokens: &[Token]) -> Result<Form<Cut>, ReadError>
    ensures { Reads (λ f. f) result (read_on (map (seen profile) tokens.now)) }
{
    let (answered, rest) = answers(alloc, profile, tokens)?;
    let rest = want(profile, Mark::Open, rest)?;
    let (args, rest) = items::<Name>(alloc, profile, rest)?;
    let rest = want(profile, Mark::Close, rest)?;
    ended(profile, rest, Form::On(answered, args))
}

#[tactic(auto, unfolding(crate::specs::Lines::read_local))]
fn read_local(alloc: Global, profile: u8, tokens: &[Token]) -> Result<Form<Cut>, ReadError>
    ensures { Reads (λ f. f) result (read_local (map (seen profile) tokens.now)) }
{
    let (name, rest) = named(alloc, profile, tokens)?;
    let (ty, rest) = typed(profile, rest)?;
    ended(profile, rest, Form::Local(name, ty))
}

#[tactic(auto, unfolding(crate::specs::Lines::read_if))]
fn read_if(alloc: Global, profile: u8, tokens: &[Token]) -> Result<Form<Cut>, ReadError>
    ensures { Reads (λ f. f) result (read_if (map (seen profile) tokens.now)) }
{
    let (test, rest) = expr(alloc, profile, tokens)?;
    ended(profile, rest, Form::If(test))
}

#[tactic(auto, unfolding(crate::specs::Lines::read_assign))]
fn read_assign(
    alloc: Global,
    profile: u8,
    name: Name,
    tokens: &[Token],
) -> Result<Form<Cut>, ReadError>
    ensures { Reads (λ f. f) result (read_assign name (map (seen profile) tokens.now)) }
{
    let rest = want(profile, Mark::Becomes, tokens)?;
    let (value, rest) = expr(alloc, profile, rest)?;
    ended(profile, rest, Form::Assign(name, value))
}

#[tactic(auto, unfolding(crate::specs::Lines::read_send))]
fn read_send(
    alloc: Global,
    profile: u8,
    reach: Reach,
    tokens: &[Token],
) -> Result<Form<Cut>, ReadError>
    ensures { Reads (λ f. f) result (read_send reach (map (seen profile) tokens.now)) }
{
    let rest = want(profile, Mark::Open, tokens)?;
    let (to, rest) = expr(alloc, profile, rest)?;
    let rest = want(profile, Mark::Comma, rest)?;
    let (name, rest) = named(alloc, profile, rest)?;
    let (args, rest) = more_items::<Cut>(alloc, profile, Listed::new(alloc), rest)?;
    let rest = want(profile, Mark::Close, rest)?;
    ended(profile, rest, Form::Send(reach, to, name, args))
}

#[tactic(auto, unfolding(crate::specs::Lines::read_set_tag))]
fn read_set_tag(profile: u8, tokens: &[Token]) -> Result<Form<Cut>, ReadError>
    ensures { Reads (λ f. f) result (read_set_tag (map (seen profile) tokens.now)) }
{
    let rest = want(profile, Mark::Open, tokens)?;
    let (tag, rest) = tagged(profile, rest)?;
    let rest = want(profile, Mark::Close, rest)?;
    ended(profile, rest, Form::SetTag(tag))
}

#[tactic(auto, unfolding(crate::specs::Lines::read_set_state))]
fn read_set_state(alloc: Global, profile: u8, tokens: &[Token]) -> Result<Form<Cut>, ReadError>
    ensures { Reads (λ f. f) result (read_set_state (map (seen profile) tokens.now)) }
{
    let rest = want(profile, Mark::Open, tokens)?;
    let (name, rest) = named(alloc, profile, rest)?;
    let rest = want(profile, Mark::BraceOpen, rest)?;
    let (args, rest) = items::<Cut>(alloc, profile, rest)?;
    let rest = want(profile, Mark::BraceClose, rest)?;
    let rest = want(profile, Mark::Close, rest)?;
    ended(profile, rest, Form::SetState(name, args))
}

#[tactic(auto, unfolding(crate::specs::Lines::read_suspend))]
fn read_suspend(alloc: Global, profile: u8, tokens: &[Token]) -> Result<Form<Cut>, ReadError>
    ensures { Reads (λ f. f) result (read_suspend (map (seen profile) tokens.now)) }
{
    let rest = want(profile, Mark::Open, tokens)?;
    let (label, rest) = named(alloc, profile, rest)?;
    let rest = want(profile, Mark::Comma, rest)?;
    let (name, rest) = named(alloc, profile, rest)?;
    let rest = want(profile, Mark::BraceOpen, rest)?;
    let (args, rest) = items::<Cut>(alloc, profile, rest)?;
    let rest = want(profile, Mark::Semicolon, rest)?;
    let (passed, rest) = named(alloc, profile, rest)?;
    let rest = want(profile, Mark::BraceClose, rest)?;
    let rest = want(profile, Mark::Close, rest)?;
    ended(profile, rest, Form::Suspend(label, name, args, passed))
}

#[tactic(auto, unfolding(crate::specs::Lines::read_resume))]
fn read_resume(alloc: Global, profile: u8, tokens: &[Token]) -> Result<Form<Cut>, ReadError>
    ensures { Reads (λ f. f) result (read_resume (map (seen profile) tokens.now)) }
{
    let (name, rest) = bracketed(alloc, profile, tokens)?;
    ended(profile, rest, Form::Resume(name))
}

#[tactic(auto, unfolding(crate::specs::Lines::read_error))]
fn read_error(alloc: Global, profile: u8, tokens: &[Token]) -> Result<Form<Cut>, ReadError>
    ensures { Reads (λ f. f) result (read_error (map (seen profile) tokens.now)) }
{
    let (name, rest) = bracketed(alloc, profile, tokens)?;
    ended(profile, rest, Form::Error(name))
}

#[tactic(auto, unfolding(crate::specs::Lines::read_for_each))]
fn read_for_each(alloc: Global, profile: u8, tokens: &[Token]) -> Result<Form<Cut>, ReadError>
    ensures { Reads (λ f. f) result (read_for_each (map (seen profile) tokens.now)) }
{
    let (name, rest) = named(alloc, profile, tokens)?;
    let (set, rest) = expr(alloc, profile, rest)?;
    ended(profile, rest, Form::ForEach(name, set))
}

fn form_by(
    alloc: Global,
    profile: u8,
    key: Keyword,
    tokens: &[Token],
) -> Result<Form<Cut>, ReadError>
    ensures { Reads (λ f. f) result (form_by profile key (map (seen profile) tokens.now)) }
{
    match key {
        Keyword::Protocol => read_protocol(alloc, profile, tokens),
        Keyword::Message => read_message(alloc, profile, tokens),
        Keyword::Info => read_info(alloc, profile, tokens),
        Keyword::HomeStart => read_start(alloc, profile, true, tokens),
        Keyword::CacheStart => read_start(alloc, profile, false, tokens),
        Keyword::State => read_state(alloc, profile, tokens),
        Keyword::On => read_on(alloc, profile, tokens),
        Keyword::Default => ended(profile, tokens, Form::Default),
        Keyword::Local => read_local(alloc, profile, tokens),
        Keyword::Begin => ended(profile, tokens, Form::Begin),
        Keyword::End => ended(profile, tokens, Form::End),
        Keyword::If => read_if(alloc, profile, tokens),
        Keyword::Else => ended(profile, tokens, Form::Else),
        Keyword::Send => read_send(alloc, profile, Reach::One, tokens),
        Keyword::SendAll => read_send(alloc, profile, Reach::All, tokens),
        Keyword::SetTag => read_set_tag(profile, tokens),
        Keyword::SetState => read_set_state(alloc, profile, tokens),
        Keyword::Suspend => read_suspend(alloc, profile, tokens),
        Keyword::Resume => read_resume(alloc, profile, tokens),
        Keyword::Error => read_error(alloc, profile, tokens),
        Keyword::Install => ended(profile, tokens, Form::Install),
        Keyword::Enqueue => ended(profile, tokens, Form::Enqueue),
        Keyword::WakeUp => ended(profile, tokens, Form::WakeUp),
        Keyword::ForEach => read_for_each(alloc, profile, tokens),
        _ => Err(ReadError::Bad),
    }
}

/// The form of a line, at a profile of the language. Bad where it is of none.
pub fn form_of(alloc: Global, profile: u8, tokens: &[Token]) -> Result<Form<Cut>, ReadError>
    ensures { Reads (λ f. f) result (form_of profile (map (seen profile) tokens.now)) }
{
    match tokens.split_first() {
        Some((first, rest)) => match &first.what {
            What::Word(name) => match keyword_of(profile, name.bytes()) {
                Some(key) => form_by(alloc, profile, key, rest),
                None => read_assign(alloc, profile, name.copy(alloc)?, rest),
            },
            What::Number(_) => Err(ReadError::Bad),
            What::Mark(_) => Err(ReadError::Bad),
        },
        None => Err(ReadError::Bad),
    }
}
