ghost use Rattle.std.specs.Prelude.{◌≡◌, [], map};
ghost use Rattle.std.specs.Option.{option_map};
ghost use Rattle.printed_lines.specs.Saying.{meant, past, same_what, says};
ghost use Rattle.printed_lines.specs.Tokens.{whats};

use tw_lex::{Token, What};

/// A word or a number of a line.
#[derive(Clone, Copy)]
pub enum Said<'a> {
    Word(&'a [u8]),
    Number(u64),
}

fn same_what(said: Said, what: &What) -> bool
    ensures { result ≡ same_what (meant said.entry) what.now }
{
    match (said, what) {
        (Said::Word(due), What::Word(word)) => word.bytes() == due,
        (Said::Number(due), What::Number(number)) => *number == due,
        _ => false,
    }
}

/// What stands behind these words and numbers, None where they do not stand at the front.
pub fn past<'a>(said: &[Said], tokens: &'a [Token]) -> Option<&'a [Token]>
    ensures { option_map (λ rest. whats rest.now) result ≡ past (map meant said.now) (whats tokens.now) }
{
    if said.len() > tokens.len() {
        return None;
    }
    for (at, due) in said.iter().enumerate() {
        if !same_what(*due, &tokens[at].what) {
            return None;
        }
    }
    Some(tokens.split_at(said.len()).1)
}

/// Whether a line says nothing more.
#[tactic(auto, unfolding(crate::specs::Saying::says))]
pub fn says_nothing(tokens: &[Token]) -> bool
    ensures { result ≡ says [] (whats tokens.now) }
{
    matches!(tokens, [])
}

/// Whether a line says just these words and numbers.
pub fn says(said: &[Said], tokens: &[Token]) -> bool
    ensures { result ≡ says (map meant said.now) (whats tokens.now) }
{
    match past(said, tokens) {
        Some(rest) => says_nothing(rest),
        None => false,
    }
}
