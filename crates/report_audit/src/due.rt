ghost use Rattle.std.specs.Prelude.{◌≡◌};
ghost use Rattle.report_audit.specs.Lines.{due_tokens, is_due};

use printed_lines::{Said, says};
use tw_lex::Token;

/// A line that a report has to have.
#[derive(Clone, Copy, Debug, PartialEq, Eq)]
pub enum Due {
    Print {
        node: u64,
        value: u64,
    },
    Word {
        address: u64,
        value: u64,
    },
    Register {
        node: u64,
        register: u64,
        value: u64,
    },
}

fn says_due(due: Due, tokens: &[Token]) -> bool
    ensures { result ≡ is_due (Some due) tokens.now }
{
    match due {
        Due::Print { node, value } => {
            let said = [
                Said::Word(b"print"),
                Said::Number(node),
                Said::Number(value),
            ];
            says(&said, tokens)
        }
        Due::Word { address, value } => {
            let said = [
                Said::Word(b"word"),
                Said::Number(address),
                Said::Number(value),
            ];
            says(&said, tokens)
        }
        Due::Register {
            node,
            register,
            value,
        } => {
            let said = [
                Said::Word(b"register"),
                Said::Number(node),
                Said::Number(register),
                Said::Number(value),
            ];
            says(&said, tokens)
        }
    }
}

/// Whether a line is due, and says so.
pub fn is_due(due: Option<Due>, tokens: &[Token]) -> bool
    ensures { result ≡ is_due due tokens.now }
{
    match due {
        Some(due) => says_due(due, tokens),
        None => false,
    }
}
