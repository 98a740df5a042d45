ghost use Rattle.std.specs.Prelude.{◌≡◌};
ghost use Rattle.tempest_input.specs.Heads.{head_of, word_head, number_head, shipped_as, words_head, init_head, one_head};
ghost use Rattle.tempest_input.specs.Heads.{two_head, three_head};

use tw_lex::{Token, What};

/// A field of the header.
#[derive(Clone, Copy, Debug, PartialEq, Eq)]
pub enum Field {
    Version,
    Nodes,
    Words,
    Blocks,
    Budget,
}

/// A protocol that the program brings along.
#[derive(Clone, Copy, Debug, PartialEq, Eq)]
pub enum Shipped {
    Stache,
    /// The one in which a recall for a reader leaves the owner a copy.
    StacheD,
    /// The one with a directory of two sharers.
    StacheL,
}

/// What a line outside of the sections says.
#[derive(Clone, Copy, Debug, PartialEq, Eq)]
pub enum Head {
    /// A field of the header and its number.
    Number(Field, u64),
    /// An address, and the word there at the start.
    Init(u64, u64),
    /// The program of a node begins.
    Program(u64),
    /// The protocol begins.
    Protocol,
    Shipped(Shipped),
    /// A section ends.
    End,
    /// A report begins.
    Report,
    /// A line of no such form.
    Other,
}

fn word_head(word: &[u8]) -> Head
    ensures { result ≡ word_head word.now }
{
    if word == b"protocol".as_slice() {
        Head::Protocol
    } else if word == b"end".as_slice() {
        Head::End
    } else if word == b"report".as_slice() {
        Head::Report
    } else {
        Head::Other
    }
}

fn number_head(word: &[u8], number: u64) -> Head
    ensures { result ≡ number_head word.now number }
{
    if word == b"tempest".as_slice() {
        Head::Number(Field::Version, number)
    } else if word == b"nodes".as_slice() {
        Head::Number(Field::Nodes, number)
    } else if word == b"words".as_slice() {
        Head::Number(Field::Words, number)
    } else if word == b"blocks".as_slice() {
        Head::Number(Field::Blocks, number)
    } else if word == b"budget".as_slice() {
        Head::Number(Field::Budget, number)
    } else if word == b"program".as_slice() {
        Head::Program(number)
    } else {
        Head::Other
    }
}

fn shipped_as(name: &[u8]) -> Option<Shipped>
    ensures { result ≡ shipped_as name.now }
{
    if name == b"Stache".as_slice() {
        Some(Shipped::Stache)
    } else if name == b"Stache_D".as_slice() {
        Some(Shipped::StacheD)
    } else if name == b"Stache_L".as_slice() {
        Some(Shipped::StacheL)
    } else {
        None
    }
}

fn words_head(word: &[u8], name: &[u8]) -> Head
    ensures { result ≡ words_head word.now name.now }
{
    if word == b"shipped".as_slice() {
        match shipped_as(name) {
            Some(which) => Head::Shipped(which),
            None => Head::Other,
        }
    } else {
        Head::Other
    }
}

fn init_head(word: &[u8], address: u64, value: u64) -> Head
    ensures { result ≡ init_head word.now address value }
{
    if word == b"init".as_slice() {
        Head::Init(address, value)
    } else {
        Head::Other
    }
}

fn one_head(first: &What) -> Head
    ensures { result ≡ one_head first.now }
{
    match first {
        What::Word(word) => word_head(word.bytes()),
        _ => Head::Other,
    }
}

fn two_head(first: &What, second: &What) -> Head
    ensures { result ≡ two_head first.now second.now }
{
    let What::Word(word) = first else {
        return Head::Other;
    };
    match second {
        What::Word(name) => words_head(word.bytes(), name.bytes()),
        What::Number(number) => number_head(word.bytes(), *number),
        What::Mark(_) => Head::Other,
    }
}

fn three_head(first: &What, second: &What, third: &What) -> Head
    ensures { result ≡ three_head first.now second.now third.now }
{
    let What::Word(word) = first else {
        return Head::Other;
    };
    let What::Number(address) = second else {
        return Head::Other;
    };
    match third {
        What::Number(value) => init_head(word.bytes(), *address, *value),
        _ => Head::Other,
    }
}

/// What the tokens of a line say.
#[tactic(auto, unfolding(crate::specs::Heads::head_of))]
pub fn head_of(tokens: &[Token]) -> Head
    ensures { result ≡ head_of tokens.now }
{
    match tokens {
        [first] => one_head(&first.what),
        [first, second] => two_head(&first.what, &second.what),
        [first, second, third] => three_head(&first.what, &second.what, &third.what),
        _ => Head::Other,
    }
}
