ghost use Rattle.std.specs.Prelude.{◌≡◌, ◌-◌, ◌^◌, min, not, [], OnOk, IfOk, position};
ghost use Rattle.std.specs.List.{flat_map, fold, list_any};
ghost use Rattle.std.specs.Str.{bytes_eq};
ghost use Rattle.teapot_meaning.specs.Names.{error_names, errors_in, errors_of, noted, number_in, state_errors};

use indexmap::IndexSet;
use std::alloc::Global;
use std::marker::Model;
use teapot_tree::{Do, Handler, Protocol, State, Stmt};
use tw_base::{Listed, Memory, Name};

/// The names of a protocol's errors by their numbers. A name is found in one look.
#[derive(Drop)]
pub struct ErrorNames {
    names: IndexSet<Vec<u8>>,
}

impl Model for ErrorNames {
    ghost use Rattle.std.specs.Prelude.{List, ℕ, map};

    ghost Value = { List (List ℕ) };

    ghost view = { λ e. map (λ name. name.items) e.names.keys };
}

impl ErrorNames {
    /// Each name once, by its first place in the protocol.
    #[tactic(auto, unfolding(crate::specs::Names::error_names))]
    pub fn of(alloc: Global, p: &Protocol) -> Result<Self, Memory>
        ensures { IfOk result (λ names. names ≡ error_names p.now) }
    {
        let all = all_errors(alloc, p.states.items())?;
        numbered(alloc, all.items())
    }

    fn new(alloc: Global) -> Self
        ensures { result ≡ [] }
    {
        ErrorNames {
            names: IndexSet::new(alloc),
        }
    }

    /// The number of a name, 0 where it names no error of the protocol.
    pub fn number(&self, name: &[u8]) -> u32
        ensures { result ≡ number_in self.now name.now }
    {
        match self.place(name) {
            Some(at) => capped(at),
            None => 0,
        }
    }

    fn place(&self, name: &[u8]) -> Option<usize>
        ensures { result ≡ position (λ n. bytes_eq n name.now) self.now }
    {
        self.names.get_index_of(name)
    }

    /// Notes a name, and says whether it is new.
    fn note(&mut self, alloc: Global, name: &[u8]) -> Result<bool, Memory>
        ensures new { IfOk result (λ is_new. is_new ≡ not (list_any (λ n. bytes_eq n name.now) self.old)) }
        ensures noted { OnOk result (self.new ≡ noted self.old name.now) }
    {
        let (_, is_new) = self.names.insert_full(Vec::from_slice(alloc, name)?)?;
        Ok(is_new)
    }
}

/// The names of a protocol's errors, each once, by its first place in the protocol.
#[tactic(auto, unfolding(crate::specs::Names::error_names))]
pub fn error_names(alloc: Global, p: &Protocol) -> Result<Listed<Name>, Memory>
    ensures { IfOk result (λ names. names ≡ error_names p.now) }
{
    let all = all_errors(alloc, p.states.items())?;
    each_once(alloc, all.items())
}

/// The number of a name in the table of errors.
pub fn error_number(names: &[Name], name: &[u8]) -> u32
    ensures { result ≡ number_in names.now name.now }
{
    match place_in(names, name) {
        Some(at) => capped(at),
        None => 0,
    }
}

fn place_in(names: &[Name], name: &[u8]) -> Option<usize>
    ensures { result ≡ position (λ n. bytes_eq n name.now) names.now }
{
    names.iter().position(|n| n.is(name))
}

fn capped(at: usize) -> u32
    ensures { result ≡ min at (2 ^ 32 - 1) }
{
    if at < u32::MAX as usize {
        at as u32
    } else {
        u32::MAX
    }
}

fn numbered(alloc: Global, all: &[Name]) -> Result<ErrorNames, Memory>
    ensures { IfOk result (λ names. names ≡ fold noted [] all.now) }
{
    let mut names = ErrorNames::new(alloc);
    for name in all {
        names.note(alloc, name.bytes())?;
    }
    Ok(names)
}

fn each_once(alloc: Global, all: &[Name]) -> Result<Listed<Name>, Memory>
    ensures { IfOk result (λ names. names ≡ fold noted [] all.now) }
{
    let mut seen = ErrorNames::new(alloc);
    let mut names = Listed::new(alloc);
    for name in all {
        if seen.note(alloc, name.bytes())? {
            names.push(name.copy(alloc)?)?;
        }
    }
    Ok(names)
}

fn all_errors(alloc: Global, states: &[State]) -> Result<Listed<Name>, Memory>
    ensures { IfOk result (λ names. names ≡ flat_map state_errors states.now) }
{
    let mut names = Listed::new(alloc);
    for state in states {
        names.append(handler_errors(alloc, state.handlers.items())?)?;
    }
    Ok(names)
}

fn handler_errors(alloc: Global, handlers: &[Handler]) -> Result<Listed<Name>, Memory>
    ensures { IfOk result (λ names. names ≡ flat_map (λ h. errors_in h.body) handlers.now) }
{
    let mut names = Listed::new(alloc);
    for handler in handlers {
        names.append(errors_in(alloc, handler.body.items())?)?;
    }
    Ok(names)
}

#[cycle(errors)]
fn errors_in(alloc: Global, stmts: &[Stmt]) -> Result<Listed<Name>, Memory>
    ensures { IfOk result (λ names. names ≡ errors_in stmts.now) }
{
    let mut names = Listed::new(alloc);
    for s in stmts {
        names.append(errors_of(alloc, s)?)?;
    }
    Ok(names)
}

#[cycle(errors)]
#[tactic(auto, unfolding(crate::specs::Names::errors_of))]
fn errors_of(alloc: Global, s: &Stmt) -> Result<Listed<Name>, Memory>
    ensures { IfOk result (λ names. names ≡ errors_of s.now) }
{
    match &s.what {
        Do::If(_, first, second) => {
            let mut names = errors_in(alloc, first.items())?;
            match second {
                Some(second) => {
                    names.append(errors_in(alloc, second.items())?)?;
                    Ok(names)
                }
                None => Ok(names),
            }
        }
        Do::ForEach(_, _, body) => errors_in(alloc, body.items()),
        Do::Each(_, _, body) => errors_in(alloc, body.items()),
        Do::Error(name) => {
            let mut names = Listed::new(alloc);
            names.push(name.copy(alloc)?)?;
            Ok(names)
        }
        _ => Ok(Listed::new(alloc)),
    }
}
