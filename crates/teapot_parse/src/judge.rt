ghost use Rattle.std.specs.Prelude.{◌≡◌, IfOk};
ghost use Rattle.std.specs.Option.{option_map};
ghost use Rattle.teapot_parse.specs.Nesting.{kind_of, kinds, declared, body_next, closed_by, next_of, is_end, judged};

use crate::placed::Placed;
use std::alloc::Global;
use teapot_lines::{Cut, Form};
use tw_base::{Memory, Stack};

/// What a line is for the nesting.
#[derive(Clone, Copy)]
pub enum Kind {
    Protocol,
    Message,
    Info,
    Start,
    State,
    Handler,
    Local,
    Begin,
    End,
    If,
    Else,
    ForEach,
    Plain,
}

/// A block of statements that is open.
#[derive(Clone, Copy)]
pub enum Block {
    /// The first one of an `If`.
    First,
    Other,
}

/// What may stand next.
#[derive(Clone, Copy)]
pub enum Place {
    Start,
    Messages,
    Infos,
    Starts,
    States,
    StateBegin,
    Handlers,
    HandlerBegin,
    Locals,
    Body,
    BlockBegin,
    AfterIf,
}

#[derive(Clone, Copy)]
pub enum Judged {
    Nested,
    /// The first line that no well nested list has at this place.
    Bad(usize),
    /// Something is missing at the end.
    Missing,
}

pub fn kind_of(form: &Form<Cut>) -> Kind
    ensures { result ≡ kind_of form.now }
{
    match form {
        Form::Protocol(_, _) => Kind::Protocol,
        Form::Message(_, _, _, _) => Kind::Message,
        Form::Info(_, _) => Kind::Info,
        Form::Start(_, _, _) => Kind::Start,
        Form::State(_, _, _) => Kind::State,
        Form::On(_, _) => Kind::Handler,
        Form::Default => Kind::Handler,
        Form::Local(_, _) => Kind::Local,
        Form::Begin => Kind::Begin,
        Form::End => Kind::End,
        Form::If(_) => Kind::If,
        Form::Else => Kind::Else,
        Form::ForEach(_, _) => Kind::ForEach,
        _ => Kind::Plain,
    }
}

fn closed_by(blocks: &mut Stack<Block>) -> Place
    ensures { (blocks.new, result) ≡ closed_by blocks.old }
{
    match blocks.pop() {
        None => Place::Handlers,
        Some(Block::First) => Place::AfterIf,
        Some(Block::Other) => Place::Body,
    }
}

fn body_next(blocks: &mut Stack<Block>, kind: Kind) -> Result<Option<Place>, Memory>
    ensures { IfOk result (λ r. option_map (λ p. (blocks.new, p)) r ≡ body_next blocks.old kind) }
{
    match kind {
        Kind::Plain => Ok(Some(Place::Body)),
        Kind::If => {
            blocks.push(Block::First)?;
            Ok(Some(Place::BlockBegin))
        }
        Kind::ForEach => {
            blocks.push(Block::Other)?;
            Ok(Some(Place::BlockBegin))
        }
        Kind::End => Ok(Some(closed_by(blocks))),
        _ => Ok(None),
    }
}

// Declarations stand in the order of their kinds.
fn declared(place: Place, kind: Kind) -> Option<Place>
    ensures { result ≡ declared place kind }
{
    match place {
        Place::Start => match kind {
            Kind::Protocol => Some(Place::Messages),
            _ => None,
        },
        Place::Messages => match kind {
            Kind::Message => Some(Place::Messages),
            Kind::Info => Some(Place::Infos),
            Kind::Start => Some(Place::Starts),
            Kind::State => Some(Place::StateBegin),
            _ => None,
        },
        Place::Infos => match kind {
            Kind::Info => Some(Place::Infos),
            Kind::Start => Some(Place::Starts),
            Kind::State => Some(Place::StateBegin),
            _ => None,
        },
        Place::Starts => match kind {
            Kind::Start => Some(Place::Starts),
            Kind::State => Some(Place::StateBegin),
            _ => None,
        },
        Place::States => match kind {
            Kind::State => Some(Place::StateBegin),
            _ => None,
        },
        Place::StateBegin => match kind {
            Kind::Begin => Some(Place::Handlers),
            _ => None,
        },
        Place::Handlers => match kind {
            Kind::Handler => Some(Place::HandlerBegin),
            Kind::End => Some(Place::States),
            _ => None,
        },
        Place::HandlerBegin => match kind {
            Kind::Begin => Some(Place::Locals),
            _ => None,
        },
        _ => None,
    }
}

fn next_of(blocks: &mut Stack<Block>, place: Place, kind: Kind) -> Result<Option<Place>, Memory>
    ensures { IfOk result (λ r. option_map (λ p. (blocks.new, p)) r ≡ next_of blocks.old place kind) }
{
    match place {
        Place::Locals => match kind {
            Kind::Local => Ok(Some(Place::Locals)),
            _ => body_next(blocks, kind),
        },
        Place::Body => body_next(blocks, kind),
        Place::BlockBegin => match kind {
            Kind::Begin => Ok(Some(Place::Body)),
            _ => Ok(None),
        },
        Place::AfterIf => match kind {
            Kind::Else => {
                blocks.push(Block::Other)?;
                Ok(Some(Place::BlockBegin))
            }
            _ => body_next(blocks, kind),
        },
        _ => Ok(declared(place, kind)),
    }
}

fn is_end(place: Place) -> bool
    ensures { result ≡ is_end place }
{
    match place {
        Place::Messages => true,
        Place::Infos => true,
        Place::Starts => true,
        Place::States => true,
        _ => false,
    }
}

/// Whether the lines nest, and where not.
pub fn judge(alloc: Global, forms: &[Placed]) -> Result<Judged, Memory>
    ensures { IfOk result (λ r. r ≡ judged (kinds forms.now)) }
{
    let mut blocks = Stack::new(alloc);
    let mut place = Place::Start;
    for (at, placed) in forms.iter().enumerate() {
        place = match next_of(&mut blocks, place, kind_of(&placed.form))? {
            Some(next) => next,
            None => return Ok(Judged::Bad(at)),
        };
    }
    if is_end(place) {
        Ok(Judged::Nested)
    } else {
        Ok(Judged::Missing)
    }
}
