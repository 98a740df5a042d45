ghost use Rattle.std.specs.Prelude.{◌≡◌, [], ◌++◌, OnOk};
ghost use Rattle.teapot_lines.specs.Seen.{Key, Named, Number, Marked};
ghost use Rattle.teapot_print.specs.Text.{mark_bytes, is_tight, is_opening, space_if_not, gap};
ghost use Rattle.teapot_print.specs.Printing.{put, begun, ended};

use crate::keywords::spelling_of;
use itoa::Buffer;
use printed_text::Text;
use std::alloc::Global;
use teapot_tree::Keyword;
use tw_base::{Memory, Name};
use tw_lex::Mark;

/// What the space before the next token depends on.
#[derive(Clone, Copy)]
pub enum Last {
    /// The line begins.
    Begin,
    /// Behind `(` or `{`.
    Opening,
    /// Behind a word other than `If`.
    Word,
    Other,
}

/// The text in the making.
#[derive(Drop)]
pub struct Printer {
    pub text: Text,
    pub last: Last,
    /// How many `Begin` are open.
    pub begins: usize,
}

/// The bytes of a mark.
fn mark_bytes(mark: Mark) -> &'static [u8]
    ensures { result.now ≡ mark_bytes mark }
{
    match mark {
        Mark::Open => b"(",
        Mark::Close => b")",
        Mark::BraceOpen => b"{",
        Mark::BraceClose => b"}",
        Mark::Comma => b",",
        Mark::Semicolon => b";",
        Mark::Colon => b":",
        Mark::Becomes => b":=",
        Mark::Plus => b"+",
        Mark::Minus => b"-",
        Mark::Equal => b"=",
        Mark::Unequal => b"<>",
        Mark::Less => b"<",
        Mark::LessEqual => b"<=",
        Mark::Both => b"&",
        Mark::Either => b"|",
    }
}

fn is_tight(mark: Mark) -> bool
    ensures { result ≡ is_tight (Marked mark) }
{
    matches!(
        mark,
        Mark::Close | Mark::BraceClose | Mark::Comma | Mark::Semicolon
    )
}

fn is_opening(mark: Mark) -> bool
    ensures { result ≡ is_opening (Marked mark) }
{
    matches!(mark, Mark::Open | Mark::BraceOpen)
}

impl Printer {
    pub fn new(alloc: Global) -> Self
        ensures { result ≡ record { text = []; last = Last.Begin; begins = 0 } }
    {
        Printer {
            text: Text::new(alloc),
            last: Last::Begin,
            begins: 0,
        }
    }

    // A space, unless there is to be none.
    fn space_if_not(&mut self, tight: bool) -> Result<(), Memory>
        ensures { OnOk result (self.new ≡ record self.old { text = self.old.text ++ space_if_not tight }) }
    {
        if tight { Ok(()) } else { self.text.add(b" ") }
    }

    // The space before a word or number.
    fn space_before_word(&mut self) -> Result<(), Memory>
        ensures { OnOk result (self.new ≡ record self.old { text = self.old.text ++ gap self.old.last (Number 0) }) }
    {
        match self.last {
            Last::Begin => Ok(()),
            Last::Opening => Ok(()),
            Last::Word => self.space_if_not(false),
            Last::Other => self.space_if_not(false),
        }
    }

    pub fn key(&mut self, key: Keyword) -> Result<(), Memory>
        ensures { OnOk result (self.new ≡ put self.old (Key key)) }
    {
        self.space_before_word()?;
        self.text.add(spelling_of(key))?;
        self.last = match key {
            Keyword::If => Last::Other,
            _ => Last::Word,
        };
        Ok(())
    }

    pub fn named(&mut self, name: &Name) -> Result<(), Memory>
        ensures { OnOk result (self.new ≡ put self.old (Named name.now)) }
    {
        self.space_before_word()?;
        self.text.add(name.bytes())?;
        self.last = Last::Word;
        Ok(())
    }

    pub fn number(&mut self, number: u64) -> Result<(), Memory>
        ensures { OnOk result (self.new ≡ put self.old (Number number)) }
    {
        self.space_before_word()?;
        let mut buffer = Buffer::new();
        self.text.add(buffer.format(number).as_bytes())?;
        self.last = Last::Other;
        Ok(())
    }

    pub fn mark(&mut self, mark: Mark) -> Result<(), Memory>
        ensures { OnOk result (self.new ≡ put self.old (Marked mark)) }
    {
        match self.last {
            Last::Begin => {}
            Last::Opening => {}
            Last::Word => self.space_if_not(is_tight(mark) || is_opening(mark))?,
            Last::Other => self.space_if_not(is_tight(mark))?,
        }
        self.text.add(mark_bytes(mark))?;
        self.last = match mark {
            Mark::Open => Last::Opening,
            Mark::BraceOpen => Last::Opening,
            _ => Last::Other,
        };
        Ok(())
    }

    /// Begins a line at which so many `Begin` are open.
    pub fn begin(&mut self, begins: usize) -> Result<(), Memory>
        ensures { OnOk result (self.new ≡ begun self.old begins) }
    {
        'spaces: for _ in 0..begins {
            self.text.add(b"  ")?;
        }
        self.last = Last::Begin;
        Ok(())
    }

    /// Ends a line, behind which so many `Begin` are open.
    pub fn end(&mut self, begins: usize) -> Result<(), Memory>
        ensures { OnOk result (self.new ≡ ended self.old begins) }
    {
        self.text.add(b"\n")?;
        self.begins = begins;
        Ok(())
    }
}
