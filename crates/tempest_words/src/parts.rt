ghost use Rattle.std.specs.Prelude.{◌≡◌};
ghost use Rattle.std.specs.Option.{option_copied};
ghost use Rattle.tempest_words.specs.Words.{asked_by, batch_of, command_by, command_of, number_of, numbered_command};
ghost use Rattle.tempest_words.specs.Words.{plain_command, takes_options};

use crate::{Asked, Command};

/// How many events a turn of a thread makes where the words do not say, and the most that they may say.
const DEFAULT_BATCH: u32 = 16;

const MAX_BATCH: u32 = 1000;

/// A line of words, parted: the first word that is no option, the second, and the options.
#[derive(Clone, Copy)]
pub struct Parts<'a> {
    pub command: Option<&'a str>,
    pub number: Option<&'a str>,
    pub journal: bool,
    pub counts: bool,
    pub meaning: bool,
    pub batch: Option<&'a str>,
}

/// One or more digits, of a value below 2^32.
fn number_of(word: &[u8]) -> Option<u32>
    ensures { result ≡ number_of word.now }
{
    if word.is_empty() {
        return None;
    }
    u32::try_from(tw_lex::number_of(word)?).ok()
}

/// The batch that is given, where it is in its range, or the default.
fn batch_of(word: Option<&str>) -> Option<u32>
    ensures { result ≡ batch_of (option_copied word.entry) }
{
    let Some(word) = word else {
        return Some(DEFAULT_BATCH);
    };
    let batch = number_of(word.as_bytes())?;
    if 1 <= batch && batch <= MAX_BATCH {
        Some(batch)
    } else {
        None
    }
}

/// A command that takes no number.
fn plain_command(word: &str) -> Option<Command>
    ensures { result ≡ plain_command word.now }
{
    if word == "run" {
        Some(Command::Run)
    } else if word == "check" {
        Some(Command::Check)
    } else if word == "code" {
        Some(Command::Code)
    } else if word == "show" {
        Some(Command::Show)
    } else if word == "table" {
        Some(Command::Table)
    } else if word == "audit" {
        Some(Command::Audit)
    } else {
        None
    }
}

/// A command that takes a number.
fn numbered_command(word: &str, number: u32) -> Option<Command>
    ensures { result ≡ numbered_command word.now number }
{
    if word == "serial" {
        Some(Command::Serial(number))
    } else if word == "sample" {
        Some(Command::Sample(number))
    } else if word == "replay" {
        Some(Command::Replay(number))
    } else {
        None
    }
}

fn command_by(word: &str, number: Option<&str>) -> Option<Command>
    ensures { result ≡ command_by word.now (option_copied number.entry) }
{
    match number {
        None => plain_command(word),
        Some(number) => numbered_command(word, number_of(number.as_bytes())?),
    }
}

impl Parts<'_> {
    ghost use Rattle.tempest_words.specs.Parts.{line_in};

    fn command(&self) -> Option<Command>
        ensures { result ≡ command_of (line_in self.now) }
    {
        command_by(self.command?, self.number)
    }

    /// Whether the options are some that the command takes.
    fn suits(&self, command: Command) -> bool
        ensures { result ≡ takes_options command (line_in self.now) }
    {
        let reports = self.journal || self.counts || self.meaning;
        match command {
            Command::Run => !self.meaning,
            Command::Serial(_) => self.batch.is_none() && !(self.counts && self.meaning),
            Command::Sample(_) => !reports,
            Command::Check | Command::Code | Command::Show | Command::Table => {
                self.batch.is_none() && !reports
            }
            Command::Audit | Command::Replay(_) => self.batch.is_none() && !reports,
        }
    }

    /// What the words ask for, if they are a command.
    pub fn asked(&self) -> Option<Asked>
        ensures { result ≡ asked_by (line_in self.now) }
    {
        let command = self.command()?;
        let batch = batch_of(self.batch)?;
        if !self.suits(command) {
            return None;
        }
        Some(Asked {
            command,
            journal: self.journal,
            counts: self.counts,
            meaning: self.meaning,
            batch,
        })
    }
}
