ghost use Rattle.std.specs.Prelude.{◌≡◌, ◌≢◌, false, map, IfOk};
ghost use Rattle.std.specs.String.{string_bytes};
ghost use Rattle.clap.specs.Matches.{found_of};
ghost use Rattle.clap.specs.Simple.{app_of};
ghost use Rattle.clap.specs.Walk.{rule_of};
ghost use Rattle.tempest_words.specs.Lines.{Line};
ghost use Rattle.tempest_words.specs.Parting.{Holds, bare_app, flag, flags_app, option, positionals_app, tempest_app};
ghost use Rattle.tempest_words.specs.Parts.{IsParted, line_in};

use crate::WordsError;
use crate::parts::Parts;
use clap::error::ErrorKind;
use clap::{Arg, ArgAction, ArgMatches, Command};
use std::alloc::{AllocError, Global};

fn flag<'a>(alloc: Global, name: &'a str) -> Arg<'a>
    ensures rule { rule_of result ≡ flag name.entry.now }
    ensures local { result.global ≡ false }
{
    Arg::new(alloc, name).long(name).action(ArgAction::SetTrue)
}

// All words are arguments, and none of them asks for help.
fn bare<'a>(alloc: Global) -> Command<'a>
    ensures { app_of result ≡ bare_app }
{
    Command::new(alloc, "tempest")
        .no_binary_name(true)
        .disable_help_flag(true)
}

fn with_positionals<'a>(alloc: Global) -> Result<Command<'a>, AllocError>
    ensures { IfOk result (λ c. app_of c ≡ positionals_app) }
{
    bare(alloc)
        .arg(Arg::new(alloc, "command"))?
        .arg(Arg::new(alloc, "number"))
}

fn with_flags<'a>(alloc: Global) -> Result<Command<'a>, AllocError>
    ensures { IfOk result (λ c. app_of c ≡ flags_app) }
{
    with_positionals(alloc)?
        .arg(flag(alloc, "journal"))?
        .arg(flag(alloc, "counts"))?
        .arg(flag(alloc, "meaning"))
}

// The command line: two positionals, three flags, and one option.
fn command_line<'a>(alloc: Global) -> Result<Command<'a>, AllocError>
    ensures { IfOk result (λ c. app_of c ≡ tempest_app) }
{
    with_flags(alloc)?.arg(Arg::new(alloc, "batch").long("batch"))
}

// Anything but want of memory is told of words that are no command.
fn error_of(kind: ErrorKind) -> WordsError
    ensures { result ≡ WordsError.Usage → kind ≢ ErrorKind.OutOfMemory }
{
    if kind == ErrorKind::OutOfMemory {
        WordsError::Memory
    } else {
        WordsError::Usage
    }
}

// The line that the matches hold, if they hold one.
fn parts_of<'a>(matches: &ArgMatches<'a>) -> Parts<'a>
    ensures { (l : Line) → Holds (found_of matches.now) l → line_in result ≡ l }
{
    Parts {
        command: matches.get_str("command"),
        number: matches.get_str("number"),
        journal: matches.get_flag("journal"),
        counts: matches.get_flag("counts"),
        meaning: matches.get_flag("meaning"),
        batch: matches.get_str("batch"),
    }
}

/// The parts of the words.
pub fn parted(alloc: Global, words: &[String]) -> Result<Parts<'_>, WordsError>
    ensures { IsParted (map string_bytes words.now) result }
{
    let command = command_line(alloc)?;
    match command.try_get_matches_from(words) {
        Ok(matches) => Ok(parts_of(&matches)),
        Err(error) => Err(error_of(error.kind())),
    }
}
