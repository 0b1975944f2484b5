//! What the words behind a command's name say.

ghost use Rattle.std.specs.Prelude.{◌≡◌, false, map, IfOk, MatchResult, string_bytes};
ghost use Rattle.clap.specs.Simple.{app_of};
ghost use Rattle.clap.specs.Matches.{found_of};
ghost use Rattle.clap.specs.Values.{kind_of};
ghost use Rattle.command_words.specs.Said.{said, IsSaid, IsRefused};
ghost use Rattle.command_words.specs.Grammar.{grammar, values_or_none, IsMatched, fault_of_kind};

use crate::command::WordsFault;
use clap::error::ErrorKind;
use clap::{Arg, ArgAction, ArgMatches, Command, Error};
use std::alloc::{AllocError, Global};

/// The plain words, and what `--steps` was given, each in order.
#[derive(Debug, Drop)]
pub struct Said<'a> {
    pub plain: Vec<&'a str>,
    pub steps: Vec<&'a str>,
}

/// What the words behind a command's name say. `Usage` comes exactly where one of them is wrong.
pub fn said_by<'a>(alloc: Global, words: &'a [String]) -> Result<Said<'a>, WordsFault>
    ensures { let texts = map string_bytes words.now in
        MatchResult result (IsSaid texts) (IsRefused (said false texts)) }
{
    let matches = matches_of(alloc, words)?;
    Ok(Said {
        plain: texts_of(alloc, &matches, "word")?,
        steps: texts_of(alloc, &matches, "steps")?,
    })
}

/// One simple command: plain words, and `--steps` with a text, each as often as it comes.
fn grammar<'a>(alloc: Global) -> Result<Command<'a>, AllocError>
    ensures { IfOk result (λ command. app_of command ≡ grammar) }
{
    let word = Arg::new(alloc, "word").action(ArgAction::Append);
    let steps = Arg::new(alloc, "steps")
        .long("steps")
        .action(ArgAction::Append);
    Command::new(alloc, "es5c")
        .no_binary_name(true)
        .disable_help_flag(true)
        .disable_version_flag(true)
        .arg(word)?
        .arg(steps)
}

/// What the parser finds.
fn matches_of<'a>(alloc: Global, words: &'a [String]) -> Result<ArgMatches<'a>, WordsFault>
    ensures { let texts = map string_bytes words.now in
        MatchResult result (IsMatched texts) (IsRefused (said false texts)) }
{
    let command = grammar(alloc)?;
    match command.try_get_matches_from(words) {
        Ok(matches) => Ok(matches),
        Err(error) => Err(fault_of(&error)),
    }
}

fn fault_of(error: &Error) -> WordsFault
    ensures { result ≡ fault_of_kind (kind_of error.now) }
{
    match error.kind() {
        ErrorKind::OutOfMemory => WordsFault::OutOfMemory,
        _ => WordsFault::Usage,
    }
}

/// The texts that an argument was given.
fn texts_of<'a>(
    alloc: Global,
    matches: &ArgMatches<'a>,
    id: &str,
) -> Result<Vec<&'a str>, AllocError>
    ensures { IfOk result (λ texts. map (λ s. s.now) texts.items ≡ values_or_none (found_of matches.now) id.now) }
{
    match matches.get_raw(id) {
        Some(texts) => Vec::from_slice(alloc, texts),
        None => Ok(Vec::new(alloc)),
    }
}
