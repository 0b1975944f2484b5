//! Commands, and the words that they are.

ghost use Rattle.std.specs.Prelude.{◌≡◌, [], map, option_and_then, MatchResult, string_bytes};
ghost use Rattle.command_words.specs.Said.{parts_of, IsRefused};
ghost use Rattle.command_words.specs.Words.{asked, command_of, one_number, one_word, path_and_steps, steps_said, two_paths, ArePathAndSteps, IsAsked, IsPath};
ghost use Rattle.module_paths.specs.Paths.{form_of};

use crate::number::number_of;
use crate::said::{Said, said_by};
use module_paths::{PathFault, normal_form};
use std::alloc::{AllocError, Global};

/// What the program is asked to do. Its paths are in normal form.
#[derive(Debug, Drop)]
pub enum Command {
    /// Write the script of the graph whose entry has this path.
    Build { entry: String },
    /// Write a script for each module of that graph.
    Split { entry: String },
    /// Build after each of the edits that the file `list` has.
    Rebuild { entry: String, list: String },
    /// Run the graph, so many steps at the most.
    Run { entry: String, steps: u64 },
    /// Run a script of the 5.1 edition, so many steps at the most.
    Run5 { script: String, steps: u64 },
    /// Write the source map of a script.
    Map { script: String },
    /// Make, build and check a graph of `n` modules.
    Sample { n: u64 },
}

/// Why words are no command.
#[derive(Clone, Copy, Debug, PartialEq, Eq)]
pub enum WordsFault {
    Usage,
    OutOfMemory,
}

impl From<AllocError> for WordsFault {
    ghost use Rattle.command_words.specs.declared.command.WordsFault.TheVariants.{OutOfMemory};

    ghost from_gives = { λ _ fault. fault ≡ OutOfMemory };

    fn from(_error: AllocError) -> WordsFault {
        WordsFault::OutOfMemory
    }
}

/// The steps of a run whose words don't say how many.
const DEFAULT_STEPS: u64 = 10_000_000;

const MOST_STEPS: u64 = 1_099_511_627_776;

const MOST_MODULES: u64 = 1_000;

/// The command that the words are.
///
/// The first one names it. Of the others, `--steps` takes the next word and `--steps=TEXT` takes TEXT, once at the most, and for `run`
/// and `run5` alone; behind `--` every word is plain, and before it no other word begins with `-` and is longer. There is one plain word,
/// and two for `rebuild`. `Usage` comes exactly where the words aren't so, or a path has no normal form, or a number is out of its range.
pub fn read_words(alloc: Global, words: &[String]) -> Result<Command, WordsFault>
    ensures { let wanted = command_of (map string_bytes words.now) in
        MatchResult result (IsAsked wanted) (IsRefused wanted) }
{
    let [name, rest @ ..] = words else {
        return Err(WordsFault::Usage);
    };
    let said = said_by(alloc, rest)?;
    asked(alloc, name.as_str(), &said)
}

/// The command with this name, by what the words behind it say.
fn asked(alloc: Global, name: &str, said: &Said<'_>) -> Result<Command, WordsFault>
    ensures { let wanted = asked name.now (parts_of said.now) in
        MatchResult result (IsAsked wanted) (IsRefused wanted) }
{
    match name {
        "build" => Ok(Command::Build {
            entry: one_path(alloc, said)?,
        }),
        "split" => Ok(Command::Split {
            entry: one_path(alloc, said)?,
        }),
        "rebuild" => two_paths(alloc, said),
        "run" => {
            let (entry, steps) = path_and_steps(alloc, said)?;
            Ok(Command::Run { entry, steps })
        }
        "run5" => {
            let (script, steps) = path_and_steps(alloc, said)?;
            Ok(Command::Run5 { script, steps })
        }
        "map" => Ok(Command::Map {
            script: one_path(alloc, said)?,
        }),
        "sample" => one_number(said),
        _ => Err(WordsFault::Usage),
    }
}

/// The one word that is said, in the normal form of a path.
fn one_path(alloc: Global, said: &Said<'_>) -> Result<String, WordsFault>
    ensures { let parts = parts_of said.now in let wanted = option_and_then form_of (one_word parts.plain parts.steps) in
        MatchResult result (IsPath wanted) (IsRefused wanted) }
{
    match (said.plain.as_slice(), said.steps.as_slice()) {
        ([path], []) => form_of(alloc, path),
        _ => Err(WordsFault::Usage),
    }
}

/// The entry and the list of edits of `rebuild`.
fn two_paths(alloc: Global, said: &Said<'_>) -> Result<Command, WordsFault>
    ensures { let parts = parts_of said.now in let wanted = two_paths parts.plain parts.steps in
        MatchResult result (IsAsked wanted) (IsRefused wanted) }
{
    match (said.plain.as_slice(), said.steps.as_slice()) {
        ([entry, list], []) => Ok(Command::Rebuild {
            entry: form_of(alloc, entry)?,
            list: form_of(alloc, list)?,
        }),
        _ => Err(WordsFault::Usage),
    }
}

/// A path, and the steps of a run.
#[tactic(auto, using(crate::proofs::Numerals::paired))]
fn path_and_steps(alloc: Global, said: &Said<'_>) -> Result<(String, u64), WordsFault>
    ensures { let wanted = path_and_steps (parts_of said.now) in
        MatchResult result (ArePathAndSteps wanted) (IsRefused wanted) }
{
    let path = path_of(alloc, said.plain.as_slice())?;
    match steps_said(said.steps.as_slice()) {
        Some(steps) => Ok((path, steps)),
        None => Err(WordsFault::Usage),
    }
}

/// The path that the one plain word is.
fn path_of(alloc: Global, plain: &[&str]) -> Result<String, WordsFault>
    ensures { let wanted = option_and_then form_of (one_word (map (λ s. s.now) plain.now) []) in
        MatchResult result (IsPath wanted) (IsRefused wanted) }
{
    match plain {
        [path] => form_of(alloc, path),
        _ => Err(WordsFault::Usage),
    }
}

fn steps_said(texts: &[&str]) -> Option<u64>
    ensures { result ≡ steps_said (map (λ s. s.now) texts.now) }
{
    match texts {
        [] => Some(DEFAULT_STEPS),
        [text] => number_of(text, MOST_STEPS),
        _ => None,
    }
}

/// The number of modules of a sample.
fn one_number(said: &Said<'_>) -> Result<Command, WordsFault>
    ensures { let wanted = one_number (parts_of said.now) in
        MatchResult result (IsAsked wanted) (IsRefused wanted) }
{
    match (said.plain.as_slice(), said.steps.as_slice()) {
        ([text], []) => match number_of(text, MOST_MODULES) {
            Some(n) => Ok(Command::Sample { n }),
            None => Err(WordsFault::Usage),
        },
        _ => Err(WordsFault::Usage),
    }
}

/// The normal form of a path.
fn form_of(alloc: Global, path: &str) -> Result<String, WordsFault>
    ensures { let wanted = form_of path.now in
        MatchResult result (IsPath wanted) (IsRefused wanted) }
{
    match normal_form(alloc, path) {
        Ok(path) => Ok(path),
        Err(PathFault::BadSpecifier) => Err(WordsFault::Usage),
        Err(PathFault::OutOfMemory) => Err(WordsFault::OutOfMemory),
    }
}
