//! The script of a file.

ghost use Rattle.std.specs.Prelude.{◌≡◌, ◌≤◌, length, IsUtf8, IfOk, IfErr, MatchResult};
ghost use Rattle.std.specs.Str.{chars};
ghost use Rattle.es5_text.specs.Read.{IsAccepted, IsRefused};
ghost use Rattle.script_runs.specs.Scripts.{AreScript, Cause, IsPlacedIn, IsScriptAt, IsUnread, finding_of};

use crate::placing::place_in;
use crate::unread::Unread;
use es_outside::{FileAnswer, Files};
use es_text::{Lines, TextFault};
use es5_ast::Script;
use es5_text::{Fault5, parse5};
use run_lines::{ScriptFault, ScriptFinding};
use std::alloc::Global;

/// The most bytes of a script.
const MOST_BYTES: u32 = 67_108_864;

/// A script that was read, and the lines of its text.
#[derive(Drop)]
pub struct ReadScript {
    pub script: Script,
    pub lines: Lines,
}

/// The script that stands in the file with this path, which is read up to one byte past the limit.
pub fn read_script<F: Files>(alloc: Global, path: &str, files: &mut F) -> Result<ReadScript, Unread>
    ensures read { MatchResult result
        (λ read. IsScriptAt (F.files files.old) path.now read.script read.lines)
        (Cause (F.files files.old) path.now (F.faults files.old) (F.faults files.new)) }
    ensures kept { F.files files.new ≡ F.files files.old }
    ensures no_fall { F.faults files.old ≤ F.faults files.new }
{
    match files.read(alloc, path, MOST_BYTES) {
        FileAnswer::Found(bytes) => script_of(alloc, bytes.as_slice()),
        FileAnswer::Missing => Err(Unread::Refused(ScriptFault::Missing)),
        FileAnswer::Failed => Err(Unread::Refused(ScriptFault::ReadFailed)),
        FileAnswer::OutOfMemory => Err(Unread::OutOfMemory),
    }
}

/// The script that these bytes are.
pub fn script_of(alloc: Global, bytes: &[u8]) -> Result<ReadScript, Unread>
    ensures { MatchResult result
        (λ read. AreScript bytes.now read.script × (read.lines ≡ chars bytes.now))
        (IsUnread bytes.now) }
{
    if bytes.len() > MOST_BYTES as usize {
        return Err(Unread::Refused(ScriptFault::FileTooLong));
    }
    let lines = lines_of(alloc, bytes)?;
    let script = parsed(alloc, bytes, &lines)?;
    Ok(ReadScript { script, lines })
}

/// The lines of a text.
fn lines_of(alloc: Global, bytes: &[u8]) -> Result<Lines, Unread>
    requires { length bytes.now ≤ 67108864 }
    ensures { MatchResult result
        (λ lines. (lines ≡ chars bytes.now) × IsUtf8 bytes.now)
        (IsUnread bytes.now) }
{
    match Lines::of(alloc, bytes) {
        Ok(lines) => Ok(lines),
        Err(TextFault::NotUtf8 { at }) => Err(Unread::Refused(ScriptFault::NotUtf8 { at })),
        Err(TextFault::OutOfMemory) => Err(Unread::OutOfMemory),
    }
}

/// The script of a text with these lines.
fn parsed(alloc: Global, bytes: &[u8], lines: &Lines) -> Result<Script, Unread>
    requires within { length bytes.now ≤ 67108864 }
    requires utf8 { IsUtf8 bytes.now }
    requires lines { lines.now ≡ chars bytes.now }
    ensures { MatchResult result (IsAccepted bytes.now) (IsUnread bytes.now) }
{
    match parse5(alloc, bytes) {
        Ok(script) => Ok(script),
        Err(fault) => Err(unparsed(lines, fault)),
    }
}

/// A fault of the parser, at its place.
fn unparsed(lines: &Lines, fault: Fault5) -> Unread
    ensures { IsPlacedIn lines.now fault result }
{
    match finding_of(fault) {
        None => Unread::OutOfMemory,
        Some((finding, at)) => Unread::Refused(ScriptFault::At {
            place: place_in(lines, at),
            finding,
        }),
    }
}

/// What the parser's fault is, and its offset in bytes. Want of memory is nothing.
fn finding_of(fault: Fault5) -> Option<(ScriptFinding, u32)>
    ensures { result ≡ finding_of fault }
{
    match fault {
        Fault5::Lexical5 { at } => Some((ScriptFinding::Lexical, at)),
        Fault5::Syntax5 { at } => Some((ScriptFinding::Syntax, at)),
        Fault5::Early5 { rule, at } => Some((ScriptFinding::Early(rule), at)),
        Fault5::Outside5 { rule, at } => Some((ScriptFinding::Outside(rule), at)),
        Fault5::Depth5 { at } => Some((ScriptFinding::TooDeep, at)),
        Fault5::OutOfMemory => None,
    }
}
