//! Why a script isn't run, and the line that says so.

ghost use Rattle.std.specs.Prelude.{◌≡◌, ◌++◌, IfOk, codes};
ghost use Rattle.std.specs.Fmt.{decimal};
ghost use Rattle.graph_refusals.specs.Lines.{place_text};
ghost use Rattle.run_lines.specs.ScriptFaults.{file_line, finding_text, graph_finding, is_limit, is_limit_there, placed_line, script_line};

use crate::text::{end_line, push_numbered, push_text};
use es_text::Place;
use graph_refusals::{FileFault, PlacedFault, Refusal, push_place};
use shared_text::Name;
use std::alloc::{AllocError, Global};

/// What is wrong with the file of a script.
#[derive(Debug, Drop)]
pub enum ScriptFault {
    /// No file has the path.
    Missing,
    /// The file couldn't be read.
    ReadFailed,
    /// The file is longer than a script may be.
    FileTooLong,
    /// The text isn't UTF-8 from this byte on.
    NotUtf8 {
        at: u32,
    },
    /// Something at this place.
    At {
        place: Place,
        finding: ScriptFinding,
    },
}

/// What is wrong at a place of a script.
#[derive(Debug, Drop)]
pub enum ScriptFinding {
    Lexical,
    Syntax,
    /// More constructs are open than may be.
    TooDeep,
    /// A rule of the table of early errors of scripts.
    Early(u8),
    /// A rule of the table of constructs outside the profile of scripts.
    Outside(u8),
}

impl ScriptFault {
    /// Whether the script is beyond a limit.
    pub fn is_limit(&self) -> bool
        ensures { result ≡ is_limit self.now }
    {
        match self {
            ScriptFault::FileTooLong => true,
            ScriptFault::At { finding, .. } => finding.is_limit(),
            ScriptFault::Missing | ScriptFault::ReadFailed | ScriptFault::NotUtf8 { .. } => false,
        }
    }
}

impl ScriptFinding {
    fn is_limit(&self) -> bool
        ensures { result ≡ is_limit_there self.now }
    {
        matches!(self, ScriptFinding::TooDeep)
    }
}

/// The line of a fault of the script with this path, with places counted from 1.
pub fn script_line(alloc: Global, path: &str, fault: &ScriptFault) -> Result<Vec<u8>, AllocError>
    ensures { IfOk result (λ line. line.items ≡ script_line path.now fault.now) }
{
    match fault {
        ScriptFault::Missing => file_line(alloc, path, FileFault::Missing),
        ScriptFault::ReadFailed => file_line(alloc, path, FileFault::ReadFailed),
        ScriptFault::FileTooLong => file_line(alloc, path, FileFault::FileTooLong),
        ScriptFault::NotUtf8 { at } => file_line(alloc, path, FileFault::NotUtf8 { at: *at }),
        ScriptFault::At { place, finding } => found_line(alloc, path, place, finding),
    }
}

/// The line that a module with this path has for its fault.
fn file_line(alloc: Global, path: &str, fault: FileFault) -> Result<Vec<u8>, AllocError>
    ensures { IfOk result (λ line. line.items ≡ file_line path.now fault) }
{
    let path = Name::of_bytes(alloc, path.as_bytes())?;
    Refusal { path, fault }.line(alloc)
}

/// The line of what is wrong at a place.
fn found_line(
    alloc: Global,
    path: &str,
    place: &Place,
    finding: &ScriptFinding,
) -> Result<Vec<u8>, AllocError>
    ensures { IfOk result (λ line. line.items ≡ placed_line path.now place.now (finding_text finding.now)) }
{
    match finding {
        ScriptFinding::Lexical => lexical_line(alloc, path, place),
        ScriptFinding::Syntax => module_line(alloc, path, place, PlacedFault::Syntax),
        ScriptFinding::TooDeep => module_line(alloc, path, place, PlacedFault::TooDeep),
        ScriptFinding::Early(rule) => numbered_line(alloc, path, place, "early error F", *rule),
        ScriptFinding::Outside(rule) => {
            numbered_line(alloc, path, place, "outside the profile V", *rule)
        }
    }
}

fn lexical_line(alloc: Global, path: &str, place: &Place) -> Result<Vec<u8>, AllocError>
    ensures { IfOk result (λ line. line.items ≡ placed_line path.now place.now (codes "lexical fault")) }
{
    let mut line = line_at(alloc, path, place)?;
    end_line(&mut line, "lexical fault")?;
    Ok(line)
}

fn numbered_line(
    alloc: Global,
    path: &str,
    place: &Place,
    text: &str,
    rule: u8,
) -> Result<Vec<u8>, AllocError>
    ensures { IfOk result (λ line. line.items ≡ placed_line path.now place.now (text.now ++ decimal rule)) }
{
    let mut line = line_at(alloc, path, place)?;
    push_numbered(alloc, &mut line, text, u64::from(rule))?;
    end_line(&mut line, "")?;
    Ok(line)
}

/// A line up to what is wrong at a place.
fn line_at(alloc: Global, path: &str, place: &Place) -> Result<Vec<u8>, AllocError>
    ensures { IfOk result (λ line. line.items ≡ path.now ++ (place_text place.now ++ codes ": ")) }
{
    let mut line = Vec::from_slice(alloc, path.as_bytes())?;
    push_place(alloc, &mut line, place)?;
    push_text(&mut line, ": ")?;
    Ok(line)
}

/// The line that a module has for what is wrong at a place.
fn module_line(
    alloc: Global,
    path: &str,
    place: &Place,
    fault: PlacedFault,
) -> Result<Vec<u8>, AllocError>
    ensures { IfOk result (λ line. line.items ≡ placed_line path.now place.now (graph_finding fault)) }
{
    let place = *place;
    file_line(alloc, path, FileFault::At { place, fault })
}
