//! The faults of a command's input, and their lines.

ghost use Rattle.std.specs.Prelude.{◌≡◌, [], ◌∷◌, ◌++◌, IfOk, OnOk};
ghost use Rattle.std.specs.Fmt.{decimal};
ghost use Rattle.commands.specs.Lines.{line_of, status_of, edits_status_of, graph_status_of, map_fault_line, script_status_of};

use crate::status::Status;
use edit_reading::{EditsFault, Unread, edits_line};
use graph_refusals::{FileFault, GraphFault, Refusal};
use run_lines::{ScriptFault, script_line};
use source_map::MapFault;
use std::alloc::{AllocError, Global};

/// Why a command is refused.
#[derive(Debug, Drop)]
pub enum Fault {
    /// No file has the path of the script.
    Missing,
    /// The script couldn't be read.
    ReadFailed,
    /// The script is longer than one may be.
    FileTooLong,
    /// The graph of the entry has this fault.
    InGraph(Refusal),
    /// The script isn't run for this.
    InScript(ScriptFault),
    /// The edits of the list aren't done for this.
    InEdits(EditsFault),
    /// The script holds no map.
    BadMap(MapFault),
    /// A graph and its script had other events.
    Unlike,
}

/// Why a command makes no text.
#[derive(Debug, Drop)]
pub enum CommandFault {
    Refused(Fault),
    OutOfMemory,
}

impl From<AllocError> for CommandFault {
    ghost use Rattle.commands.specs.declared.fault.CommandFault.TheVariants.{OutOfMemory};

    ghost from_gives = { λ _ fault. fault ≡ OutOfMemory };

    fn from(_error: AllocError) -> CommandFault {
        CommandFault::OutOfMemory
    }
}

impl From<MapFault> for CommandFault {
    ghost use Rattle.commands.specs.Parts.{map_fault_of};

    ghost from_gives = { λ error fault. fault ≡ map_fault_of error };

    fn from(error: MapFault) -> CommandFault {
        match error {
            MapFault::OutOfMemory => CommandFault::OutOfMemory,
            fault => CommandFault::Refused(Fault::BadMap(fault)),
        }
    }
}

impl From<GraphFault> for CommandFault {
    ghost use Rattle.commands.specs.Parts.{graph_fault_of};

    ghost from_gives = { λ error fault. fault ≡ graph_fault_of error };

    fn from(error: GraphFault) -> CommandFault {
        match error {
            GraphFault::OutOfMemory => CommandFault::OutOfMemory,
            GraphFault::Refused(refusal) => CommandFault::Refused(Fault::InGraph(refusal)),
        }
    }
}

impl From<Unread> for CommandFault {
    ghost use Rattle.commands.specs.Parts.{edits_fault_of};

    ghost from_gives = { λ error fault. fault ≡ edits_fault_of error };

    fn from(error: Unread) -> CommandFault {
        match error {
            Unread::OutOfMemory => CommandFault::OutOfMemory,
            Unread::Refused(fault) => CommandFault::Refused(Fault::InEdits(fault)),
        }
    }
}

impl Fault {
    pub fn status(&self) -> Status
        ensures { result ≡ status_of self.now }
    {
        match self {
            Fault::Missing | Fault::BadMap(_) | Fault::Unlike => Status::Refused,
            Fault::ReadFailed => Status::ReadFault,
            Fault::FileTooLong => Status::Limit,
            Fault::InGraph(refusal) => graph_status(&refusal.fault),
            Fault::InScript(fault) => script_status(fault),
            Fault::InEdits(fault) => edits_status(fault),
        }
    }

    /// The line that names the fault of the file with this path, or of a command, with places counted from 1.
    pub fn line(&self, alloc: Global, path: &str) -> Result<Vec<u8>, AllocError>
        ensures { IfOk result (λ line. line.items ≡ line_of path.now self.now) }
    {
        match self {
            Fault::Missing => line_about_file(alloc, path, ": missing\n"),
            Fault::ReadFailed => line_about_file(alloc, path, ": read fault\n"),
            Fault::FileTooLong => line_about_file(alloc, path, ": file too long\n"),
            Fault::InGraph(refusal) => refusal.line(alloc),
            Fault::InScript(fault) => script_line(alloc, path, fault),
            Fault::InEdits(fault) => edits_line(alloc, path, fault),
            Fault::BadMap(fault) => line_about_map(alloc, path, fault),
            Fault::Unlike => line_about_file(alloc, path, ": events differ\n"),
        }
    }
}

/// The status of a fault of a graph.
fn graph_status(fault: &FileFault) -> Status
    ensures { result ≡ graph_status_of fault.now }
{
    if matches!(fault, FileFault::ReadFailed) {
        Status::ReadFault
    } else if fault.is_limit() {
        Status::Limit
    } else {
        Status::Refused
    }
}

/// The status of a fault of a script.
fn script_status(fault: &ScriptFault) -> Status
    ensures { result ≡ script_status_of fault.now }
{
    if matches!(fault, ScriptFault::ReadFailed) {
        Status::ReadFault
    } else if fault.is_limit() {
        Status::Limit
    } else {
        Status::Refused
    }
}

/// The status of a fault of a list of edits.
fn edits_status(fault: &EditsFault) -> Status
    ensures { result ≡ edits_status_of fault.now }
{
    if fault.is_read_fault() {
        Status::ReadFault
    } else if fault.is_limit() {
        Status::Limit
    } else {
        Status::Refused
    }
}

fn line_about_file(alloc: Global, path: &str, text: &str) -> Result<Vec<u8>, AllocError>
    ensures { IfOk result (λ line. line.items ≡ path.now ++ text.now) }
{
    let mut line = Vec::from_slice(alloc, path.as_bytes())?;
    line.extend_from_slice(text.as_bytes())?;
    Ok(line)
}

fn line_about_map(alloc: Global, path: &str, fault: &MapFault) -> Result<Vec<u8>, AllocError>
    ensures { IfOk result (λ line. line.items ≡ map_fault_line path.now fault.now) }
{
    match fault {
        MapFault::NoMap => line_about_file(alloc, path, ": map fault NoMap\n"),
        MapFault::BadBase64 => line_about_file(alloc, path, ": map fault BadBase64\n"),
        MapFault::BadJson => line_about_file(alloc, path, ": map fault BadJson\n"),
        MapFault::BadVersion => line_about_file(alloc, path, ": map fault BadVersion\n"),
        MapFault::BadDigit { at } => line_about_mappings(
            alloc,
            path,
            ": map fault BadDigit at ",
            *at,
        ),
        MapFault::BadFields { at } => line_about_mappings(
            alloc,
            path,
            ": map fault BadFields at ",
            *at,
        ),
        MapFault::BadIndex { at } => line_about_mappings(
            alloc,
            path,
            ": map fault BadIndex at ",
            *at,
        ),
        MapFault::OutOfMemory => Err(AllocError),
    }
}

fn line_about_mappings(
    alloc: Global,
    path: &str,
    text: &str,
    at: usize,
) -> Result<Vec<u8>, AllocError>
    ensures { IfOk result (λ line. line.items ≡ path.now ++ text.now ++ (decimal at ++ 10 ∷ [])) }
{
    let number = format!(in alloc; "{at}\n")?;
    let mut line = line_about_file(alloc, path, text)?;
    line.extend_from_slice(number.as_bytes())?;
    Ok(line)
}
