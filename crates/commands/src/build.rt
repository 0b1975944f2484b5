//! The command `build`.

ghost use Rattle.std.specs.Prelude.{◌≡◌, ◌≤◌, IfOk, MatchResult};
ghost use Rattle.es_outside.specs.HostList.{names};
ghost use Rattle.command_words.specs.Words.{build};
ghost use Rattle.commands.specs.Outcome.{IsBuilt};
ghost use Rattle.commands.specs.Parts.{IsBytesScript, FitsBytes, IsFileScript, Fits, IsEntryFault};

use crate::fault::{CommandFault, Fault};
use es_outside::{FileAnswer, Files, HostNames, Hosts};
use es6_ast::Graph;
use first_forms::{ReadFault, read_module, tokens};
use first_script::script_of;
use graph_refusals::{FileFault, Refusal};
use module_linker::UsesGraph;
use module_linker::graph_checks::checked;
use pipeline::compile;
use shared_text::Name;
use std::alloc::{AllocError, Global};

/// The most bytes of a module.
pub const MAX_MODULE_BYTES: u32 = 4_194_304;

/// What a linked graph is compiled to.
struct Compiled;

impl UsesGraph for Compiled {
    ghost use Rattle.pipeline.specs.Compiled.{IsCompiled};

    type Made = Vec<u8>;

    ghost makes = { λ graph hosts script. IsCompiled graph hosts script.items };

    fn made(alloc: Global, graph: &Graph, hosts: &HostNames) -> Result<Vec<u8>, AllocError> {
        compile(alloc, graph, hosts)
    }
}

/// The script of the module with this path, if its graph passes every check: where it is in one of the first forms, by their own
/// rule, and else what the graph is compiled to.
pub fn build<F: Files>(
    alloc: Global,
    path: &str,
    files: &mut F,
    hosts: &Hosts,
) -> Result<Vec<u8>, CommandFault>
    ensures built { MatchResult result
        (λ script. IsFileScript (names hosts.now) (F.files files.old) path.now script.items)
        (Fits (names hosts.now) (build path.now) (F.files files.old) (F.faults files.old) (F.faults files.new)) }
    ensures kept { F.files files.new ≡ F.files files.old }
    ensures no_fall { F.faults files.old ≤ F.faults files.new }
{
    let host_names = hosts.names(alloc)?;
    let compiled = checked::<F, Compiled>(alloc, files, path, &host_names)?;
    let names = host_list(alloc, hosts)?;
    script_of_entry(alloc, path, files, names.as_slice(), compiled)
}

/// The names of the hosts, in order.
fn host_list(alloc: Global, hosts: &Hosts) -> Result<Vec<Name>, AllocError>
    ensures { IfOk result (λ list. list.items ≡ names hosts.now) }
{
    let mut list = Vec::new(alloc);
    while let Some(name) = hosts.name(list.len()) {
        list.push(Name::of_bytes(alloc, name.as_bytes())?)?;
    }
    Ok(list)
}

/// The script of the entry of a graph that passed and is compiled. The file is read once more, up to one byte past the limit.
fn script_of_entry<F: Files>(
    alloc: Global,
    path: &str,
    files: &mut F,
    hosts: &[Name],
    compiled: Vec<u8>,
) -> Result<Vec<u8>, CommandFault>
    requires { IsBuilt hosts.now (F.files files.old) path.now compiled.items }
    ensures built { MatchResult result
        (λ script. IsFileScript hosts.now (F.files files.old) path.now script.items)
        (Fits hosts.now (build path.now) (F.files files.old) (F.faults files.old) (F.faults files.new)) }
    ensures kept { F.files files.new ≡ F.files files.old }
    ensures no_fall { F.faults files.old ≤ F.faults files.new }
{
    match files.read(alloc, path, MAX_MODULE_BYTES) {
        FileAnswer::Found(bytes) => script_of_bytes(alloc, path, bytes.as_slice(), hosts, compiled),
        FileAnswer::Missing => Err(entry_fault(alloc, path, FileFault::Missing)),
        FileAnswer::Failed => Err(entry_fault(alloc, path, FileFault::ReadFailed)),
        FileAnswer::OutOfMemory => Err(CommandFault::OutOfMemory),
    }
}

/// The script of the bytes of an entry, by the rule of the first forms if they are in one.
fn script_of_bytes(
    alloc: Global,
    path: &str,
    bytes: &[u8],
    hosts: &[Name],
    compiled: Vec<u8>,
) -> Result<Vec<u8>, CommandFault>
    ensures { MatchResult result
        (λ script. IsBytesScript hosts.now bytes.now compiled.items script.items)
        (FitsBytes hosts.now path.now bytes.now) }
{
    if bytes.len() > MAX_MODULE_BYTES as usize {
        return Err(entry_fault(alloc, path, FileFault::FileTooLong));
    }
    let tokens = tokens(alloc, bytes)?;
    match read_module(alloc, tokens.as_slice(), hosts) {
        Ok(module) => Ok(script_of(alloc, &module, hosts)?),
        Err(ReadFault::NotBuilt { .. }) => Ok(compiled),
        Err(ReadFault::OutOfMemory) => Err(CommandFault::OutOfMemory),
    }
}

/// A fault of the entry itself.
fn entry_fault(alloc: Global, path: &str, fault: FileFault) -> CommandFault
    ensures { IsEntryFault path.now fault result }
{
    match Name::of_bytes(alloc, path.as_bytes()) {
        Ok(path) => CommandFault::Refused(Fault::InGraph(Refusal { path, fault })),
        Err(_) => CommandFault::OutOfMemory,
    }
}
