//! What is told of the faults of loading and of linking.

ghost use Rattle.std.specs.Prelude.{◌≡◌};
ghost use Rattle.module_linker.specs.graph_checks.Telling.{OrNoMemory, refused, refused_at, told_link, told_load, told_module, told_parse};

use crate::{LinkFault, LoadFault, ModuleFault};
use es_text::Place;
use es6_module::ParseFault;
use graph_refusals::{FileFault, GraphFault, PlacedFault, Refusal};
use shared_text::Name;
use std::alloc::Global;

/// What is told of a fault of loading the graph of this entry.
pub fn told_load(alloc: Global, entry: &str, fault: LoadFault<ModuleFault>) -> GraphFault
    ensures { OrNoMemory (told_load entry.now fault) result }
{
    match Name::of_bytes(alloc, entry.as_bytes()) {
        Ok(path) => told_with(path, fault),
        Err(_) => GraphFault::OutOfMemory,
    }
}

fn told_with(entry: Name, fault: LoadFault<ModuleFault>) -> GraphFault
    ensures { result ≡ told_load entry fault }
{
    match fault {
        LoadFault::BadSpecifier {
            path,
            place,
            specifier,
        } => refused_at(path, place, PlacedFault::BadSpecifier(specifier)),
        LoadFault::TooManyModules { path, place } => {
            refused_at(path, place, PlacedFault::TooManyModules)
        }
        LoadFault::ReadFault { path } => refused(path, FileFault::ReadFailed),
        LoadFault::EntryMissing => refused(entry, FileFault::Missing),
        LoadFault::Missing {
            path,
            place,
            specifier,
        } => refused_at(path, place, PlacedFault::MissingModule(specifier)),
        LoadFault::FileTooLong { path } => refused(path, FileFault::FileTooLong),
        LoadFault::GraphTooLong { path } => refused(path, FileFault::GraphTooLong),
        LoadFault::InModule { path, fault } => told_module(path, fault),
        LoadFault::OutOfMemory => GraphFault::OutOfMemory,
    }
}

/// What is told of a fault of a module's text.
fn told_module(path: Name, fault: ModuleFault) -> GraphFault
    ensures { result ≡ told_module path fault }
{
    match fault {
        ModuleFault::FileTooLong => refused(path, FileFault::FileTooLong),
        ModuleFault::NotUtf8 { at } => refused(path, FileFault::NotUtf8 { at }),
        ModuleFault::Parse { place, fault } => told_parse(path, place, fault),
        ModuleFault::Early { place, rule } => refused_at(path, place, PlacedFault::Early(rule)),
        ModuleFault::Outside { place, rule } => {
            refused_at(path, place, PlacedFault::Outside(rule))
        }
        ModuleFault::OutOfMemory => GraphFault::OutOfMemory,
    }
}

/// What is told of a fault of the reader.
fn told_parse(path: Name, place: Place, fault: ParseFault) -> GraphFault
    ensures { result ≡ told_parse path place fault }
{
    match fault {
        ParseFault::Syntax { .. } => refused_at(path, place, PlacedFault::Syntax),
        ParseFault::Lexical { kind, .. } => refused_at(path, place, PlacedFault::Lexical(kind)),
        ParseFault::Outside { rule, .. } => refused_at(path, place, PlacedFault::Outside(rule)),
        ParseFault::Depth { .. } => refused_at(path, place, PlacedFault::TooDeep),
        ParseFault::OutOfMemory => GraphFault::OutOfMemory,
    }
}

/// What is told of a fault of linking.
pub fn told_link(fault: LinkFault) -> GraphFault
    ensures { result ≡ told_link fault }
{
    match fault {
        LinkFault::Unresolved { path, place, name } => {
            refused_at(path, place, PlacedFault::Unresolved(name))
        }
        LinkFault::Ambiguous { path, place, name } => {
            refused_at(path, place, PlacedFault::Ambiguous(name))
        }
        LinkFault::OutOfMemory => GraphFault::OutOfMemory,
    }
}

fn refused_at(path: Name, place: Place, fault: PlacedFault) -> GraphFault
    ensures { result ≡ refused_at path place fault }
{
    refused(path, FileFault::At { place, fault })
}

fn refused(path: Name, fault: FileFault) -> GraphFault
    ensures { result ≡ refused path fault }
{
    GraphFault::Refused(Refusal { path, fault })
}
