//! Reading one module, with all of its checks.

ghost use Rattle.std.specs.Prelude.{◌≡◌, [], map, IfErr, IfOk, OnOk};
ghost use Rattle.es6_static_semantics.specs.Early.{early_pairs};
ghost use Rattle.es6_static_semantics.specs.Graphs.{specifiers};
ghost use Rattle.es6_static_semantics.specs.Outside.{outside_pairs};
ghost use Rattle.module_linker.specs.module_checks.Faults.{IsMisfit, Refuses};
ghost use Rattle.module_linker.specs.module_checks.Reading.{IsRead};
ghost use Rattle.module_linker.specs.Reading.{unlinked};

use crate::module_checks::{ModuleFault, Text, checked_requests, text_of, unparsed};
use es_text::Lines;
use es6_ast::{LoadedModule, Module};
use es6_module::parse_module;
use shared_text::Name;
use sqlite_items::Items;
use std::alloc::Global;

/// The module of these bytes, which the file at this path has, or the first check that it doesn't pass: its length, its encoding, its
/// syntax, its early errors, and what in it is outside the profile. It isn't known yet which modules it requests.
pub fn read_module(alloc: Global, path: &str, bytes: &[u8]) -> Result<LoadedModule, ModuleFault>
    ensures read { IfOk result (λ loaded. IsRead path.now bytes.now loaded) }
    ensures fault { IfErr result (λ fault. Refuses bytes.now fault) }
{
    let Text { lines, tokens } = text_of(alloc, bytes)?;
    let path = Name::of_bytes(alloc, path.as_bytes())?;
    match parse_module(alloc, tokens.as_slice()) {
        Ok(tree) => module_of(alloc, path, lines, tree),
        Err(fault) => Err(unparsed(&lines, fault)),
    }
}

/// The module with this tree, if the tree passes its checks.
fn module_of(
    alloc: Global,
    path: Name,
    lines: Lines,
    tree: Module,
) -> Result<LoadedModule, ModuleFault>
    ensures legal { OnOk result (early_pairs tree ≡ []) }
    ensures inside { OnOk result (outside_pairs tree ≡ []) }
    ensures made { IfOk result (λ loaded. loaded ≡ unlinked path lines tree) }
    ensures fault { IfErr result (λ fault. IsMisfit lines tree fault) }
{
    let requests = checked_requests(alloc, &lines, &tree)?;
    Ok(LoadedModule {
        path,
        lines,
        tree,
        requests,
        endings: Items::new(alloc),
    })
}
