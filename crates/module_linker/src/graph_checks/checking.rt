//! Whether a graph passes every check, and what is made of one that does.

ghost use Rattle.std.specs.Prelude.{◌≡◌, ◌≤◌, IfErr, IfOk};
ghost use Rattle.module_linker.specs.graph_checks.Checks.{HasGraphFault};
ghost use Rattle.module_linker.specs.Checking.{IsMadeOf};

use crate::graph_checks::faults::{told_link, told_load};
use crate::{CheckFault, UsesGraph, check};
use es_outside::{Files, HostNames};
use graph_refusals::GraphFault;
use std::alloc::Global;

/// Loads the graph of the entry and links it: what is made of it where it passes every check, or its first fault.
pub fn checked<F: Files, U: UsesGraph>(
    alloc: Global,
    files: &mut F,
    entry: &str,
    hosts: &HostNames,
) -> Result<U::Made, GraphFault>
    ensures made { IfOk result (λ made. IsMadeOf U.makes (F.files files.old) entry.now hosts.now made) }
    ensures fault { let faults = F.faults files.old in
        IfErr result (HasGraphFault (F.files files.old) hosts.now entry.now faults (F.faults files.new)) }
    ensures kept { F.files files.new ≡ F.files files.old }
    ensures no_fall { F.faults files.old ≤ F.faults files.new }
{
    match check::<F, U>(alloc, files, entry, hosts) {
        Ok(made) => Ok(made),
        Err(CheckFault::Load(fault)) => Err(told_load(alloc, entry, fault)),
        Err(CheckFault::Link(fault)) => Err(told_link(fault)),
    }
}
