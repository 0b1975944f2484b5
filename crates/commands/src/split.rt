//! The command `split`.

ghost use Rattle.std.specs.Prelude.{◌≡◌, ◌≤◌, MatchResult};
ghost use Rattle.es_outside.specs.HostList.{names};
ghost use Rattle.command_words.specs.Words.{split};
ghost use Rattle.commands.specs.Outcome.{IsSplitGraph};
ghost use Rattle.commands.specs.Parts.{Fits};

use crate::fault::CommandFault;
use es_outside::{Files, HostNames, Hosts};
use es6_ast::Graph;
use module_linker::UsesGraph;
use module_linker::graph_checks::checked;
use split_emit::split_text;
use std::alloc::{AllocError, Global};

/// The scripts of a linked graph, as one text.
struct Scripts;

impl UsesGraph for Scripts {
    ghost use Rattle.split_emit.specs.Split.{IsSplitText};

    type Made = Vec<u8>;

    ghost makes = { λ graph hosts text. IsSplitText graph hosts text.items };

    fn made(alloc: Global, graph: &Graph, hosts: &HostNames) -> Result<Vec<u8>, AllocError> {
        split_text(alloc, graph, hosts)
    }
}

/// The scripts of the module with this path and of its graph, if that passes every check: for each a line with its name and the number
/// of its bytes, and its bytes.
pub fn split<F: Files>(
    alloc: Global,
    path: &str,
    files: &mut F,
    hosts: &Hosts,
) -> Result<Vec<u8>, CommandFault>
    ensures made { MatchResult result
        (λ text. IsSplitGraph (names hosts.now) (F.files files.old) path.now text.items)
        (Fits (names hosts.now) (split path.now) (F.files files.old) (F.faults files.old) (F.faults files.new)) }
    ensures kept { F.files files.new ≡ F.files files.old }
    ensures no_fall { F.faults files.old ≤ F.faults files.new }
{
    let host_names = hosts.names(alloc)?;
    let text = checked::<F, Scripts>(alloc, files, path, &host_names)?;
    Ok(text)
}
