//! The modules that specifiers name.

ghost use Rattle.std.specs.Prelude.{◌≡◌, ℕ, List, IfOk};
ghost use Rattle.es6_static_semantics.specs.Endings.{requested};
ghost use Rattle.graph_bindings.specs.Requests.{asked};
ghost use Rattle.module_lowering.specs.Modules.{module_in};

use es6_ast::Request;
use std::alloc::{AllocError, Global};
use std::collections::HashMap;
use std::marker::Model;

/// The requests of a module, looked up by hash. Of those with one specifier the first counts.
#[derive(Drop)]
pub(crate) struct Requests<'a> {
    requests: &'a [Request],
    index: HashMap<&'a [u16], Option<u32>>,
}

impl<'a> Model for Requests<'a> {
    ghost use Rattle.std.specs.Prelude.{◌≡◌, ℕ, List};
    ghost use Rattle.es6_ast.specs.declared.graph.Request.{Request};
    ghost use Rattle.es6_static_semantics.specs.Endings.{requested};
    ghost use Rattle.graph_bindings.specs.Requests.{asked};

    ghost Value = { List Request };

    ghost view = { λ r. r.requests.now };

    ghost invariant = { λ r. (from : List ℕ) → asked r.index from ≡ requested r.requests.now from };
}

fn index_of<'a>(
    alloc: Global,
    requests: &'a [Request],
) -> Result<HashMap<&'a [u16], Option<u32>>, AllocError>
    ensures { IfOk result (λ index. (from : List ℕ) → asked index from ≡ requested requests.now from) }
{
    let mut index = HashMap::new(alloc);
    let mut left = requests.len();
    while left > 0 {
        left -= 1;
        let request = &requests[left];
        index.insert(request.specifier.units(), request.module)?;
    }
    Ok(index)
}

impl<'a> Requests<'a> {
    pub(crate) fn of(alloc: Global, requests: &'a [Request]) -> Result<Requests<'a>, AllocError>
        ensures { IfOk result (λ r. r ≡ requests.now) }
    {
        let index = index_of(alloc, requests)?;
        Ok(Requests { requests, index })
    }

    /// The module that a specifier names.
    pub(crate) fn module_of(&self, from: &[u16]) -> Option<u32>
        ensures { result ≡ module_in (requested self.now from.now) }
    {
        match self.index.get(from) {
            None => None,
            Some(module) => *module,
        }
    }
}
