//! Hosts, put back into their list.

ghost use Rattle.std.specs.Prelude.{◌≡◌};
ghost use Rattle.es_outside.specs.HostList.{entries};
ghost use Rattle.es_outside.specs.NamedList.{names_of};
ghost use Rattle.es_outside.specs.Refusals.{AreHostNames};

use es_outside::{Host, Hosts};
use std::alloc::Global;

/// The hosts of this list.
pub(crate) fn put_back(alloc: Global, list: Vec<(String, Box<dyn Host>)>) -> Hosts
    requires { AreHostNames (names_of list.items) }
    ensures { entries result ≡ list.items }
{
    match Hosts::new(alloc, list) {
        Ok(hosts) => hosts,
        Err(_) => unreachable!(),
    }
}
