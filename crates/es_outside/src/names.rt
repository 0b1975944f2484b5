ghost use Rattle.std.specs.Prelude.{◌≡◌, ◌<◌, ◌^◌, MatchResult, IfNone, IfSome, length, map, string_bytes, slice_get, option_copied};
ghost use Rattle.es_outside.specs.NamedList.{IsNamed, NoneNamed};
ghost use Rattle.es_outside.specs.Refusals.{AreHostNames, IsRefused};

use crate::named::{BAD_HOST_NAME, DUPLICATE_HOST, first_refusal, position_of};
use std::marker::Model;

/// The names of hosts without the hosts, in their order: what a compiler has to know of them.
#[derive(Debug, Drop)]
pub struct HostNames {
    pub(crate) list: Vec<String>,
}

impl Model for HostNames {
    ghost use Rattle.std.specs.Prelude.{ℕ, List, map, string_bytes};
    ghost use Rattle.es_outside.specs.Refusals.{AreHostNames};

    ghost Value = { List (List ℕ) };

    ghost view = { λ hosts. map (λ name. string_bytes name) hosts.list.items };

    ghost invariant = { λ hosts. AreHostNames (map (λ name. string_bytes name) hosts.list.items) };
}

/// A list whose name at `at` can't stand, and is the first of these.
#[derive(Debug, PartialEq, Eq, Drop)]
pub struct HostsRefused2 {
    /// 1 where the name may name no host, and 2 where it stands earlier.
    pub number: u8,
    pub at: usize,
}

impl HostsRefused2 {
    /// The name is no identifier in ASCII, or names something else.
    pub const BAD_HOST_NAME: u8 = BAD_HOST_NAME;

    /// The name stands earlier.
    pub const DUPLICATE_HOST: u8 = DUPLICATE_HOST;
}

impl HostNames {
    /// The names of this list, or the first name that can't stand. It takes no memory.
    pub fn of(list: Vec<String>) -> Result<HostNames, HostsRefused2>
        ensures { let names = map (λ name. string_bytes name) list.items in
            MatchResult result (λ hosts. hosts ≡ names) (λ refused. IsRefused names refused.number refused.at) }
    {
        match first_refusal(&list) {
            None => Ok(HostNames { list }),
            Some((number, at)) => Err(HostsRefused2 { number, at }),
        }
    }

    /// How many hosts there are.
    pub fn len(&self) -> usize
        ensures len { result ≡ length self.now }
        ensures are_host_names { AreHostNames self.now }
        ensures below { length self.now < 2 ^ 63 }
    {
        self.list.len()
    }

    /// The name of the host with this number.
    pub fn name(&self, index: usize) -> Option<&str>
        ensures { option_copied result ≡ slice_get self.now index }
    {
        match self.list.get(index) {
            Some(name) => Some(name.as_str()),
            None => None,
        }
    }

    /// The number of the host with this name.
    pub fn position(&self, name: &str) -> Option<usize>
        ensures none { IfNone result (NoneNamed self.now name.now) }
        ensures some { IfSome result (IsNamed self.now name.now) }
    {
        position_of(&self.list, name)
    }
}
