ghost use Rattle.std.specs.Prelude.{◌≡◌, ◌<◌, ◌≤◌, false, option_map, MatchResult, IfNone, IfSome, IfOk, length, slice_get, option_copied};
ghost use Rattle.es_outside.specs.NamedList.{names_of, IsNamed, NoneNamed};
ghost use Rattle.es_outside.specs.Counts.{CountRose};
ghost use Rattle.es_outside.specs.Talk.{talk_after};
ghost use Rattle.es_outside.specs.Refusals.{AreHostNames, IsRefused};

use crate::named::{BAD_HOST_NAME, DUPLICATE_HOST, first_refusal, position_of};
use crate::{Host, HostAnswer, HostNames, Prim};
use std::alloc::{AllocError, Global};

/// The hosts that a program may call, each with its name.
#[derive(Drop)]
pub struct Hosts {
    list: Vec<(String, Box<dyn Host>)>,
    pub ghost are_host_names: { AreHostNames (names_of list.items) },
}

/// A list whose name at `at` can't stand, and is the first of these.
#[derive(Drop)]
pub struct HostsRefused {
    /// 1 where the name may name no host, and 2 where it stands earlier.
    pub number: u8,
    pub at: usize,
    pub list: Vec<(String, Box<dyn Host>)>,
}

impl HostsRefused {
    /// The name is no identifier in ASCII, or names something else.
    pub const BAD_HOST_NAME: u8 = BAD_HOST_NAME;

    /// The name stands earlier.
    pub const DUPLICATE_HOST: u8 = DUPLICATE_HOST;
}

impl Hosts {
    ghost use Rattle.es_outside.specs.Asked.{IsAsked};
    ghost use Rattle.es_outside.specs.HostList.{names, entries};

    /// The hosts of this list, or the list with the first name that can't stand. It takes no memory.
    pub fn new(_alloc: Global, list: Vec<(String, Box<dyn Host>)>) -> Result<Hosts, HostsRefused>
        ensures { MatchResult result
            (λ hosts. entries hosts ≡ list.items)
            (λ refused. (refused.list ≡ list) × IsRefused (names_of list.items) refused.number refused.at) }
    {
        match first_refusal(&list) {
            None => Ok(Hosts { list }),
            Some((number, at)) => Err(HostsRefused { number, at, list }),
        }
    }

    /// How many hosts there are.
    pub fn len(&self) -> usize
        ensures len { result ≡ length (names self.now) }
        ensures are_host_names { AreHostNames (names self.now) }
    {
        self.list.len()
    }

    /// The name of the host with this number.
    pub fn name(&self, index: usize) -> Option<&str>
        ensures { option_copied result ≡ slice_get (names self.now) index }
    {
        match self.list.get(index) {
            Some((name, _)) => Some(name.as_str()),
            None => None,
        }
    }

    /// The number of the host with this name.
    pub fn position(&self, name: &str) -> Option<usize>
        ensures none { IfNone result (NoneNamed (names self.now) name.now) }
        ensures some { IfSome result (IsNamed (names self.now) name.now) }
    {
        position_of(&self.list, name)
    }

    /// The names alone, copied.
    pub fn names(&self, alloc: Global) -> Result<HostNames, AllocError>
        ensures { IfOk result (λ copy. copy ≡ names self.now) }
    {
        let mut list = Vec::new(alloc);
        for (name, _) in &self.list {
            list.push(name.clone()?)?;
        }
        Ok(HostNames { list })
    }

    /// Asks the host with this number; no other changes.
    pub fn ask(&mut self, alloc: Global, index: usize, args: &[Prim]) -> HostAnswer
        requires { index < length (names self.old) }
        ensures { IsAsked (λ b. (⟦<dyn Host as Host>⟧ b.vtable).talk b.value) (λ b. (⟦<dyn Host as Host>⟧ b.vtable).faults b.value)
            (λ b. (⟦<dyn Host as Host>⟧ b.vtable).sure b.value) index args.now result (entries self.old) (entries self.new) }
    {
        ask_one(alloc, &mut self.list[index], args)
    }

    /// The list that the hosts were made of.
    pub fn into_list(self) -> Vec<(String, Box<dyn Host>)>
        ensures { result.items ≡ entries self }
    {
        let Hosts { list } = self;
        list
    }
}

fn ask_one(alloc: Global, entry: &mut (String, Box<dyn Host>), args: &[Prim]) -> HostAnswer
    ensures name { entry.new.0 ≡ entry.old.0 }
    ensures told { talk entry.new.1 ≡ option_map (talk_after args.now result) (talk entry.old.1) }
    ensures no_fall { faults entry.old.1 ≤ faults entry.new.1 }
    ensures failed { result ≡ HostAnswer.Failed → CountRose (faults entry.old.1) (faults entry.new.1) }
    ensures mark { sure entry.new.1 ≡ sure entry.old.1 }
    ensures unsure { result ≡ HostAnswer.Failed → sure entry.old.1 ≡ false }
{
    entry.1.answer(alloc, args)
}
