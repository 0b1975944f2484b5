//! The realm that is played in.
use es_builtins::{Realm5, Realm6, RealmOf};
use es_heap::Heap;
use es_outside::HostNames;
use es_realm::Edition;
use std::alloc::{AllocError, Global};
use std::str::SplitWhitespace;

#[derive(Drop)]
pub enum Realm {
    Sixth(Realm6),
    Fifth(Realm5),
}

impl Realm {
    /// A fresh realm with its heap. In the 5.1 edition's there are these hosts.
    pub fn start(
        alloc: Global,
        edition: Edition,
        hosts: &mut SplitWhitespace,
    ) -> Result<(Heap, Realm), AllocError> {
        match edition {
            Edition::Sixth => {
                let (heap, realm) = Realm6::start(alloc)?;
                Ok((heap, Realm::Sixth(realm)))
            }
            Edition::Fifth => {
                let hosts = names_of(alloc, hosts)?;
                let (heap, realm) = Realm5::start(alloc, &hosts)?;
                Ok((heap, Realm::Fifth(realm)))
            }
        }
    }

    pub fn edition(&self) -> Edition {
        match self {
            Realm::Sixth(_) => Edition::Sixth,
            Realm::Fifth(_) => Edition::Fifth,
        }
    }

    /// How many hosts there are.
    pub fn hosts(&self) -> i64 {
        match self {
            Realm::Sixth(_) => 0,
            Realm::Fifth(realm) => realm.hosts.len() as i64,
        }
    }

    pub fn lend(&self) -> RealmOf<'_> {
        match self {
            Realm::Sixth(realm) => RealmOf::Six(realm),
            Realm::Fifth(realm) => RealmOf::Five(realm),
        }
    }
}

/// The names of these hosts, or no names where one may name no host.
fn names_of(alloc: Global, words: &mut SplitWhitespace) -> Result<HostNames, AllocError> {
    let mut list = Vec::new(alloc);
    for word in words {
        list.push(String::from_str(alloc, word)?)?;
    }
    match HostNames::of(list) {
        Ok(names) => Ok(names),
        Err(_) => HostNames::of(Vec::new(alloc)).ok().ok_or(AllocError),
    }
}
