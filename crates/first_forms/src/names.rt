//! Names as a module binds them, and sets of them.
ghost use Rattle.std.specs.Prelude.{◌≡◌, [], ◌∷◌, ◌++◌, ◌&&◌, not, length, map, false, IfOk, OnOk};
ghost use Rattle.std.specs.List.{list_all};
ghost use Rattle.first_forms.specs.Names.{is_one_of, is_name_part, is_identifier_name, unbindable_names};
ghost use Rattle.first_forms.specs.Reading.{is_bindable, importable, with_name, with_host};

use crate::lexer::{is_name_part, is_name_start};
use indexmap::IndexSet;
use shared_text::Name;
use sqlite_items::Items;
use std::alloc::{AllocError, Global};
use std::marker::Model;

/// The words that are reserved in module code (ECMA-262, 6th edition, 11.6.2), and the two that strict code doesn't bind (12.1.1).
const UNBINDABLE_NAMES: [&[u8]; 48] = [
    b"break",
    b"case",
    b"catch",
    b"class",
    b"const",
    b"continue",
    b"debugger",
    b"default",
    b"delete",
    b"do",
    b"else",
    b"export",
    b"extends",
    b"finally",
    b"for",
    b"function",
    b"if",
    b"import",
    b"in",
    b"instanceof",
    b"new",
    b"return",
    b"super",
    b"switch",
    b"this",
    b"throw",
    b"try",
    b"typeof",
    b"var",
    b"void",
    b"while",
    b"with",
    b"yield",
    b"enum",
    b"await",
    b"null",
    b"true",
    b"false",
    b"implements",
    b"interface",
    b"let",
    b"package",
    b"private",
    b"protected",
    b"public",
    b"static",
    b"eval",
    b"arguments",
];

/// Whether a module may bind the name: it is an ASCII identifier that is no reserved word, and neither `eval` nor `arguments`.
pub fn is_bindable(name: &[u8]) -> bool
    ensures { result ≡ is_bindable name.now }
{
    is_identifier_name(name) && !is_unbindable(name)
}

fn is_identifier_name(name: &[u8]) -> bool
    ensures { result ≡ is_identifier_name name.now }
{
    match name {
        [] => false,
        [first, rest @ ..] => is_name_start(*first) && are_name_parts(rest),
    }
}

fn are_name_parts(bytes: &[u8]) -> bool
    ensures { result ≡ list_all is_name_part bytes.now }
{
    bytes.iter().all(|b| is_name_part(*b))
}

fn is_unbindable(name: &[u8]) -> bool
    ensures { result ≡ is_one_of name.now unbindable_names }
{
    is_among(name, &UNBINDABLE_NAMES)
}

fn is_among(name: &[u8], words: &[&[u8]]) -> bool
    ensures { result ≡ is_one_of name.now (map (λ w. w.now) words.now) }
{
    for word in words {
        if name == *word {
            return true;
        }
    }
    false
}

/// A set of names, in the order in which they came.
#[derive(Drop)]
pub struct NameSet {
    names: IndexSet<Vec<u8>>,
}

impl Model for NameSet {
    ghost use Rattle.std.specs.Prelude.{ℕ, List, map};
    ghost use Rattle.std.specs.Coded.{coded_ℕ, coded_list};

    ghost Value = { List (List ℕ) };

    ghost coded = { coded_list (coded_list coded_ℕ) };

    ghost view = { λ s. map (λ v. v.items) s.names.keys };
}

impl NameSet {
    pub fn new(alloc: Global) -> NameSet
        ensures { result ≡ [] }
    {
        NameSet {
            names: IndexSet::new(alloc),
        }
    }

    /// The hosts' names that a module may bind, each once.
    pub fn of_hosts(alloc: Global, hosts: &[Name]) -> Result<NameSet, AllocError>
        ensures { IfOk result (λ s. s ≡ importable hosts.now) }
    {
        let mut names = NameSet::new(alloc);
        for host in hosts {
            names.insert_host(alloc, host.bytes())?;
        }
        Ok(names)
    }

    fn insert_host(&mut self, alloc: Global, name: &[u8]) -> Result<(), AllocError>
        ensures { OnOk result (self.new ≡ with_host self.old name.now) }
    {
        if is_bindable(name) {
            self.insert(alloc, name)?;
        }
        Ok(())
    }

    pub fn len(&self) -> usize
        ensures { result ≡ length self.now }
    {
        self.names.len()
    }

    pub fn contains(&self, name: &[u8]) -> bool
        ensures { result ≡ is_one_of name.now self.now }
    {
        self.names.contains(name)
    }

    /// Adds the name at the end, unless it is there.
    pub fn insert(&mut self, alloc: Global, name: &[u8]) -> Result<(), AllocError>
        ensures { OnOk result (self.new ≡ with_name self.old name.now) }
    {
        self.names.insert(name.to_vec(alloc)?)?;
        Ok(())
    }

    /// The names as a list of their own.
    pub fn to_names(&self, alloc: Global) -> Result<Items<Name>, AllocError>
        ensures { IfOk result (λ names. names ≡ self.now) }
    {
        let mut names = Items::new(alloc);
        for name in self.names.as_slice() {
            names.push(Name::of_bytes(alloc, name.as_slice())?)?;
        }
        Ok(names)
    }
}
