//! Names that are looked up by hash: parameters, properties and labels.

ghost use Rattle.std.specs.Prelude.{◌≡◌, ℕ, List, [], ◌∷◌, ◌++◌, ◌-◌, if◌then◌else◌, length, take, drop, OnOk, OnErr, IfOk};
ghost use Rattle.std.specs.Str.{bytes_eq};
ghost use Rattle.es5_ast.specs.Early.{key_text};
ghost use Rattle.es5_ast.specs.Lexical.{is_one_of};
ghost use Rattle.es5_early.specs.Counts.{count_of};

use es5_ast::Key5;
use shared_text::Name;
use std::alloc::{AllocError, Global};
use std::collections::HashMap;
use std::marker::Model;

/// Names that came one after another, seen as a list with the newest first. A name is found without a search.
#[derive(Drop)]
pub(crate) struct Names {
    stack: Vec<Vec<u16>>,
    /// how often each name is in the stack
    counts: HashMap<Vec<u16>, usize>,
}

impl Model for Names {
    ghost use Rattle.std.specs.Prelude.{◌≡◌, ℕ, List, map, reverse, count_by};
    ghost use Rattle.std.specs.Coded.{coded_ℕ, coded_list};
    ghost use Rattle.es5_early.specs.Counts.{count_of, is_name};

    ghost Value = { List (List ℕ) };

    ghost coded = { coded_list (coded_list coded_ℕ) };

    ghost view = { λ s. reverse (map (λ v. v.items) s.stack.items) };

    ghost invariant = { λ s. (name : List ℕ) → count_of s.counts name ≡ count_by (is_name name) s.stack.items };
}

impl Names {
    pub(crate) fn new(alloc: Global) -> Names
        ensures { result ≡ [] }
    {
        Names {
            stack: Vec::new(alloc),
            counts: HashMap::new(alloc),
        }
    }

    pub(crate) fn len(&self) -> usize
        ensures { result ≡ length self.now }
    {
        self.stack.len()
    }

    /// Whether the name is there.
    pub(crate) fn contains(&self, name: &[u16]) -> bool
        ensures { result ≡ is_one_of name.now self.now }
    {
        count_of(&self.counts, name) > 0
    }

    pub(crate) fn push(&mut self, name: Vec<u16>) -> Result<(), AllocError>
        ensures { OnOk result (self.new ≡ name.items ∷ self.old) }
    {
        let key = name.clone()?;
        let count = count_of(&self.counts, key.as_slice());
        self.stack.push(name)?;
        if let Err(failed) = set_count(&mut self.counts, key, count + 1) {
            let _ = self.stack.pop();
            return Err(failed);
        }
        Ok(())
    }

    /// Adds the newest names of another list, in their order.
    pub(crate) fn push_newest(&mut self, others: &Names, count: usize) -> Result<(), AllocError>
        ensures { OnOk result (self.new ≡ take count others.now ++ self.old) }
    {
        let start = others.stack.len().saturating_sub(count);
        for name in &others.stack.as_slice()[start..] {
            self.push(name.clone()?)?;
        }
        Ok(())
    }

    /// Takes the newest name away, if there is one.
    pub(crate) fn pop(&mut self)
        ensures { self.new ≡ drop 1 self.old }
    {
        let Some(name) = self.stack.pop() else {
            return;
        };
        let count = count_of(&self.counts, name.as_slice());
        // the name has a count, so that this takes no memory
        let _ = set_count(&mut self.counts, name, count - 1);
    }

    /// Takes names away, the newest first, until so many are left.
    pub(crate) fn truncate(&mut self, len: usize)
        ensures { self.new ≡ drop (length self.old - len) self.old }
    {
        while self.len() > len {
            self.pop();
        }
    }
}

fn count_of(counts: &HashMap<Vec<u16>, usize>, name: &[u16]) -> usize
    ensures { result ≡ count_of counts.now name.now }
{
    counts.get(name).copied().unwrap_or(0)
}

fn set_count(
    counts: &mut HashMap<Vec<u16>, usize>,
    name: Vec<u16>,
    count: usize,
) -> Result<(), AllocError>
    ensures ok { OnOk result ((other : List ℕ) → count_of counts.new other ≡ (if bytes_eq name.items other then count else count_of counts.old other)) }
    ensures err { OnErr result ((other : List ℕ) → count_of counts.new other ≡ count_of counts.old other) }
    ensures absent { OnErr result (count_of counts.old name.items ≡ 0) }
{
    counts.insert(name, count)?;
    Ok(())
}

/// The units of a name.
pub(crate) fn name_units(alloc: Global, name: &Name) -> Result<Vec<u16>, AllocError>
    ensures { IfOk result (λ units. units.items ≡ name.now) }
{
    widened(alloc, name.bytes())
}

/// The units of a property's name (ECMA-262, 5.1 edition, 11.1.5).
pub(crate) fn key_units(alloc: Global, key: &Key5) -> Result<Vec<u16>, AllocError>
    ensures { IfOk result (λ units. units.items ≡ key_text key.now) }
{
    match key {
        Key5::WordKey(name) => name_units(alloc, name),
        Key5::TextKey(text) => Vec::from_slice(alloc, text.units()),
        Key5::IntegerKey(value) => {
            let digits = format!(in alloc; "{value}")?;
            widened(alloc, digits.as_bytes())
        }
    }
}

fn widened(alloc: Global, bytes: &[u8]) -> Result<Vec<u16>, AllocError>
    ensures { IfOk result (λ units. units.items ≡ bytes.now) }
{
    let mut units = Vec::with_capacity(alloc, bytes.len())?;
    for byte in bytes {
        units.push(u16::from(*byte))?;
    }
    Ok(units)
}
