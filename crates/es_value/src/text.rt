//! A shared text.
ghost use Rattle.std.specs.Prelude.{◌≡◌, ◌++◌, IfOk, IsTrue, ◌↔◌, ◌==◌};
ghost use Rattle.std.specs.Ordering.{nat_cmp};
ghost use Rattle.std.specs.Cmp.Lexicographic.{pointwise, slice_cmp};
ghost use Rattle.std.specs.Cmp.Rules.{comparing, hashing};
ghost use Rattle.std.specs.Hash as fed;
ghost use Rattle.std.proofs.Common.{rules};

use sqlite_items::Items;
use std::alloc::{AllocError, Global};
use std::cmp::Ordering;
use std::hash::{Hash, Hasher};
use std::marker::Model;
use std::rc::Rc;

/// A text with several owners: a list of 16-bit units, in which a surrogate may stand alone (ECMA-262, 6th edition, 6.1.4).
#[derive(Debug, Drop)]
pub struct Str {
    shared: Rc<Items<u16>>,
}

impl Model for Str {
    ghost use Rattle.std.specs.Prelude.{ℕ, List};
    ghost use Rattle.std.specs.Coded.{coded_ℕ, coded_list};

    ghost Value = { List ℕ };

    ghost coded = { coded_list coded_ℕ };

    ghost view = { λ text. text.shared.value };
}

impl Str {
    /// The text of these units.
    pub fn of(alloc: Global, units: &[u16]) -> Result<Str, AllocError>
        ensures { IfOk result (λ text. text ≡ units.now) }
    {
        let shared = Rc::new(alloc, Items::from_slice(alloc, units)?)?;
        Ok(Str { shared })
    }

    /// The text of these characters, whose codes are below 256 and stand in a byte each.
    pub fn of_bytes(alloc: Global, characters: &[u8]) -> Result<Str, AllocError>
        ensures { IfOk result (λ text. text ≡ characters.now) }
    {
        let mut units = Vec::with_capacity(alloc, characters.len())?;
        for byte in characters {
            units.push(u16::from(*byte))?;
        }
        Str::of_vec(alloc, units)
    }

    /// The text of these units, which aren't copied.
    pub fn of_vec(alloc: Global, units: Vec<u16>) -> Result<Str, AllocError>
        ensures { IfOk result (λ text. text ≡ units.items) }
    {
        let shared = Rc::new(alloc, Items::from_vec(units))?;
        Ok(Str { shared })
    }

    /// One more owner of the same text.
    pub fn share(&self) -> Result<Str, AllocError>
        ensures { IfOk result (λ text. text ≡ self.now) }
    {
        let shared = self.shared.clone()?;
        Ok(Str { shared })
    }

    /// The units of the text.
    pub fn units(&self) -> &[u16]
        ensures { result.now ≡ self.now }
    {
        self.shared.as_slice()
    }
}

impl PartialEq for Str {
    ghost eq = { pointwise ◌==◌ };

    ghost laws = { Prim.search (comparing, rules) };

    fn eq(&self, other: &Str) -> bool {
        self.units() == other.units()
    }
}

impl Eq for Str {
    ghost laws = { Prim.search (comparing, rules) };
}

impl Hash for Str {
    ghost hash_input = { fed.slice fed.u16 };

    ghost respects_eq = { Prim.search (hashing, rules) };

    fn hash<H: Hasher>(&self, state: &mut H) {
        self.units().hash(state)
    }
}

/// The order of two texts by their units (7.2.11, 5 and 6).
pub fn compare(a: &Str, b: &Str) -> Ordering
    ensures { result ≡ slice_cmp nat_cmp a.now b.now }
{
    a.units().cmp(b.units())
}

/// `a` followed by `b`: what each holds is copied.
pub fn concat(alloc: Global, a: &Str, b: &Str) -> Result<Str, AllocError>
    ensures { IfOk result (λ text. text ≡ a.now ++ b.now) }
{
    let mut units = Vec::from_slice(alloc, a.units())?;
    units.extend_from_slice(b.units())?;
    Str::of_vec(alloc, units)
}
