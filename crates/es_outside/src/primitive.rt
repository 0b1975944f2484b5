ghost use Rattle.std.specs.Prelude.{◌≡◌, IfOk};

use shared_text::Units;
use sqlite_items::Items;
use std::alloc::{AllocError, Global};
use std::marker::Model;

/// A primitive value, which is all that passes between a program and its hosts
/// (ECMA-262, 6th edition, 6.1.1 to 6.1.4 and 6.1.6).
#[derive(Debug, Drop)]
pub enum Primitive {
    Undefined,
    Null,
    Bool(bool),
    /// A whole number from -9007199254740991 to 9007199254740991.
    Number(i64),
    Text(Units),
}

/// The name by which code calls it. Contracts call it `Primitive`, since a module of the prover has this one.
pub type Prim = Primitive;

impl Primitive {
    /// An equal value.
    pub fn copy(&self, alloc: Global) -> Result<Prim, AllocError>
        ensures { IfOk result (λ prim. prim ≡ self.now) }
    {
        match self {
            Prim::Undefined => Ok(Prim::Undefined),
            Prim::Null => Ok(Prim::Null),
            Prim::Bool(truth) => Ok(Prim::Bool(*truth)),
            Prim::Number(number) => Ok(Prim::Number(*number)),
            Prim::Text(units) => Ok(Prim::Text(units.copy(alloc)?)),
        }
    }
}

/// A list of primitive values, of which contracts see just the list.
#[derive(Debug, Drop)]
pub struct Prims {
    list: Items<Prim>,
}

impl Model for Prims {
    ghost use Rattle.std.specs.Prelude.{List};
    ghost use Rattle.es_outside.specs.declared.primitive.Primitive.{Primitive};

    ghost Value = { List Primitive };

    ghost view = { λ prims. prims.list };
}

impl Prims {
    /// The list of these values.
    pub fn of(list: Vec<Prim>) -> Prims
        ensures { result ≡ list.items }
    {
        Prims {
            list: Items::from_vec(list),
        }
    }

    /// The list of values equal to these.
    pub fn copy_of(alloc: Global, prims: &[Prim]) -> Result<Prims, AllocError>
        ensures { IfOk result (λ copy. copy ≡ prims.now) }
    {
        let mut list = Items::new(alloc);
        for prim in prims {
            list.push(prim.copy(alloc)?)?;
        }
        Ok(Prims { list })
    }

    /// The values.
    pub fn list(&self) -> &[Prim]
        ensures { result.now ≡ self.now }
    {
        self.list.as_slice()
    }
}
