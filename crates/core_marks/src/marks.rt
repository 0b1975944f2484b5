//! Values that no program sees, and what contexts keep.

ghost use Rattle.std.specs.Prelude.{◌≡◌, IfOk};

use core_ast::{FunctionId, Var};
use es_calls::{Resumption, share_all};
use es_value::Value;
use sqlite_items::Items;
use std::alloc::{AllocError, Global};

/// A value that no program sees.
#[derive(Drop)]
pub enum Mark {
    /// an uninitialized name (ECMA-262, 6th edition, 8.1.1)
    Empty,
    /// a list of arguments (6.2.1)
    Arguments(Items<Value>),
    Cell(usize),
    /// the function of a class that isn't made yet
    Unmade(FunctionId),
    /// what a generator is resumed with (25.3.3.3, 25.3.3.4)
    Resumed(Resumption, Value),
}

impl Mark {
    /// An equal mark.
    pub fn share(&self, alloc: Global) -> Result<Mark, AllocError>
        ensures { IfOk result (λ mark. mark ≡ self.now) }
    {
        match self {
            Mark::Empty => Ok(Mark::Empty),
            Mark::Arguments(values) => Ok(Mark::Arguments(share_all(alloc, values.as_slice())?)),
            Mark::Cell(number) => Ok(Mark::Cell(*number)),
            Mark::Unmade(function) => Ok(Mark::Unmade(*function)),
            Mark::Resumed(kind, value) => Ok(Mark::Resumed(*kind, value.share()?)),
        }
    }
}

/// A name that holds a cell, by its number.
#[derive(Clone, Copy, Debug, PartialEq, Eq)]
pub struct KeptCell {
    pub var: Var,
    pub cell: usize,
}

/// What a context keeps (8.3, 8.1.1.3): the number of the record that has its `this`, the function, its `new.target` and home
/// object, and all its arguments. A closure keeps the home object and the cells that were there when it was made, and that of an
/// arrow all of it.
#[derive(Drop)]
pub struct Own {
    pub this_record: usize,
    pub callee: Value,
    pub target: Value,
    pub home: Value,
    pub passed: Items<Value>,
    pub cells: Items<KeptCell>,
}
