//! Bindings that are looked up by a key.

ghost use Rattle.std.specs.Prelude.{◌≡◌, ℕ, map, IfOk};
ghost use Rattle.std.specs.List.Sorted.{IsNonDecreasingBy};
ghost use Rattle.binding_tables.specs.Rows.{any_row, rows_of};
ghost use Rattle.binding_tables.specs.Sorted.{IsRange};
ghost use Rattle.binding_tables.specs.declared.ids.Row.{Row};

use crate::ids::{BindingId, Row};
use std::alloc::{AllocError, Global};
use std::marker::Model;

/// Rows by their keys, of which contracts see the list, and their bindings in the same order.
#[derive(Drop)]
pub struct Table {
    rows: Vec<Row>,
    bindings: Vec<BindingId>,
}

impl Model for Table {
    ghost use Rattle.std.specs.Prelude.{List};
    ghost use Rattle.binding_tables.specs.declared.ids.Row.{Row};
    ghost use Rattle.binding_tables.specs.Sorted.{IsTable};

    ghost Value = { List Row };

    ghost view = { λ t. t.rows.items };

    ghost invariant = { λ t. IsTable t.rows.items t.bindings.items };
}

impl Table {
    /// The table of these rows: each key has the same bindings, in the same order.
    pub fn of(alloc: Global, rows: Vec<Row>) -> Result<Table, AllocError>
        ensures { IfOk result (λ table. (key : ℕ) → rows_of key table ≡ rows_of key rows.items) }
    {
        let mut rows = rows;
        rows.sort_by_key(|row| row.key)?;
        let bindings = bindings_of(alloc, rows.as_slice())?;
        Ok(Table { rows, bindings })
    }

    /// The bindings of a key.
    pub fn at(&self, key: usize) -> &[BindingId]
        ensures { result.now ≡ rows_of key self.now }
    {
        let (begin, end) = range_of(self.rows.as_slice(), key);
        let (front, _above) = self.bindings.as_slice().split_at(end);
        let (_below, bindings) = front.split_at(begin);
        bindings
    }

    /// Whether a key has a binding.
    pub fn has(&self, key: usize) -> bool
        ensures { result ≡ any_row key self.now }
    {
        !self.at(key).is_empty()
    }
}

/// The bindings of rows.
fn bindings_of(alloc: Global, rows: &[Row]) -> Result<Vec<BindingId>, AllocError>
    ensures { IfOk result (λ bindings. bindings.items ≡ map (λ r. r.binding) rows.now) }
{
    let mut bindings = Vec::new(alloc);
    for row in rows {
        bindings.push(row.binding)?;
    }
    Ok(bindings)
}

/// Where the rows of a key begin and end.
fn range_of(rows: &[Row], key: usize) -> (usize, usize)
    requires { IsNonDecreasingBy (λ (r : Row). r.key) rows.now }
    ensures { IsRange rows.now key result.0 result.1 }
{
    let begin = rows.partition_point(|row| row.key < key);
    let end = rows.partition_point(|row| row.key <= key);
    (begin, end)
}
