//! Which names an exported declaration declares.

use es6_ast::Statement;
use shared_text::Name;
use sqlite_items::Items;
use std::alloc::{AllocError, Global};

/// What finds the names that a declaration declares. The walk over statements that does so is the early errors'; it is handed in, so
/// that linking is proved apart from it.
pub trait Declares {
    ghost use Rattle.std.specs.Prelude.{◌≡◌, IfOk};
    ghost use Rattle.module_summaries.specs.Parts.{declared_names};

    /// The names, in text order.
    fn declared(alloc: Global, statement: &Statement) -> Result<Items<Name>, AllocError>
        ensures { IfOk result (λ names. names ≡ declared_names statement.now) };
}
