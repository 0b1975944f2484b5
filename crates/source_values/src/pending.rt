//! What is pending where a value is handed to what takes it.

ghost use Rattle.std.specs.Prelude.{◌≡◌};

use es_value::Value;
use es6_ast::AssignOperator;
use source_expressions::ExpressionWork;
use source_lists::ListWork;
use source_objects::{ClassWork, ObjectWork};
use source_state::Reference;
use source_statements::StatementWork;

/// What is pending where a value is taken: all that the areas push, and what the rows of frames push besides.
pub trait ValueWork<'a>: ClassWork<'a>
    + ExpressionWork<'a>
    + ListWork<'a>
    + ObjectWork<'a>
    + StatementWork<'a> {
    ghost use Rattle.source_state.specs.declared.work.Work.TheVariants as work;

    fn power_exponent(base: Value) -> Self
        ensures { Self.seen result ≡ work.PowerExponent base };

    /// The right side of an assignment with an operator, beside the old value (12.14).
    fn assign_right(operator: AssignOperator, reference: Reference<'a>, old: Value) -> Self
        ensures { Self.seen result ≡ work.AssignRight operator reference.entry old };

    fn yielded() -> Self
        ensures { Self.seen result ≡ work.Yielded };
}
