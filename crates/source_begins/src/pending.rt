//! What nodes that begin leave pending.

ghost use Rattle.std.specs.Prelude.{◌≡◌};

use es6_ast::{Argument, Case, Expression, Item, UnaryOperator, UpdateOperator};
use source_expressions::ExpressionWork;
use source_lists::ListWork;
use source_objects::{ClassWork, ObjectWork};
use source_state::{BorrowedName, Node, Nodes, Statements};
use source_statements::StatementWork;

/// What is pending where a node begins: all that the areas push, and what the rows of nodes push besides.
pub trait BeginWork<'a>: ClassWork<'a>
    + ExpressionWork<'a>
    + ListWork<'a>
    + ObjectWork<'a>
    + StatementWork<'a> {
    ghost use Rattle.source_state.specs.declared.work.Work.TheVariants as work;

    /// The callee of `new` (ECMA-262, 6th edition, 12.3.3).
    fn new_callee(arguments: Nodes<'a, Argument>) -> Self
        ensures { Self.seen result ≡ work.NewCallee arguments.entry };

    /// A key in brackets behind `super`, and whether a reference is wanted (12.3.5).
    fn super_key(wanted: bool) -> Self
        ensures { Self.seen result ≡ work.SuperKey wanted };

    /// What `++` and `--` refer to (12.4, 12.5).
    fn update_reference(operator: UpdateOperator) -> Self
        ensures { Self.seen result ≡ work.UpdateReference operator };

    fn deleting() -> Self
        ensures { Self.seen result ≡ work.Deleting };

    fn unary_value(operator: UnaryOperator) -> Self
        ensures { Self.seen result ≡ work.UnaryValue operator };

    /// The base of a power, before its exponent.
    fn power_base(exponent: Node<'a, Expression>) -> Self
        ensures { Self.seen result ≡ work.PowerBase exponent.entry };

    /// The test of a conditional (12.13).
    fn branches(yes: Node<'a, Expression>, no: Node<'a, Expression>) -> Self
        ensures { Self.seen result ≡ work.Branches yes.entry no.entry };

    /// The value of `yield`, and where it goes on (14.4.14).
    fn yield_value() -> Self
        ensures { Self.seen result ≡ work.YieldValue };

    /// The value of `yield*`.
    fn delegating() -> Self
        ensures { Self.seen result ≡ work.Delegating };

    fn throwing() -> Self
        ensures { Self.seen result ≡ work.Throwing };

    /// The subject of `switch` (13.12.11).
    fn subject(cases: Nodes<'a, Case>) -> Self
        ensures { Self.seen result ≡ work.Subject cases.entry };

    fn labelling(label: BorrowedName<'a>) -> Self
        ensures { Self.seen result ≡ work.Labelling label.entry };

    /// The value of a name that is declared here.
    fn name_given(name: BorrowedName<'a>) -> Self
        ensures { Self.seen result ≡ work.NameGiven name.entry };

    /// The statements that follow one (13.2.13).
    fn statements_rest(statements: Statements<'a>) -> Self
        ensures { Self.seen result ≡ work.StatementsRest statements.entry };

    /// The items that follow one (15.2.1.20).
    fn items_rest(items: Nodes<'a, Item>) -> Self
        ensures { Self.seen result ≡ work.ItemsRest items.entry };
}
