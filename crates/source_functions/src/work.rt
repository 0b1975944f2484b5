//! What functions leave pending.

ghost use Rattle.std.specs.Prelude.{◌≡◌};

use es_value::Value;
use es6_ast::{Parameter, Pattern};
use source_moves::PendingWork;
use source_state::{Node, Nodes};
use sqlite_items::Items;

/// The work that functions push.
pub trait FunctionWork<'a>: PendingWork<'a> {
    ghost use Rattle.source_state.specs.declared.work.Work.TheVariants as work;

    /// The default of a parameter, and the parameters and arguments behind it.
    fn parameter_default(
        pattern: Node<'a, Pattern>,
        parameters: Nodes<'a, Parameter>,
        values: Items<Value>,
    ) -> Self
        ensures { Self.seen result ≡ work.ParameterDefault pattern.entry parameters.entry values };

    /// The parameters and arguments behind one.
    fn parameters_rest(parameters: Nodes<'a, Parameter>, values: Items<Value>) -> Self
        ensures { Self.seen result ≡ work.ParametersRest parameters.entry values };

    /// The value of an arrow, or of `return`.
    fn returning() -> Self
        ensures { Self.seen result ≡ work.Returning };
}
