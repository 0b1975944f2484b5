//! The work of statements and loops, by what makes it.

ghost use Rattle.std.specs.Prelude.{◌≡◌};

use core_state::Environment;
use es_value::Value;
use es6_ast::{Block, Case, Catch, Condition, Part, Pattern, Statement, VariableKind};
use source_functions::FunctionWork;
use source_patterns::PatternWork;
use source_state::{Completion, ForOfLoop, Loop, Node, Nodes};
use sqlite_items::Boxed;

/// Pending work that statements leave too, with a maker for each kind.
pub trait StatementWork<'a>: PatternWork<'a> + FunctionWork<'a> {
    ghost use Rattle.source_state.specs.declared.work.Work.TheVariants as work;

    /// The scope outside is taken again (ECMA-262, 6th edition, 13.2.13).
    fn restore(environment: Environment) -> Self
        ensures { Self.seen result ≡ work.Restore environment };

    /// The initializer of a variable, and the variables that follow (13.3.1.4, 13.3.2.4).
    fn variable_value(
        kind: VariableKind,
        pattern: Node<'a, Pattern>,
        parts: Nodes<'a, Part>,
    ) -> Self
        ensures { Self.seen result ≡ work.VariableValue kind pattern.entry parts.entry };

    fn variables_rest(kind: VariableKind, parts: Nodes<'a, Part>) -> Self
        ensures { Self.seen result ≡ work.VariablesRest kind parts.entry };

    /// The test of a condition, whose statement is chosen by it (13.6.7).
    fn chosen(
        body: Node<'a, Boxed<Statement>>,
        conditions: Nodes<'a, Condition>,
        otherwise: Option<Node<'a, Boxed<Statement>>>,
    ) -> Self
        ensures { Self.seen result ≡ work.Chosen body.entry conditions.entry otherwise.entry };

    /// The test of a case (13.12.9).
    fn matching(subject: Value, cases: Nodes<'a, Case>, all: Nodes<'a, Case>) -> Self
        ensures { Self.seen result ≡ work.Matching subject cases.entry all.entry };

    fn switch_body() -> Self
        ensures { Self.seen result ≡ work.SwitchBody };

    /// A block with a catch, that catch's own block, and a block with a finally (13.15).
    fn catching(catch: Node<'a, Catch>) -> Self
        ensures { Self.seen result ≡ work.Catching catch.entry };

    fn catch_block(block: Node<'a, Block>) -> Self
        ensures { Self.seen result ≡ work.CatchBlock block.entry };

    fn finishing(last: Node<'a, Block>) -> Self
        ensures { Self.seen result ≡ work.Finishing last.entry };

    /// What a finally stands in the way of.
    fn pending(completion: Completion<'a>) -> Self
        ensures { Self.seen result ≡ work.Pending completion.entry };

    /// What begins a loop, its test, its body, and its update (13.7.4.8).
    fn loop_begin(of: Loop<'a>) -> Self
        ensures { Self.seen result ≡ work.LoopBegin of.entry };

    fn loop_test(of: Loop<'a>) -> Self
        ensures { Self.seen result ≡ work.LoopTest of.entry };

    fn loop_body(of: Loop<'a>) -> Self
        ensures { Self.seen result ≡ work.LoopBody of.entry };

    fn loop_update(of: Loop<'a>) -> Self
        ensures { Self.seen result ≡ work.LoopUpdate of.entry };

    /// The subject of a for-of loop, its iterator, a step, a value, the binding of its head, and its body (13.7.5.13).
    fn for_of_subject(of: ForOfLoop<'a>) -> Self
        ensures { Self.seen result ≡ work.ForOfSubject of.entry };

    fn for_of_iterator(of: ForOfLoop<'a>) -> Self
        ensures { Self.seen result ≡ work.ForOfIterator of.entry };

    fn for_of_step(of: ForOfLoop<'a>, iterator: Value) -> Self
        ensures { Self.seen result ≡ work.ForOfStep of.entry iterator };

    fn for_of_value(of: ForOfLoop<'a>, iterator: Value) -> Self
        ensures { Self.seen result ≡ work.ForOfValue of.entry iterator };

    fn for_of_bound(body: Node<'a, Boxed<Statement>>) -> Self
        ensures { Self.seen result ≡ work.ForOfBound body.entry };

    fn for_of_body(of: ForOfLoop<'a>, iterator: Value) -> Self
        ensures { Self.seen result ≡ work.ForOfBody of.entry iterator };
}
