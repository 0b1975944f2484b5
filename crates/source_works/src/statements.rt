//! What is pending in statements and loops.

use crate::holds::Holds;
use crate::pending::{Pending, of_body, of_end, of_loop, of_scope, of_statement};
use core_state::Environment;
use es_value::Value;
use es6_ast::{Block, Case, Catch, Condition, Part, Pattern, Statement, VariableKind};
use source_state::{Completion, ForOfLoop, Loop, Node, Nodes};
use source_statements::StatementWork;
use source_takers::{BodyTaker, EndTaker, LoopTaker, ScopeTaker, StatementTaker};
use sqlite_items::Boxed;

#[tactic(auto, unfolding(source_takers::specs::Takers::scope_work, source_takers::specs::Takers::statement_work, source_takers::specs::Takers::end_work, source_takers::specs::Takers::body_work, source_takers::specs::Takers::loop_work))]
impl<'a, H: Holds<'a>> StatementWork<'a> for Pending<H> {
    fn restore(environment: Environment) -> Pending<H> {
        of_scope(ScopeTaker::Restore(environment))
    }

    fn variable_value(
        kind: VariableKind,
        pattern: Node<'a, Pattern>,
        parts: Nodes<'a, Part>,
    ) -> Pending<H> {
        of_statement(StatementTaker::VariableValue(kind, pattern, parts))
    }

    fn variables_rest(kind: VariableKind, parts: Nodes<'a, Part>) -> Pending<H> {
        of_end(EndTaker::VariablesRest(kind, parts))
    }

    fn chosen(
        body: Node<'a, Boxed<Statement>>,
        conditions: Nodes<'a, Condition>,
        otherwise: Option<Node<'a, Boxed<Statement>>>,
    ) -> Pending<H> {
        of_statement(StatementTaker::Chosen(body, conditions, otherwise))
    }

    fn matching(subject: Value, cases: Nodes<'a, Case>, all: Nodes<'a, Case>) -> Pending<H> {
        of_statement(StatementTaker::Matching(subject, cases, all))
    }

    fn switch_body() -> Pending<H> {
        of_body(BodyTaker::SwitchBody)
    }

    fn catching(catch: Node<'a, Catch>) -> Pending<H> {
        of_body(BodyTaker::Catching(catch))
    }

    fn catch_block(block: Node<'a, Block>) -> Pending<H> {
        of_end(EndTaker::CatchBlock(block))
    }

    fn finishing(last: Node<'a, Block>) -> Pending<H> {
        of_body(BodyTaker::Finishing(last))
    }

    fn pending(completion: Completion<'a>) -> Pending<H> {
        of_end(EndTaker::Pending(completion))
    }

    fn loop_begin(of: Loop<'a>) -> Pending<H> {
        of_scope(ScopeTaker::LoopBegin(of))
    }

    fn loop_test(of: Loop<'a>) -> Pending<H> {
        of_loop(LoopTaker::LoopTest(of))
    }

    fn loop_body(of: Loop<'a>) -> Pending<H> {
        of_body(BodyTaker::LoopBody(of))
    }

    fn loop_update(of: Loop<'a>) -> Pending<H> {
        of_loop(LoopTaker::LoopUpdate(of))
    }

    fn for_of_subject(of: ForOfLoop<'a>) -> Pending<H> {
        of_loop(LoopTaker::ForOfSubject(of))
    }

    fn for_of_iterator(of: ForOfLoop<'a>) -> Pending<H> {
        of_loop(LoopTaker::ForOfIterator(of))
    }

    fn for_of_step(of: ForOfLoop<'a>, iterator: Value) -> Pending<H> {
        of_loop(LoopTaker::ForOfStep(of, iterator))
    }

    fn for_of_value(of: ForOfLoop<'a>, iterator: Value) -> Pending<H> {
        of_loop(LoopTaker::ForOfValue(of, iterator))
    }

    fn for_of_bound(body: Node<'a, Boxed<Statement>>) -> Pending<H> {
        of_end(EndTaker::ForOfBound(body))
    }

    fn for_of_body(of: ForOfLoop<'a>, iterator: Value) -> Pending<H> {
        of_body(BodyTaker::ForOfBody(of, iterator))
    }
}
