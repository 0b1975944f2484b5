//! The nodes of statements that hold no declaration.

ghost use Rattle.std.specs.Prelude.{[], ◌++◌, ◌∷◌, ◌≡◌, IfOk, List, None, OnOk, Some};
ghost use Rattle.es6_ast.specs.declared.tree.Block.{Block, roll-Block};
ghost use Rattle.es6_ast.specs.declared.tree.Case.{Case, roll-Case};
ghost use Rattle.es6_ast.specs.declared.tree.Condition.{Condition, roll-Condition};
ghost use Rattle.es6_ast.specs.declared.tree.Expression.TheVariants as expr;
ghost use Rattle.es6_ast.specs.declared.tree.Statement.TheVariants as stat;
ghost use Rattle.es6_ast.specs.declared.tree.Statement.{Statement};

use crate::readings::{MakesOptionals, MakesReadings};
use es_text::Span;
use es6_ast::Identifier;
use std::alloc::{AllocError, Global};

/// Makes statements that hold names and statements at most (ECMA-262, 6th edition, 13).
pub trait MakesSimpleStatements {
    type Statement: Drop;

    ghost seen_statement: { Self.Statement → Statement };

    /// 13.4
    fn empty(span: Span) -> Self::Statement
        ensures { Self.seen_statement result ≡ stat.Empty span };

    /// A name alone as a statement (13.5).
    fn name_statement(span: Span, name: Identifier) -> Self::Statement
        ensures { Self.seen_statement result ≡ stat.Expression span (expr.Name name.span name.name) };

    /// 13.8
    fn continue_statement(span: Span, label: Option<Identifier>) -> Self::Statement
        ensures { Self.seen_statement result ≡ stat.Continue span label };

    /// 13.9
    fn break_statement(span: Span, label: Option<Identifier>) -> Self::Statement
        ensures { Self.seen_statement result ≡ stat.Break span label };

    /// 13.13
    fn labelled(
        alloc: Global,
        span: Span,
        label: Identifier,
        body: Self::Statement,
    ) -> Result<Self::Statement, AllocError>
        ensures { IfOk result (λ made. Self.seen_statement made ≡ stat.Labelled span label (Self.seen_statement body)) };

    /// 13.16
    fn debugger(span: Span) -> Self::Statement
        ensures { Self.seen_statement result ≡ stat.Debugger span };
}

/// Makes lists of statements (13.2).
pub trait MakesStatementLists: MakesSimpleStatements {
    type Statements: Drop;

    ghost seen_statements: { Self.Statements → List Statement };

    fn no_statements(alloc: Global) -> Self::Statements
        ensures { Self.seen_statements result ≡ [] };

    fn push_statement(
        alloc: Global,
        list: &mut Self::Statements,
        statement: Self::Statement,
    ) -> Result<(), AllocError>
        ensures { OnOk result (Self.seen_statements list.new ≡ Self.seen_statements list.old ++ Self.seen_statement statement ∷ []) };
}

/// Makes blocks (13.2).
pub trait MakesBlocks: MakesStatementLists {
    type Block: Drop;

    ghost seen_block: { Self.Block → Block };

    /// 13.2
    fn block(span: Span, statements: Self::Statements) -> Self::Block
        ensures { Self.seen_block result ≡ roll-Block (record { span = span; statements = Self.seen_statements statements }) };

    /// 13.2
    fn block_statement(block: Self::Block) -> Self::Statement
        ensures { Self.seen_statement result ≡ stat.Block (Self.seen_block block) };
}

/// Makes statements that hold an expression (13.5, 13.7, 13.14).
pub trait MakesExpressionStatements: MakesReadings + MakesSimpleStatements {
    /// 13.5
    fn expression_statement(span: Span, value: Self::Reading) -> Self::Statement
        ensures { Self.seen_statement result ≡ stat.Expression span (Self.seen value).value };

    /// 13.7.2
    fn do_while(
        alloc: Global,
        span: Span,
        body: Self::Statement,
        test: Self::Reading,
    ) -> Result<Self::Statement, AllocError>
        ensures { IfOk result (λ made. Self.seen_statement made ≡ stat.DoWhile span (Self.seen_statement body) (Self.seen test).value) };

    /// 13.7.3
    fn while_statement(
        alloc: Global,
        span: Span,
        test: Self::Reading,
        body: Self::Statement,
    ) -> Result<Self::Statement, AllocError>
        ensures { IfOk result (λ made. Self.seen_statement made ≡ stat.While span (Self.seen test).value (Self.seen_statement body)) };

    /// 13.14
    fn throw(span: Span, value: Self::Reading) -> Self::Statement
        ensures { Self.seen_statement result ≡ stat.Throw span (Self.seen value).value };
}

/// Makes returns (13.10).
pub trait MakesReturns: MakesOptionals + MakesSimpleStatements {
    /// 13.10
    fn return_statement(span: Span, value: Self::Optional) -> Self::Statement
        ensures { Self.seen_statement result ≡ stat.Return span (Self.seen_optional value) };
}

/// Makes if statements (13.6).
pub trait MakesConditions: MakesExpressionStatements {
    type Condition: Drop;

    type Conditions: Drop;

    ghost seen_condition: { Self.Condition → Condition };

    ghost seen_conditions: { Self.Conditions → List Condition };

    /// 13.6
    fn condition(
        alloc: Global,
        span: Span,
        test: Self::Reading,
        body: Self::Statement,
    ) -> Result<Self::Condition, AllocError>
        ensures { IfOk result (λ made. Self.seen_condition made ≡ roll-Condition (record { span = span; test = (Self.seen test).value; body = Self.seen_statement body })) };

    fn no_conditions(alloc: Global) -> Self::Conditions
        ensures { Self.seen_conditions result ≡ [] };

    fn push_condition(
        list: &mut Self::Conditions,
        condition: Self::Condition,
    ) -> Result<(), AllocError>
        ensures { OnOk result (Self.seen_conditions list.new ≡ Self.seen_conditions list.old ++ Self.seen_condition condition ∷ []) };

    fn if_statement(span: Span, first: Self::Condition, more: Self::Conditions) -> Self::Statement
        ensures { Self.seen_statement result ≡ stat.If span (Self.seen_condition first) (Self.seen_conditions more) None };

    fn if_else(
        alloc: Global,
        span: Span,
        first: Self::Condition,
        more: Self::Conditions,
        otherwise: Self::Statement,
    ) -> Result<Self::Statement, AllocError>
        ensures { IfOk result (λ made. Self.seen_statement made ≡ stat.If span (Self.seen_condition first) (Self.seen_conditions more) (Some (Self.seen_statement otherwise))) };
}

/// Makes switch statements (13.12).
pub trait MakesCases: MakesOptionals + MakesStatementLists {
    type Case: Drop;

    type Cases: Drop;

    ghost seen_case: { Self.Case → Case };

    ghost seen_cases: { Self.Cases → List Case };

    /// 13.12
    fn case(span: Span, test: Self::Optional, body: Self::Statements) -> Self::Case
        ensures { Self.seen_case result ≡ roll-Case (record { span = span; test = Self.seen_optional test; body = Self.seen_statements body }) };

    fn no_cases(alloc: Global) -> Self::Cases
        ensures { Self.seen_cases result ≡ [] };

    fn push_case(list: &mut Self::Cases, case: Self::Case) -> Result<(), AllocError>
        ensures { OnOk result (Self.seen_cases list.new ≡ Self.seen_cases list.old ++ Self.seen_case case ∷ []) };

    fn switch(span: Span, subject: Self::Reading, cases: Self::Cases) -> Self::Statement
        ensures { Self.seen_statement result ≡ stat.Switch span (Self.seen subject).value (Self.seen_cases cases) };
}
