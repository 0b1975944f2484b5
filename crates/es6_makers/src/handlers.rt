//! The nodes of try statements (ECMA-262, 6th edition, 13.15).

ghost use Rattle.std.specs.Prelude.{◌≡◌, IfOk, None, Some};
ghost use Rattle.es6_ast.specs.declared.tree.Catch.{Catch, roll-Catch};
ghost use Rattle.es6_ast.specs.declared.tree.Statement.TheVariants as stat;

use crate::patterns::MakesBindings;
use crate::statements::MakesBlocks;
use es_text::Span;
use std::alloc::{AllocError, Global};

/// Makes try statements.
pub trait MakesTries: MakesBlocks {
    type Catch: Drop;

    ghost seen_catch: { Self.Catch → Catch };

    fn try_catch(span: Span, tried: Self::Block, catch: Self::Catch) -> Self::Statement
        ensures { Self.seen_statement result ≡ stat.Try span (Self.seen_block tried) (Some (Self.seen_catch catch)) None };

    fn try_catch_finally(
        span: Span,
        tried: Self::Block,
        catch: Self::Catch,
        finally: Self::Block,
    ) -> Self::Statement
        ensures { Self.seen_statement result ≡ stat.Try span (Self.seen_block tried) (Some (Self.seen_catch catch)) (Some (Self.seen_block finally)) };

    fn try_finally(span: Span, tried: Self::Block, finally: Self::Block) -> Self::Statement
        ensures { Self.seen_statement result ≡ stat.Try span (Self.seen_block tried) None (Some (Self.seen_block finally)) };
}

/// Makes what is caught.
pub trait MakesCatches: MakesTries + MakesBindings {
    /// 13.15
    fn catch(
        alloc: Global,
        span: Span,
        parameter: Self::Pattern,
        body: Self::Block,
    ) -> Result<Self::Catch, AllocError>
        ensures { IfOk result (λ made. Self.seen_catch made ≡ roll-Catch (record { span = span; parameter = Self.seen_pattern parameter; body = Self.seen_block body })) };
}
