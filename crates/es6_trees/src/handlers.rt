//! The trees of try statements (ECMA-262, 6th edition, 13.15).

use crate::Trees;
use es_text::Span;
use es6_ast::{Block, Catch, Pattern, Statement};
use es6_makers::{MakesCatches, MakesTries};
use sqlite_items::Boxed;
use std::alloc::{AllocError, Global};

impl MakesTries for Trees {
    type Catch = Boxed<Catch>;

    ghost seen_catch = { λ x. x };

    fn try_catch(span: Span, tried: Block, catch: Boxed<Catch>) -> Statement {
        Statement::Try {
            span,
            block: tried,
            catch: Some(catch),
            finally: None,
        }
    }

    fn try_catch_finally(
        span: Span,
        tried: Block,
        catch: Boxed<Catch>,
        finally: Block,
    ) -> Statement {
        Statement::Try {
            span,
            block: tried,
            catch: Some(catch),
            finally: Some(finally),
        }
    }

    fn try_finally(span: Span, tried: Block, finally: Block) -> Statement {
        Statement::Try {
            span,
            block: tried,
            catch: None,
            finally: Some(finally),
        }
    }
}

impl MakesCatches for Trees {
    fn catch(
        alloc: Global,
        span: Span,
        parameter: Pattern,
        body: Block,
    ) -> Result<Boxed<Catch>, AllocError> {
        Boxed::new(
            alloc,
            Catch {
                span,
                parameter,
                body,
            },
        )
    }
}
