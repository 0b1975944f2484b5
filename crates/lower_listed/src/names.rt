//! Names where they stand, borrowed from a tree (ECMA-262, 6th edition, 12.1).

ghost use Rattle.std.specs.Prelude.{◌≡◌, IfOk};
ghost use Rattle.module_lowering.specs.Lowered.{expression_lowered};
ghost use Rattle.module_lowering.specs.Names.{places};

use es_text::Span;
use es6_ast::{Expression, Identifier};
use lower_walk::lower_names::ListsName;
use shared_text::Name;
use sqlite_items::Items;
use std::alloc::{AllocError, Global};
use std::marker::Model;

/// A name where it stands, seen as an identifier.
#[derive(Drop)]
pub struct NamedAt<'a> {
    pub span: Span,
    pub name: &'a Name,
}

impl<'a> Model for NamedAt<'a> {
    ghost use Rattle.es6_ast.specs.declared.tree.Identifier.{Identifier};

    ghost Value = { Identifier };

    ghost view = { λ x. record { span = x.span; name = x.name.now } };
}

impl<'a> NamedAt<'a> {
    /// The name of an identifier.
    pub fn of(identifier: &'a Identifier) -> NamedAt<'a>
        ensures { result ≡ identifier.now }
    {
        NamedAt {
            span: identifier.span,
            name: &identifier.name,
        }
    }
}

impl<'a> ListsName for NamedAt<'a> {
    ghost identifier = { λ x. x };

    fn begin(&self) -> u32 {
        self.span.begin
    }

    fn bytes(&self) -> &[u8] {
        self.name.bytes()
    }
}

/// The name that an expression is, in parentheses too (12.2).
#[tactic(auto, unfolding(module_lowering::specs::Lowered::expression_lowered))]
pub fn expression_name<'a>(expression: &'a Expression) -> Option<NamedAt<'a>>
    ensures { result ≡ (expression_lowered expression.now).name }
{
    match expression {
        Expression::Name { span, name } => Some(NamedAt { span: *span, name }),
        Expression::Group { held, .. } => expression_name(held.get()),
        _ => None,
    }
}

/// Where names begin, offsets in bytes.
pub fn name_places(alloc: Global, names: &[NamedAt]) -> Result<Items<u32>, AllocError>
    ensures { IfOk result (λ ats. ats ≡ places names.now) }
{
    let mut ats = Items::new(alloc);
    for name in names {
        ats.push(name.begin())?;
    }
    Ok(ats)
}
