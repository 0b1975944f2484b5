//! Property names that are evaluated, and kinds of methods (ECMA-262, 6th edition, 12.2.6, 12.3.2 and 14.3).

ghost use Rattle.std.specs.Prelude.{◌≡◌, codes, map};
ghost use Rattle.lower_walk.specs.Handed.{done_at, HasExpressions};
ghost use Rattle.module_lowering.specs.Expressions.{are_iterator, indexed, is_text, is_word, place_if};
ghost use Rattle.module_lowering.specs.Lowered.{expression_lowered, link_lowered};
ghost use Rattle.module_lowering.specs.Lowering.{Lowers};
ghost use Rattle.module_lowering.specs.Patterns.{member_form, member_kind};

use crate::around::Around;
use crate::here::Here;
use es6_ast::{Expression, Link, MethodKind};
use lowering_rules::MemberKind;
use lowering_rules::reference_rules::{MemberName, Reached};
use module_lowering::{FunctionForm, Lowerer};
use std::alloc::AllocError;

/// Whether an expression is the name `Symbol`.
#[tactic(auto, unfolding(module_lowering::specs::Lowered::expression_lowered))]
fn is_symbol(expression: &Expression) -> bool
    ensures { result ≡ is_text (codes "Symbol") (expression_lowered expression.now).bare }
{
    match expression {
        Expression::Name { name, .. } => name.bytes() == b"Symbol".as_slice(),
        _ => false,
    }
}

/// Where a name begins, an offset in bytes, if the expression is one and the test holds.
#[tactic(auto, unfolding(module_lowering::specs::Lowered::expression_lowered))]
fn place_if(test: bool, expression: &Expression) -> Option<u32>
    ensures { result ≡ place_if test (expression_lowered expression.now).bare }
{
    if !test {
        return None;
    }
    match expression {
        Expression::Name { span, .. } => Some(span.begin),
        _ => None,
    }
}

#[tactic(auto, unfolding(module_lowering::specs::Lowered::link_lowered))]
fn is_iterator(link: &Link) -> bool
    ensures { result ≡ is_word (codes "iterator") (link_lowered link.now).member }
{
    match link {
        Link::Member { name, .. } => name.name.bytes() == b"iterator".as_slice(),
        _ => false,
    }
}

#[tactic(auto, using(crate::proofs::SymbolLaws::iterator_alone, crate::proofs::SymbolLaws::iterator_among, crate::proofs::SymbolLaws::no_iterator))]
fn are_iterator(links: &[Link]) -> bool
    ensures { result ≡ are_iterator (map link_lowered links.now) }
{
    match links.split_first() {
        None => false,
        Some((first, rest)) => rest.is_empty() && is_iterator(first),
    }
}

/// Where `Symbol` stands in `Symbol.iterator`, an offset in bytes, if the expression is that.
#[tactic(auto, unfolding(module_lowering::specs::Lowered::expression_lowered, module_lowering::specs::Lowered::link_lowered))]
pub fn symbol_of(expression: &Expression) -> Option<u32>
    ensures { result ≡ (expression_lowered expression.now).symbol }
{
    match expression {
        Expression::Chain { head, links, .. } => {
            let head = head.get();
            place_if(is_symbol(head) & are_iterator(links.as_slice()), head)
        }
        _ => None,
    }
}

impl<E: Fn(Around, &Expression, &mut Lowerer) -> Result<Reached, AllocError>, P, S, F> Here<
    '_,
    E,
    P,
    S,
    F,
> {
    /// What an expression in brackets names, which isn't evaluated where it is `Symbol.iterator` and no scope declares `Symbol`.
    pub fn indexed(
        &self,
        expression: &Expression,
        state: &mut Lowerer,
    ) -> Result<MemberName, AllocError>
        requires expressions { HasExpressions E.pre E.post self.now }
        ensures { Lowers (done_at self.now.around (indexed (expression_lowered expression.now)) state.old) result state.new }
    {
        if let Some(at) = symbol_of(expression) {
            if self.around.bindings.is_global(self.around.context, at) {
                return Ok(MemberName::AtIterator);
            }
        }
        Ok(MemberName::Indexed(self.value(expression, state)?))
    }
}

/// What kind of member a method is.
pub fn member_kind(kind: MethodKind) -> MemberKind
    ensures { result ≡ member_kind kind }
{
    match kind {
        MethodKind::PlainMethod | MethodKind::GeneratorMethod => MemberKind::Method,
        MethodKind::GetterMethod => MemberKind::Getter,
        MethodKind::SetterMethod => MemberKind::Setter,
    }
}

/// What the function of a method is there for.
pub fn member_form(kind: MethodKind) -> FunctionForm
    ensures { result ≡ member_form kind }
{
    match kind {
        MethodKind::PlainMethod | MethodKind::GeneratorMethod => FunctionForm::MethodForm,
        MethodKind::GetterMethod | MethodKind::SetterMethod => FunctionForm::AccessorForm,
    }
}
