//! Expressions, each by its kind.

ghost use Rattle.lower_walk.specs.Handed.{done_at, HasExpressions, HasFunctions, HasPatterns, HasStatements};
ghost use Rattle.module_lowering.specs.Lowered.{expression_lowered};
ghost use Rattle.module_lowering.specs.Lowering.{Lowers};

use crate::expressions::Expressions;
use crate::values::literal;
use core_ast::{CoreExpr, CoreStat, FunctionId, undefined};
use es6_ast::{Expression, Function, Pattern, Statement};
use lower_chains::{lower_chain, lower_new_target, lower_super_index, lower_super_member};
use lower_walk::{Around, Here};
use lowering_rules::reference_rules::Reached;
use module_lowering::{FunctionForm, Lowerer, Role};
use sqlite_items::Items;
use std::alloc::AllocError;

impl<
    E: Fn(Around, &Expression, &mut Lowerer) -> Result<Reached, AllocError>,
    P: Fn(Around, &Pattern, Role, CoreExpr, &mut Lowerer) -> Result<Items<CoreStat>, AllocError>,
    S,
    F,
> Expressions<'_, E, P, S, F> {
    /// Assignments, sequences and yields, the last kinds (12.14, 12.15, 14.4.14). No other expression comes here.
    #[tactic(auto, unfolding(module_lowering::specs::Lowered::expression_lowered, module_lowering::specs::Lowered::pattern_lowered))]
    fn outermost(&self, expression: &Expression, state: &mut Lowerer) -> Result<Reached, AllocError>
        requires expressions { HasExpressions E.pre E.post self.now.here }
        requires patterns { HasPatterns P.pre P.post self.now.here }
        ensures { Lowers (done_at self.now.here.around (expression_lowered expression.now).reached state.old) result state.new }
    {
        match expression {
            Expression::Assign {
                operator,
                target,
                value,
                ..
            } => self.assignment(*operator, target, value.get(), state),
            Expression::Sequence { first, rest, .. } => {
                self.sequence(first.get(), rest.as_slice(), state)
            }
            Expression::Yield { value, .. } => self.yielded(value, state),
            Expression::Delegate { value, .. } => self.delegated(value.get(), state),
            _ => Err(AllocError),
        }
    }

    /// Operators (12.4 to 12.13).
    #[tactic(auto, unfolding(module_lowering::specs::Lowered::expression_lowered, module_lowering::specs::Lowered::operand_lowered))]
    fn operation(&self, expression: &Expression, state: &mut Lowerer) -> Result<Reached, AllocError>
        requires expressions { HasExpressions E.pre E.post self.now.here }
        requires patterns { HasPatterns P.pre P.post self.now.here }
        ensures { Lowers (done_at self.now.here.around (expression_lowered expression.now).reached state.old) result state.new }
    {
        match expression {
            Expression::Update {
                operator,
                target,
                ..
            } => self.update(*operator, target.get(), state),
            Expression::Unary {
                operator,
                operand,
                ..
            } => self.unary(*operator, operand.get(), state),
            Expression::Power { base, exponent, .. } => {
                self.power(base.get(), exponent.get(), state)
            }
            Expression::Binary { first, rest, .. } => {
                self.binary(first.get(), rest.as_slice(), state)
            }
            Expression::Conditional { test, yes, no, .. } => {
                self.conditional(test.get(), yes.get(), no.get(), state)
            }
            _ => self.outermost(expression, state),
        }
    }

    /// Chains, `new`, `super` and `new.target` (12.3).
    #[tactic(auto, unfolding(module_lowering::specs::Lowered::argument_lowered, module_lowering::specs::Lowered::expression_lowered, module_lowering::specs::Lowered::link_lowered))]
    fn access(&self, expression: &Expression, state: &mut Lowerer) -> Result<Reached, AllocError>
        requires expressions { HasExpressions E.pre E.post self.now.here }
        requires patterns { HasPatterns P.pre P.post self.now.here }
        ensures { Lowers (done_at self.now.here.around (expression_lowered expression.now).reached state.old) result state.new }
    {
        match expression {
            Expression::Chain { span, head, links } => {
                lower_chain(&self.here, span.begin, head.get(), links.as_slice(), state)
            }
            Expression::SuperMember { name, .. } => lower_super_member(&self.here, name, state),
            Expression::SuperIndex { index, .. } => {
                lower_super_index(&self.here, index.get(), state)
            }
            Expression::SuperCall { arguments, .. } => {
                self.super_called(arguments.as_slice(), state)
            }
            Expression::NewTarget { .. } => Ok(Reached::Value(lower_new_target(&self.here))),
            Expression::New {
                span,
                callee,
                arguments,
            } => self.new(span.begin, callee.get(), arguments.as_slice(), state),
            _ => self.operation(expression, state),
        }
    }
}

impl<
    E: Fn(Around, &Expression, &mut Lowerer) -> Result<Reached, AllocError>,
    P: Fn(Around, &Pattern, Role, CoreExpr, &mut Lowerer) -> Result<Items<CoreStat>, AllocError>,
    S: Fn(Around, &Statement, &mut Lowerer) -> Result<Items<CoreStat>, AllocError>,
    F: Fn(Around, &Function, FunctionForm, &mut Lowerer) -> Result<FunctionId, AllocError>,
> Expressions<'_, E, P, S, F> {
    /// Templates, arrays, objects, functions and classes (12.2.5 to 12.2.9, 14).
    #[tactic(auto, unfolding(module_lowering::specs::Lowered::arrow_lowered, module_lowering::specs::Lowered::class_lowered, module_lowering::specs::Lowered::element_lowered, module_lowering::specs::Lowered::expression_lowered, module_lowering::specs::Lowered::function_lowered, module_lowering::specs::Lowered::property_lowered, module_lowering::specs::Lowered::template_lowered))]
    fn made(&self, expression: &Expression, state: &mut Lowerer) -> Result<Reached, AllocError>
        requires expressions { HasExpressions E.pre E.post self.now.here }
        requires patterns { HasPatterns P.pre P.post self.now.here }
        requires statements { HasStatements S.pre S.post self.now.here }
        requires functions { HasFunctions F.pre F.post self.now.here }
        ensures { Lowers (done_at self.now.here.around (expression_lowered expression.now).reached state.old) result state.new }
    {
        match expression {
            Expression::Template(template) => self.template(template, state),
            Expression::ArrayList { elements, .. } => self.array(elements.as_slice(), state),
            Expression::ObjectList { properties, .. } => self.object(properties.as_slice(), state),
            Expression::Function(function) => self.function(function.get(), state),
            Expression::Arrow(arrow) => self.arrow(arrow.get(), state),
            Expression::Class(class) => self.class(class.get(), state),
            _ => self.access(expression, state),
        }
    }

    /// `this`, names, literals and parentheses (12.1, 12.2).
    #[tactic(auto, unfolding(module_lowering::specs::Lowered::expression_lowered))]
    fn reached(&self, expression: &Expression, state: &mut Lowerer) -> Result<Reached, AllocError>
        requires expressions { HasExpressions E.pre E.post self.now.here }
        requires patterns { HasPatterns P.pre P.post self.now.here }
        requires statements { HasStatements S.pre S.post self.now.here }
        requires functions { HasFunctions F.pre F.post self.now.here }
        ensures { Lowers (done_at self.now.here.around (expression_lowered expression.now).reached state.old) result state.new }
    {
        match expression {
            Expression::This { .. } => self.this(state),
            Expression::Name { span, name } => self.name(span.begin, name, state),
            Expression::Literal {
                literal: source,
                ..
            } => literal(self.here.around.alloc, source),
            Expression::Group { held, .. } => self.here.reached(held.get(), state),
            Expression::Cover { .. } => Ok(Reached::Value(undefined(self.here.around.alloc))),
            _ => self.made(expression, state),
        }
    }
}

/// What an expression comes to: the walker of expressions, by those of what stands inside the expression.
pub fn lower_reached<
    E: Fn(Around, &Expression, &mut Lowerer) -> Result<Reached, AllocError>,
    P: Fn(Around, &Pattern, Role, CoreExpr, &mut Lowerer) -> Result<Items<CoreStat>, AllocError>,
    S: Fn(Around, &Statement, &mut Lowerer) -> Result<Items<CoreStat>, AllocError>,
    F: Fn(Around, &Function, FunctionForm, &mut Lowerer) -> Result<FunctionId, AllocError>,
>(
    here: &Here<'_, E, P, S, F>,
    expression: &Expression,
    state: &mut Lowerer,
) -> Result<Reached, AllocError>
    requires expressions { HasExpressions E.pre E.post here.now }
    requires patterns { HasPatterns P.pre P.post here.now }
    requires statements { HasStatements S.pre S.post here.now }
    requires functions { HasFunctions F.pre F.post here.now }
    ensures { Lowers (done_at here.now.around (expression_lowered expression.now).reached state.old) result state.new }
{
    let arms = Expressions { here: *here };
    arms.reached(expression, state)
}
