//! Functions, arrows and classes (ECMA-262, 6th edition, 14).

ghost use Rattle.std.specs.Prelude.{◌≡◌, ◌++◌, map, OnOk};
ghost use Rattle.es6_static_semantics.specs.Findings.{joined};
ghost use Rattle.scope_rules.specs.Marks.{arrow_body_marked, arrow_marked, body_scope, class_marked, class_marks, class_member_marked, declarators, declared_name, function_marked, in_head, own_scope, parameter_marked, statement_marked};
ghost use Rattle.scope_rules.specs.declared.kinds.Kind.TheVariants as kind;
ghost use Rattle.scope_rules.specs.declared.kinds.Role.TheVariants.{Declared};

use crate::expressions::{expression, optional_boxed};
use crate::objects::method;
use crate::patterns::{part, targets};
use crate::statements::{block_statements, statements};
use es6_ast::{Arrow, ArrowBody, Class, ClassMember, Function, Parameter, Statement};
use scope_heads::{begin_body, begin_function, begin_own, end_body, end_own, have_expression};
use scope_rules::{Kind, Marks, Role, ScopeKind};
use std::alloc::AllocError;

/// A function but for its name.
#[cycle(walk)]
#[tactic(auto, using(crate::proofs::Layers::function_out))]
pub(crate) fn function<'a>(marks: &mut Marks<'a>, node: &'a Function) -> Result<(), AllocError>
    ensures { OnOk result (marks.new ≡ marks.old ++ (function_marked node.now).marks) }
{
    begin_function(marks, node.span.begin)?;
    head(marks, node.parameters.as_slice())?;
    let is_own = have_expression(node.parameters.as_slice());
    body(marks, node.body.as_slice(), is_own, node.span.end)?;
    marks.end_scope()
}

/// A function expression, whose name is declared round it alone (14.1.20).
#[cycle(walk)]
#[tactic(auto, using(crate::proofs::Layers::function_parts, scope_heads::proofs::Rounds::own_around))]
pub(crate) fn own_function<'a>(marks: &mut Marks<'a>, node: &'a Function) -> Result<(), AllocError>
    ensures { OnOk result (marks.new ≡ marks.old ++ own_scope kind.OwnFunction (function_marked node.now).end (function_marked node.now).name (function_marked node.now).marks) }
{
    begin_own(marks, Kind::OwnFunction, node.span.end, &node.name)?;
    function(marks, node)?;
    end_own(marks, &node.name)
}

#[cycle(walk)]
#[tactic(auto, using(crate::proofs::Layers::function_parts))]
pub(crate) fn declared_function<'a>(
    marks: &mut Marks<'a>,
    node: &'a Function,
) -> Result<(), AllocError>
    ensures { OnOk result (marks.new ≡ marks.old ++ declared_name kind.Function (function_marked node.now).end (function_marked node.now).name ++ (function_marked node.now).marks) }
{
    marks.declare_optional(Kind::Function, node.span.end, &node.name)?;
    function(marks, node)
}

#[cycle(walk)]
#[tactic(auto, using(crate::proofs::Layers::arrow_out))]
pub(crate) fn arrow<'a>(marks: &mut Marks<'a>, node: &'a Arrow) -> Result<(), AllocError>
    ensures { OnOk result (marks.new ≡ marks.old ++ arrow_marked node.now) }
{
    marks.begin_scope(ScopeKind::Function, node.span.begin)?;
    head(marks, node.parameters.as_slice())?;
    let is_own = have_expression(node.parameters.as_slice());
    arrow_body(marks, &node.body, is_own, node.span.end)?;
    marks.end_scope()
}

#[cycle(walk)]
#[tactic(auto, using(scope_heads::proofs::Rounds::body_around))]
fn arrow_body<'a>(
    marks: &mut Marks<'a>,
    inside: &'a ArrowBody,
    is_own: bool,
    end: u32,
) -> Result<(), AllocError>
    ensures { OnOk result (marks.new ≡ marks.old ++ body_scope is_own end (arrow_body_marked inside.now).marks) }
{
    begin_body(marks, is_own, end)?;
    arrow_value(marks, inside)?;
    end_body(marks, is_own)
}

#[cycle(walk)]
fn arrow_value<'a>(marks: &mut Marks<'a>, inside: &'a ArrowBody) -> Result<(), AllocError>
    ensures { OnOk result (marks.new ≡ marks.old ++ (arrow_body_marked inside.now).marks) }
{
    match inside {
        ArrowBody::ValueBody(value) => expression(marks, value.get()),
        ArrowBody::BlockBody(block) => block_statements(marks, block),
    }
}

#[cycle(walk)]
fn head<'a>(marks: &mut Marks<'a>, list: &'a [Parameter]) -> Result<(), AllocError>
    ensures { OnOk result (marks.new ≡ marks.old ++ in_head (declarators kind.Parameter (map parameter_marked list.now))) }
{
    marks.begin_head()?;
    parameters(marks, list)?;
    marks.end_head()
}

#[cycle(walk)]
fn parameters<'a>(marks: &mut Marks<'a>, list: &'a [Parameter]) -> Result<(), AllocError>
    ensures { OnOk result (marks.new ≡ marks.old ++ declarators kind.Parameter (map parameter_marked list.now)) }
{
    for item in list {
        parameter(marks, item)?;
    }
    Ok(())
}

#[cycle(walk)]
#[tactic(auto, using(crate::proofs::Layers::part_end_out))]
fn parameter<'a>(marks: &mut Marks<'a>, item: &'a Parameter) -> Result<(), AllocError>
    ensures { OnOk result (marks.new ≡ marks.old ++ (parameter_marked item.now).marks (Declared kind.Parameter (parameter_marked item.now).end)) }
{
    match item {
        Parameter::SingleParameter(single) => {
            let end = single.span.end;
            part(
                marks,
                single,
                Role::Declared {
                    kind: Kind::Parameter,
                    end,
                },
            )
        }
        Parameter::RestParameter { span, pattern } => {
            let end = span.end;
            targets(
                marks,
                pattern,
                Role::Declared {
                    kind: Kind::Parameter,
                    end,
                },
            )
        }
    }
}

/// The statements of a function, in a scope of their own or not.
#[cycle(walk)]
#[tactic(auto, using(scope_heads::proofs::Rounds::body_around))]
fn body<'a>(
    marks: &mut Marks<'a>,
    list: &'a [Statement],
    is_own: bool,
    end: u32,
) -> Result<(), AllocError>
    ensures { OnOk result (marks.new ≡ marks.old ++ body_scope is_own end (joined (λ s. s) (map statement_marked list.now))) }
{
    begin_body(marks, is_own, end)?;
    statements(marks, list)?;
    end_body(marks, is_own)
}

/// A class, whose name is declared round it alone (14.5.14).
#[cycle(walk)]
#[tactic(auto, using(crate::proofs::Layers::class_parts, scope_heads::proofs::Rounds::own_around))]
pub(crate) fn class<'a>(marks: &mut Marks<'a>, node: &'a Class) -> Result<(), AllocError>
    ensures { OnOk result (marks.new ≡ marks.old ++ class_marks (class_marked node.now)) }
{
    begin_own(marks, Kind::OwnClass, node.span.end, &node.name)?;
    class_parts(marks, node)?;
    end_own(marks, &node.name)
}

#[cycle(walk)]
#[tactic(auto, using(crate::proofs::Layers::class_out))]
fn class_parts<'a>(marks: &mut Marks<'a>, node: &'a Class) -> Result<(), AllocError>
    ensures { OnOk result (marks.new ≡ marks.old ++ (class_marked node.now).marks) }
{
    optional_boxed(marks, &node.heritage)?;
    members(marks, node.members.as_slice())
}

#[cycle(walk)]
#[tactic(auto, using(crate::proofs::Layers::class_parts))]
pub(crate) fn declared_class<'a>(marks: &mut Marks<'a>, node: &'a Class) -> Result<(), AllocError>
    ensures { OnOk result (marks.new ≡ marks.old ++ declared_name kind.Class (class_marked node.now).end (class_marked node.now).name ++ class_marks (class_marked node.now)) }
{
    marks.declare_optional(Kind::Class, node.span.end, &node.name)?;
    class(marks, node)
}

#[cycle(walk)]
#[tactic(auto, using(crate::proofs::Layers::class_member_out))]
fn members<'a>(marks: &mut Marks<'a>, members: &'a [ClassMember]) -> Result<(), AllocError>
    ensures { OnOk result (marks.new ≡ marks.old ++ joined (λ m. m) (map class_member_marked members.now)) }
{
    for member in members {
        method(marks, &member.method)?;
    }
    Ok(())
}
