//! Property names, properties and methods (ECMA-262, 6th edition, 12.2.6 and 14.3).

ghost use Rattle.std.specs.Prelude.{◌≡◌, ◌++◌, map, OnOk};
ghost use Rattle.es6_static_semantics.specs.Findings.{joined};
ghost use Rattle.scope_rules.specs.Marks.{key_marked, method_marked, property_marked};

use crate::expressions::expression;
use crate::functions::function;
use es6_ast::{Key, Method, Property};
use scope_heads::{refer_identifier, refer_name};
use scope_rules::Marks;
use std::alloc::AllocError;

#[cycle(walk)]
pub(crate) fn key<'a>(marks: &mut Marks<'a>, name: &'a Key) -> Result<(), AllocError>
    ensures { OnOk result (marks.new ≡ marks.old ++ (key_marked name.now).marks) }
{
    match name {
        Key::WordKey { .. } | Key::TextKey { .. } | Key::IntegerKey { .. } => Ok(()),
        Key::ComputedKey { value, .. } => expression(marks, value.get()),
    }
}

#[cycle(walk)]
pub(crate) fn properties<'a>(
    marks: &mut Marks<'a>,
    properties: &'a [Property],
) -> Result<(), AllocError>
    ensures { OnOk result (marks.new ≡ marks.old ++ joined (λ p. p) (map property_marked properties.now)) }
{
    for item in properties {
        property(marks, item)?;
    }
    Ok(())
}

#[cycle(walk)]
fn property<'a>(marks: &mut Marks<'a>, item: &'a Property) -> Result<(), AllocError>
    ensures { OnOk result (marks.new ≡ marks.old ++ property_marked item.now) }
{
    match item {
        Property::Plain {
            key: name,
            value,
            ..
        } => {
            key(marks, name)?;
            expression(marks, value)
        }
        Property::Shorthand { span, name } => refer_name(marks, name, span.begin),
        Property::Initialized { name, value, .. } => {
            refer_identifier(marks, name)?;
            expression(marks, value)
        }
        Property::Defined(defined) => method(marks, defined),
    }
}

/// A method of an object literal or of a class.
#[cycle(walk)]
#[tactic(auto, using(crate::proofs::Layers::method_out))]
pub(crate) fn method<'a>(marks: &mut Marks<'a>, defined: &'a Method) -> Result<(), AllocError>
    ensures { OnOk result (marks.new ≡ marks.old ++ method_marked defined.now) }
{
    key(marks, &defined.key)?;
    function(marks, defined.function.get())
}
