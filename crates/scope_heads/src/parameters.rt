//! Whether an expression stands among parameters, as a default or as a computed key (ECMA-262, 6th edition, 14.1.5).

ghost use Rattle.std.specs.Prelude.{◌≡◌, map};
ghost use Rattle.scope_rules.specs.Marks.{array_part_marked, have_expression, key_marked, object_part_marked, parameter_marked, part_marked, pattern_marked};

use es6_ast::{ArrayPart, Key, ObjectPart, Parameter, Part, Pattern};

/// Whether an expression stands among these parameters.
pub fn have_expression(parameters: &[Parameter]) -> bool
    ensures { result ≡ have_expression (map parameter_marked parameters.now) }
{
    for parameter in parameters {
        if parameter_has(parameter) {
            return true;
        }
    }
    false
}

fn parameter_has(parameter: &Parameter) -> bool
    ensures { result ≡ (parameter_marked parameter.now).has_expression }
{
    match parameter {
        Parameter::SingleParameter(part) => part_has(part),
        Parameter::RestParameter { pattern, .. } => pattern_has(pattern),
    }
}

#[cycle(patterns)]
fn pattern_has(pattern: &Pattern) -> bool
    ensures { result ≡ (pattern_marked pattern.now).has_expression }
{
    match pattern {
        Pattern::Target(_) => false,
        Pattern::ArrayPattern { parts, .. } => array_parts_have(parts.as_slice()),
        Pattern::ObjectPattern { parts, .. } => object_parts_have(parts.as_slice()),
    }
}

#[cycle(patterns)]
#[tactic(auto, using(crate::proofs::Layers::part_has_out))]
fn part_has(part: &Part) -> bool
    ensures { result ≡ (part_marked part.now).has_expression }
{
    pattern_has(&part.pattern) | part.default.is_some()
}

#[cycle(patterns)]
fn array_parts_have(parts: &[ArrayPart]) -> bool
    ensures { result ≡ have_expression (map array_part_marked parts.now) }
{
    for part in parts {
        if array_part_has(part) {
            return true;
        }
    }
    false
}

#[cycle(patterns)]
fn array_part_has(part: &ArrayPart) -> bool
    ensures { result ≡ (array_part_marked part.now).has_expression }
{
    match part {
        ArrayPart::SkippedPart => false,
        ArrayPart::SinglePart(part) => part_has(part),
        ArrayPart::RestPart { pattern, .. } => pattern_has(pattern),
    }
}

#[cycle(patterns)]
fn object_parts_have(parts: &[ObjectPart]) -> bool
    ensures { result ≡ have_expression (map object_part_marked parts.now) }
{
    for part in parts {
        if object_part_has(part) {
            return true;
        }
    }
    false
}

#[cycle(patterns)]
fn object_part_has(part: &ObjectPart) -> bool
    ensures { result ≡ (object_part_marked part.now).has_expression }
{
    match part {
        ObjectPart::NamedPart(part) => part_has(part),
        ObjectPart::KeyedPart { key, part, .. } => is_computed(key) | part_has(part),
    }
}

fn is_computed(key: &Key) -> bool
    ensures { result ≡ (key_marked key.now).is_computed }
{
    match key {
        Key::WordKey { .. } | Key::TextKey { .. } | Key::IntegerKey { .. } => false,
        Key::ComputedKey { .. } => true,
    }
}
