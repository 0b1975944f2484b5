//! The names that patterns bind (13.3.3.1, 14.1.3), each list in text order.

ghost use Rattle.std.specs.Prelude.{◌≡◌, ◌++◌, map, OnOk};
ghost use Rattle.es6_static_semantics.specs.Early.{are_plain, array_part_found, const_pairs, is_plain, object_part_found, parameter_found, parameter_names, part_found, pattern_found, some_name};
ghost use Rattle.es6_ast.specs.declared.operators.VariableKind.TheVariants.{Const};
ghost use Rattle.early_findings.specs.Pairs.{least_with};

use crate::names::PlacedName;
use crate::targets::name_of;
use early_findings::Finder;
use es6_ast::{ArrayPart, Identifier, ObjectPart, Parameter, Part, Pattern, VariableKind};
use std::alloc::AllocError;

/// Adds the name, if there is one.
pub fn add_optional_name<'a>(
    names: &mut Vec<PlacedName<'a>>,
    name: &'a Option<Identifier>,
) -> Result<(), AllocError>
    ensures { OnOk result (names.new.items ≡ names.old.items ++ some_name name.now) }
{
    if let Some(name) = name {
        names.push(PlacedName::of(name))?;
    }
    Ok(())
}

/// Adds the names that a pattern binds.
#[cycle(names)]
pub fn add_pattern_names<'a>(
    names: &mut Vec<PlacedName<'a>>,
    pattern: &'a Pattern,
) -> Result<(), AllocError>
    ensures { OnOk result (names.new.items ≡ names.old.items ++ (pattern_found pattern.now).names) }
{
    match pattern {
        Pattern::Target(target) => {
            if let Some(name) = name_of(target.get()) {
                names.push(name)?;
            }
            Ok(())
        }
        Pattern::ArrayPattern { parts, .. } => add_array_names(names, parts.as_slice()),
        Pattern::ObjectPattern { parts, .. } => add_object_names(names, parts.as_slice()),
    }
}

#[cycle(names)]
fn add_array_names<'a>(
    names: &mut Vec<PlacedName<'a>>,
    parts: &'a [ArrayPart],
) -> Result<(), AllocError>
    ensures { OnOk result (names.new.items ≡ names.old.items ++ parameter_names (map array_part_found parts.now)) }
{
    for part in parts {
        add_array_part_names(names, part)?;
    }
    Ok(())
}

#[cycle(names)]
fn add_array_part_names<'a>(
    names: &mut Vec<PlacedName<'a>>,
    part: &'a ArrayPart,
) -> Result<(), AllocError>
    ensures { OnOk result (names.new.items ≡ names.old.items ++ (array_part_found part.now).names) }
{
    match part {
        ArrayPart::SkippedPart => Ok(()),
        ArrayPart::SinglePart(part) => add_pattern_names(names, &part.pattern),
        ArrayPart::RestPart { pattern, .. } => add_pattern_names(names, pattern),
    }
}

#[cycle(names)]
fn add_object_names<'a>(
    names: &mut Vec<PlacedName<'a>>,
    parts: &'a [ObjectPart],
) -> Result<(), AllocError>
    ensures { OnOk result (names.new.items ≡ names.old.items ++ parameter_names (map object_part_found parts.now)) }
{
    for part in parts {
        add_object_part_names(names, part)?;
    }
    Ok(())
}

#[cycle(names)]
fn add_object_part_names<'a>(
    names: &mut Vec<PlacedName<'a>>,
    part: &'a ObjectPart,
) -> Result<(), AllocError>
    ensures { OnOk result (names.new.items ≡ names.old.items ++ (object_part_found part.now).names) }
{
    match part {
        ObjectPart::NamedPart(part) => add_pattern_names(names, &part.pattern),
        ObjectPart::KeyedPart { part, .. } => add_pattern_names(names, &part.pattern),
    }
}

/// Adds the names that declared variables bind.
pub fn add_part_names<'a>(
    names: &mut Vec<PlacedName<'a>>,
    parts: &'a [Part],
) -> Result<(), AllocError>
    ensures { OnOk result (names.new.items ≡ names.old.items ++ parameter_names (map part_found parts.now)) }
{
    for part in parts {
        add_pattern_names(names, &part.pattern)?;
    }
    Ok(())
}

/// Adds the names that parameters bind.
pub fn add_parameter_names<'a>(
    names: &mut Vec<PlacedName<'a>>,
    parameters: &'a [Parameter],
) -> Result<(), AllocError>
    ensures { OnOk result (names.new.items ≡ names.old.items ++ parameter_names (map parameter_found parameters.now)) }
{
    for parameter in parameters {
        add_pattern_names(names, parameter_pattern(parameter))?;
    }
    Ok(())
}

fn parameter_pattern(parameter: &Parameter) -> &Pattern
    ensures { (pattern_found result.now).names ≡ (parameter_found parameter.now).names }
{
    match parameter {
        Parameter::SingleParameter(part) => &part.pattern,
        Parameter::RestParameter { pattern, .. } => pattern,
    }
}

/// Whether each parameter is a name by itself, as a directive of strict code asks (14.1.2 of the 7th edition).
pub fn are_plain(parameters: &[Parameter]) -> bool
    ensures { result ≡ are_plain (map parameter_found parameters.now) }
{
    for parameter in parameters {
        if !is_plain(parameter) {
            return false;
        }
    }
    true
}

fn is_plain(parameter: &Parameter) -> bool
    ensures { result ≡ is_plain (parameter_found parameter.now) }
{
    match parameter {
        Parameter::SingleParameter(part) => is_plain_part(part),
        Parameter::RestParameter { .. } => false,
    }
}

fn is_plain_part(part: &Part) -> bool
    ensures { result ≡ is_plain (part_found part.now) }
{
    match (&part.pattern, &part.default) {
        (Pattern::Target(target), None) => name_of(target.get()).is_some(),
        _ => false,
    }
}

/// E12, at a constant that is a name without a value (13.3.1.1).
pub fn constant(finder: &mut Finder, kind: VariableKind, part: &Part)
    ensures { finder.new ≡ least_with finder.old (const_pairs kind (part_found part.now)) }
{
    match kind {
        VariableKind::Var | VariableKind::Let => (),
        VariableKind::Const => without_value(finder, part),
    }
}

fn without_value(finder: &mut Finder, part: &Part)
    ensures { finder.new ≡ least_with finder.old (const_pairs Const (part_found part.now)) }
{
    if let (Pattern::Target(target), None) = (&part.pattern, &part.default) {
        if let Some(name) = name_of(target.get()) {
            finder.when(true, 12, name.begin());
        }
    }
}
