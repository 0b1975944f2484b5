//! The names that `var` declares in the head of a loop, and in a declaration by itself (ECMA-262, 6th edition, 13.3.2 and 13.7).

ghost use Rattle.std.specs.Prelude.{◌≡◌, ◌++◌, map, OnOk};
ghost use Rattle.es6_static_semantics.specs.Early.{for_first_found, for_target_found, parameter_names, part_found, pattern_found, var_names};

use early_names::{PlacedName, add_part_names, add_pattern_names};
use es6_ast::{ForFirst, ForTarget, Part, Pattern, VariableKind};
use std::alloc::AllocError;

/// Adds the names of variables that are var names.
pub(crate) fn add_vars<'a>(
    names: &mut Vec<PlacedName<'a>>,
    kind: VariableKind,
    parts: &'a [Part],
) -> Result<(), AllocError>
    ensures { OnOk result (names.new.items ≡ names.old.items ++ var_names kind (parameter_names (map part_found parts.now))) }
{
    match kind {
        VariableKind::Var => add_part_names(names, parts),
        VariableKind::Let | VariableKind::Const => Ok(()),
    }
}

pub(crate) fn add_first_vars<'a>(
    names: &mut Vec<PlacedName<'a>>,
    first: &'a ForFirst,
) -> Result<(), AllocError>
    ensures { OnOk result (names.new.items ≡ names.old.items ++ (for_first_found first.now).vars) }
{
    match first {
        ForFirst::FirstVariables { kind, parts, .. } => add_vars(names, *kind, parts.as_slice()),
        ForFirst::NoFirst | ForFirst::FirstExpression(_) => Ok(()),
    }
}

pub(crate) fn add_target_vars<'a>(
    names: &mut Vec<PlacedName<'a>>,
    target: &'a ForTarget,
) -> Result<(), AllocError>
    ensures { OnOk result (names.new.items ≡ names.old.items ++ (for_target_found target.now).vars) }
{
    match target {
        ForTarget::Declared { kind, pattern, .. } => add_if_var(names, *kind, pattern),
        ForTarget::Assigned(_) => Ok(()),
    }
}

fn add_if_var<'a>(
    names: &mut Vec<PlacedName<'a>>,
    kind: VariableKind,
    pattern: &'a Pattern,
) -> Result<(), AllocError>
    ensures { OnOk result (names.new.items ≡ names.old.items ++ var_names kind (pattern_found pattern.now).names) }
{
    match kind {
        VariableKind::Var => add_pattern_names(names, pattern),
        VariableKind::Let | VariableKind::Const => Ok(()),
    }
}
