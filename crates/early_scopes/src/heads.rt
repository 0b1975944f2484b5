//! The names that the head of a loop declares (ECMA-262, 6th edition, 13.7.4 and 13.7.5).

ghost use Rattle.std.specs.Prelude.{◌≡◌, ◌++◌, drop, map, OnOk};
ghost use Rattle.es6_static_semantics.specs.Early.{for_first_found, for_target_found, head_pairs, lexical_names, parameter_names, part_found, pattern_found, var_names};
ghost use Rattle.early_findings.specs.Pairs.{least_with};

use crate::rules::head;
use crate::var_names::VarNames;
use early_findings::Finder;
use early_names::{PlacedName, add_lexical_names, add_part_names, add_pattern_names};
use es6_ast::{ForFirst, ForTarget, Part, Pattern, VariableKind};
use std::alloc::AllocError;

/// Adds the names of variables that are var names.
pub(crate) fn add_vars<'a>(
    vars: &mut VarNames<'a>,
    kind: VariableKind,
    parts: &'a [Part],
) -> Result<(), AllocError>
    ensures { OnOk result (vars.new ≡ vars.old ++ var_names kind (parameter_names (map part_found parts.now))) }
{
    match kind {
        VariableKind::Var => vars.parts(parts),
        VariableKind::Let | VariableKind::Const => Ok(()),
    }
}

pub(crate) fn add_first_vars<'a>(
    vars: &mut VarNames<'a>,
    first: &'a ForFirst,
) -> Result<(), AllocError>
    ensures { OnOk result (vars.new ≡ vars.old ++ (for_first_found first.now).vars) }
{
    match first {
        ForFirst::FirstVariables { kind, parts, .. } => add_vars(vars, *kind, parts.as_slice()),
        ForFirst::NoFirst | ForFirst::FirstExpression(_) => Ok(()),
    }
}

pub(crate) fn add_target_vars<'a>(
    vars: &mut VarNames<'a>,
    target: &'a ForTarget,
) -> Result<(), AllocError>
    ensures { OnOk result (vars.new ≡ vars.old ++ (for_target_found target.now).vars) }
{
    match target {
        ForTarget::Declared { kind, pattern, .. } => add_if_var(vars, *kind, pattern),
        ForTarget::Assigned(_) => Ok(()),
    }
}

fn add_if_var<'a>(
    vars: &mut VarNames<'a>,
    kind: VariableKind,
    pattern: &'a Pattern,
) -> Result<(), AllocError>
    ensures { OnOk result (vars.new ≡ vars.old ++ var_names kind (pattern_found pattern.now).names) }
{
    match kind {
        VariableKind::Var => vars.pattern(pattern),
        VariableKind::Let | VariableKind::Const => Ok(()),
    }
}

impl<'a> VarNames<'a> {
    /// Adds the names that declared variables bind.
    fn parts(&mut self, parts: &'a [Part]) -> Result<(), AllocError>
        ensures { OnOk result (self.new ≡ self.old ++ parameter_names (map part_found parts.now)) }
    {
        let mut names = Vec::new(self.alloc());
        add_part_names(&mut names, parts)?;
        self.extend(names.as_slice())
    }

    /// Adds the names that a pattern binds.
    fn pattern(&mut self, pattern: &'a Pattern) -> Result<(), AllocError>
        ensures { OnOk result (self.new ≡ self.old ++ (pattern_found pattern.now).names) }
    {
        let mut names = Vec::new(self.alloc());
        add_pattern_names(&mut names, pattern)?;
        self.extend(names.as_slice())
    }
}

/// E1 and E6, of a for statement of whose body the var names are those from an index on.
pub(crate) fn first(
    finder: &mut Finder,
    first: &ForFirst,
    vars: &VarNames,
    mark: usize,
) -> Result<(), AllocError>
    ensures { OnOk result (finder.new ≡ least_with finder.old (head_pairs (for_first_found first.now).lexical (drop mark vars.now))) }
{
    let mut lexical = Vec::new(finder.alloc());
    add_first_lexical(&mut lexical, first)?;
    head(finder, lexical.as_slice(), vars, mark)
}

/// The same of a for-of statement.
pub(crate) fn target(
    finder: &mut Finder,
    target: &ForTarget,
    vars: &VarNames,
    mark: usize,
) -> Result<(), AllocError>
    ensures { OnOk result (finder.new ≡ least_with finder.old (head_pairs (for_target_found target.now).lexical (drop mark vars.now))) }
{
    let mut lexical = Vec::new(finder.alloc());
    add_target_lexical(&mut lexical, target)?;
    head(finder, lexical.as_slice(), vars, mark)
}

fn add_first_lexical<'a>(
    names: &mut Vec<PlacedName<'a>>,
    first: &'a ForFirst,
) -> Result<(), AllocError>
    ensures { OnOk result (names.new.items ≡ names.old.items ++ (for_first_found first.now).lexical) }
{
    match first {
        ForFirst::FirstVariables { kind, parts, .. } => {
            add_lexical_names(names, *kind, parts.as_slice())
        }
        ForFirst::NoFirst | ForFirst::FirstExpression(_) => Ok(()),
    }
}

fn add_target_lexical<'a>(
    names: &mut Vec<PlacedName<'a>>,
    target: &'a ForTarget,
) -> Result<(), AllocError>
    ensures { OnOk result (names.new.items ≡ names.old.items ++ (for_target_found target.now).lexical) }
{
    match target {
        ForTarget::Declared { kind, pattern, .. } => add_if_lexical(names, *kind, pattern),
        ForTarget::Assigned(_) => Ok(()),
    }
}

fn add_if_lexical<'a>(
    names: &mut Vec<PlacedName<'a>>,
    kind: VariableKind,
    pattern: &'a Pattern,
) -> Result<(), AllocError>
    ensures { OnOk result (names.new.items ≡ names.old.items ++ lexical_names kind (pattern_found pattern.now).names) }
{
    match kind {
        VariableKind::Var => Ok(()),
        VariableKind::Let | VariableKind::Const => add_pattern_names(names, pattern),
    }
}
