//! Patterns and targets (ECMA-262, 6th edition, 12.14.5 and 13.3.3).

ghost use Rattle.std.specs.Prelude.{◌≡◌, ◌++◌, map, OnOk};
ghost use Rattle.es6_static_semantics.specs.Early.{array_part_found, assigned_by, object_part_found, part_found, parts_pairs, pattern_found, variables_pairs};
ghost use Rattle.early_errors.specs.Walked.{meets_inside};

use crate::place::Place;
use crate::walk::Walk;
use early_names::constant;
use es6_ast::{ArrayPart, AssignOperator, ObjectPart, Part, Pattern, VariableKind};
use std::alloc::AllocError;

impl Walk {
    /// What binds names, or is assigned.
    #[cycle(early)]
    pub(crate) fn targets(
        &mut self,
        pattern: &Pattern,
        binds: bool,
        place: Place,
    ) -> Result<(), AllocError>
        ensures { OnOk result (self.new ≡ meets_inside ((pattern_found pattern.now).pairs binds) place self.old) }
    {
        match pattern {
            Pattern::Target(target) => {
                if binds {
                    self.bound_target(target.get());
                    return Ok(());
                }
                self.assigned(target.get());
                self.expression(target.get(), place)
            }
            Pattern::ArrayPattern { parts, .. } => self.array_parts(parts.as_slice(), binds, place),
            Pattern::ObjectPattern { parts, .. } => {
                self.object_parts(parts.as_slice(), binds, place)
            }
        }
    }

    /// What an assignment operator stands after (12.14.1).
    #[cycle(early)]
    pub(crate) fn assigned_by(
        &mut self,
        operator: AssignOperator,
        pattern: &Pattern,
        place: Place,
    ) -> Result<(), AllocError>
        ensures { OnOk result (self.new ≡ meets_inside (assigned_by operator (pattern_found pattern.now)) place self.old) }
    {
        match operator {
            AssignOperator::Assign => self.targets(pattern, false, place),
            _ => self.updated_pattern(pattern, place),
        }
    }

    /// What an operator beside `=` stands after: a simple target, with E8 and E10.
    #[cycle(early)]
    fn updated_pattern(&mut self, pattern: &Pattern, place: Place) -> Result<(), AllocError>
        ensures { OnOk result (self.new ≡ meets_inside (pattern_found pattern.now).updated place self.old) }
    {
        match pattern {
            Pattern::Target(target) => self.update(target.get(), place),
            Pattern::ArrayPattern { span, parts } => {
                self.finder.when(true, 10, span.begin);
                self.array_parts(parts.as_slice(), false, place)
            }
            Pattern::ObjectPattern { span, parts } => {
                self.finder.when(true, 10, span.begin);
                self.object_parts(parts.as_slice(), false, place)
            }
        }
    }

    #[cycle(early)]
    fn array_parts(
        &mut self,
        parts: &[ArrayPart],
        binds: bool,
        place: Place,
    ) -> Result<(), AllocError>
        ensures { OnOk result (self.new ≡ meets_inside (parts_pairs binds (map array_part_found parts.now)) place self.old) }
    {
        for part in parts {
            self.array_part(part, binds, place)?;
        }
        Ok(())
    }

    #[cycle(early)]
    fn array_part(&mut self, part: &ArrayPart, binds: bool, place: Place) -> Result<(), AllocError>
        ensures { OnOk result (self.new ≡ meets_inside ((array_part_found part.now).pairs binds) place self.old) }
    {
        match part {
            ArrayPart::SkippedPart => Ok(()),
            ArrayPart::SinglePart(part) => self.part(part, binds, place),
            ArrayPart::RestPart { pattern, .. } => self.targets(pattern, binds, place),
        }
    }

    #[cycle(early)]
    fn object_parts(
        &mut self,
        parts: &[ObjectPart],
        binds: bool,
        place: Place,
    ) -> Result<(), AllocError>
        ensures { OnOk result (self.new ≡ meets_inside (parts_pairs binds (map object_part_found parts.now)) place self.old) }
    {
        for part in parts {
            self.object_part(part, binds, place)?;
        }
        Ok(())
    }

    #[cycle(early)]
    fn object_part(
        &mut self,
        part: &ObjectPart,
        binds: bool,
        place: Place,
    ) -> Result<(), AllocError>
        ensures { OnOk result (self.new ≡ meets_inside ((object_part_found part.now).pairs binds) place self.old) }
    {
        match part {
            ObjectPart::NamedPart(part) => self.part(part, binds, place),
            ObjectPart::KeyedPart { key, part, .. } => {
                self.key(key, place)?;
                self.part(part, binds, place)
            }
        }
    }

    /// Variables that are declared together, with E12 (13.3).
    #[cycle(early)]
    pub(crate) fn variables(
        &mut self,
        kind: VariableKind,
        parts: &[Part],
        place: Place,
    ) -> Result<(), AllocError>
        ensures { OnOk result (self.new ≡ meets_inside (variables_pairs kind (map part_found parts.now)) place self.old) }
    {
        for part in parts {
            constant(&mut self.finder, kind, part);
            self.part(part, true, place)?;
        }
        Ok(())
    }

    /// A pattern with the value that it has by default.
    #[cycle(early)]
    #[tactic(auto, using(crate::proofs::Walking::walking, crate::proofs::Layers::part_out))]
    pub(crate) fn part(&mut self, part: &Part, binds: bool, place: Place) -> Result<(), AllocError>
        ensures { OnOk result (self.new ≡ meets_inside ((part_found part.now).pairs binds) place self.old) }
    {
        self.targets(&part.pattern, binds, place)?;
        self.optional(&part.default, place)
    }
}
