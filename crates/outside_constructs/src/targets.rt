//! Patterns and targets (ECMA-262, 6th edition, 12.14.5 and 13.3.3).

ghost use Rattle.std.specs.Prelude.{◌≡◌, ◌++◌, map, true, OnOk};
ghost use Rattle.es6_static_semantics.specs.Outside.{all_named, array_part_found, expression_found, global_pairs, object_part_found, part_found, parts_pairs, pattern_found, some_name, super_pairs};
ghost use Rattle.outside_constructs.specs.Walked.{meets};

use crate::walk::Walk;
use es6_ast::{ArrayPart, Expression, ObjectPart, Part, Pattern};
use std::alloc::AllocError;

impl Walk {
    /// What declares names, or is assigned.
    #[cycle(outside)]
    pub(crate) fn targets(&mut self, pattern: &Pattern, declares: bool) -> Result<(), AllocError>
        ensures { OnOk result (self.new ≡ meets ((pattern_found pattern.now).pairs declares) self.old) }
    {
        match pattern {
            Pattern::Target(target) => {
                if declares {
                    self.bound_name(target.get());
                    return Ok(());
                }
                self.target(target.get());
                self.expression(target.get())
            }
            Pattern::ArrayPattern { parts, .. } => self.array_parts(parts.as_slice(), declares),
            Pattern::ObjectPattern { parts, .. } => self.object_parts(parts.as_slice(), declares),
        }
    }

    #[cycle(outside)]
    fn array_parts(&mut self, parts: &[ArrayPart], declares: bool) -> Result<(), AllocError>
        ensures { OnOk result (self.new ≡ meets (parts_pairs declares (map array_part_found parts.now)) self.old) }
    {
        for part in parts {
            self.array_part(part, declares)?;
        }
        Ok(())
    }

    #[cycle(outside)]
    fn array_part(&mut self, part: &ArrayPart, declares: bool) -> Result<(), AllocError>
        ensures { OnOk result (self.new ≡ meets ((array_part_found part.now).pairs declares) self.old) }
    {
        match part {
            ArrayPart::SkippedPart => Ok(()),
            ArrayPart::SinglePart(part) => self.part(part, declares),
            ArrayPart::RestPart { pattern, .. } => self.targets(pattern, declares),
        }
    }

    #[cycle(outside)]
    fn object_parts(&mut self, parts: &[ObjectPart], declares: bool) -> Result<(), AllocError>
        ensures { OnOk result (self.new ≡ meets (parts_pairs declares (map object_part_found parts.now)) self.old) }
    {
        for part in parts {
            self.object_part(part, declares)?;
        }
        Ok(())
    }

    #[cycle(outside)]
    fn object_part(&mut self, part: &ObjectPart, declares: bool) -> Result<(), AllocError>
        ensures { OnOk result (self.new ≡ meets ((object_part_found part.now).pairs declares) self.old) }
    {
        match part {
            ObjectPart::NamedPart(part) => self.part(part, declares),
            ObjectPart::KeyedPart { key, part, .. } => {
                self.key(key)?;
                self.part(part, declares)
            }
        }
    }

    /// Variables that are declared together.
    #[cycle(outside)]
    pub(crate) fn parts(&mut self, parts: &[Part]) -> Result<(), AllocError>
        ensures { OnOk result (self.new ≡ meets (parts_pairs true (map part_found parts.now)) self.old) }
    {
        for part in parts {
            self.part(part, true)?;
        }
        Ok(())
    }

    /// A pattern with the value that it has by default.
    #[cycle(outside)]
    #[tactic(auto, using(crate::proofs::Walking::walked, crate::proofs::Layers::part_out))]
    pub(crate) fn part(&mut self, part: &Part, declares: bool) -> Result<(), AllocError>
        ensures { OnOk result (self.new ≡ meets ((part_found part.now).pairs declares) self.old) }
    {
        self.targets(&part.pattern, declares)?;
        self.optional(&part.default)
    }

    /// U8 and U13 at a target that is no pattern.
    pub(crate) fn target(&mut self, target: &Expression)
        ensures { self.new ≡ meets (λ scope. global_pairs (expression_found target.now).name scope ++ super_pairs (expression_found target.now).of_super) self.old }
    {
        self.global(target);
        self.super_target(target);
    }

    /// U10 at a name that is declared.
    fn bound_name(&mut self, target: &Expression)
        ensures { self.new ≡ meets (λ _. all_named (some_name (expression_found target.now).name)) self.old }
    {
        match target {
            Expression::Name { span, name } => {
                let is_proto = name.bytes() == b"__proto__".as_slice();
                self.finder.when(is_proto, 10, span.begin);
            }
            Expression::Group { held, .. } => self.bound_name(held.get()),
            _ => (),
        }
    }
}
