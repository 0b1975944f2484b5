//! The names that patterns and parameters bind (ECMA-262, 6th edition, 13.3.3.1 and 14.1.3).

ghost use Rattle.std.specs.Prelude.{◌≡◌, ◌++◌, map, false, OnOk};
ghost use Rattle.es6_static_semantics.specs.Findings.{joined};
ghost use Rattle.es6_static_semantics.specs.Outside.{expression_found, knows, parts_names, some_name};
ghost use Rattle.es6_static_semantics.specs.Outside.{array_part_found, object_part_found, parameter_found, part_found, pattern_found};

use crate::bindings::Bindings;
use es6_ast::{ArrayPart, Expression, ObjectPart, Parameter, Part, Pattern};
use std::alloc::AllocError;

impl Bindings {
    #[cycle(patterns)]
    pub fn pattern(&mut self, pattern: &Pattern) -> Result<(), AllocError>
        ensures { OnOk result (self.new ≡ self.old ++ map (knows false) (pattern_found pattern.now).names) }
    {
        match pattern {
            Pattern::Target(target) => self.target(target.get()),
            Pattern::ArrayPattern { parts, .. } => self.array_parts(parts.as_slice()),
            Pattern::ObjectPattern { parts, .. } => self.object_parts(parts.as_slice()),
        }
    }

    #[cycle(patterns)]
    fn array_parts(&mut self, parts: &[ArrayPart]) -> Result<(), AllocError>
        ensures { OnOk result (self.new ≡ self.old ++ map (knows false) (parts_names (map array_part_found parts.now))) }
    {
        for part in parts {
            self.array_part(part)?;
        }
        Ok(())
    }

    #[cycle(patterns)]
    fn array_part(&mut self, part: &ArrayPart) -> Result<(), AllocError>
        ensures { OnOk result (self.new ≡ self.old ++ map (knows false) (array_part_found part.now).names) }
    {
        match part {
            ArrayPart::SkippedPart => Ok(()),
            ArrayPart::SinglePart(part) => self.pattern(&part.pattern),
            ArrayPart::RestPart { pattern, .. } => self.pattern(pattern),
        }
    }

    #[cycle(patterns)]
    fn object_parts(&mut self, parts: &[ObjectPart]) -> Result<(), AllocError>
        ensures { OnOk result (self.new ≡ self.old ++ map (knows false) (parts_names (map object_part_found parts.now))) }
    {
        for part in parts {
            self.object_part(part)?;
        }
        Ok(())
    }

    #[cycle(patterns)]
    fn object_part(&mut self, part: &ObjectPart) -> Result<(), AllocError>
        ensures { OnOk result (self.new ≡ self.old ++ map (knows false) (object_part_found part.now).names) }
    {
        match part {
            ObjectPart::NamedPart(part) | ObjectPart::KeyedPart { part, .. } => {
                self.pattern(&part.pattern)
            }
        }
    }

    /// The name that is a target, in parentheses too.
    fn target(&mut self, target: &Expression) -> Result<(), AllocError>
        ensures { OnOk result (self.new ≡ self.old ++ map (knows false) (some_name (expression_found target.now).name)) }
    {
        match target {
            Expression::Name { name, .. } => self.push(name.bytes(), false),
            Expression::Group { held, .. } => self.target(held.get()),
            _ => Ok(()),
        }
    }

    /// The names of variables that are declared together.
    pub fn parts(&mut self, parts: &[Part]) -> Result<(), AllocError>
        ensures { OnOk result (self.new ≡ self.old ++ map (knows false) (parts_names (map part_found parts.now))) }
    {
        for part in parts {
            self.pattern(&part.pattern)?;
        }
        Ok(())
    }

    pub fn parameters(&mut self, parameters: &[Parameter]) -> Result<(), AllocError>
        ensures { OnOk result (self.new ≡ self.old ++ map (knows false) (parts_names (map parameter_found parameters.now))) }
    {
        for parameter in parameters {
            self.parameter(parameter)?;
        }
        Ok(())
    }

    fn parameter(&mut self, parameter: &Parameter) -> Result<(), AllocError>
        ensures { OnOk result (self.new ≡ self.old ++ map (knows false) (parameter_found parameter.now).names) }
    {
        match parameter {
            Parameter::SingleParameter(part) => self.pattern(&part.pattern),
            Parameter::RestParameter { pattern, .. } => self.pattern(pattern),
        }
    }
}
