//! The parts of array and object patterns (ECMA-262, 6th edition, 12.14.5.3, 12.14.5.4 and 13.3.3.6).

ghost use Rattle.std.specs.Prelude.{map};
ghost use Rattle.lower_walk.specs.Handed.{done_at, HasExpressions, HasPatterns, LowersItems};
ghost use Rattle.module_lowering.specs.Lowered.{array_part_lowered, key_lowered, object_part_lowered, part_lowered, pattern_lowered};
ghost use Rattle.module_lowering.specs.Lowering.{each_by, Lowers};
ghost use Rattle.module_lowering.specs.Patterns.{named_key, property_name, property_taken};

use crate::patterns::Patterns;
use core_ast::{CoreExpr, CoreStat, Key as CoreKey, Var};
use es6_ast::{ArrayPart, Expression, Key, ObjectPart, Part, Pattern};
use lower_listed::{NamedAt, pattern_names};
use lower_walk::Around;
use lower_walk::lower_items::lower_property_name;
use lower_walk::lower_names::ListsName;
use lowering_rules::reference_rules::Reached;
use lowering_rules::{
    ArrayPart as LoweredArrayPart, Iteration, ObjectPart as LoweredObjectPart, PropertyName,
};
use module_lowering::{Lowerer, Role};
use shared_text::Name;
use sqlite_items::Items;
use std::alloc::AllocError;

impl<E, P, S, F> Patterns<'_, E, P, S, F> {
    /// The property that a name alone takes its value from.
    fn first_property(
        &self,
        names: &[NamedAt<'_>],
        state: &Lowerer,
    ) -> Result<PropertyName, AllocError>
        ensures { Lowers (done_at self.now.here.around (property_name (named_key names.now)) state.now) result state.now }
    {
        let alloc = self.here.around.alloc;
        match names.first() {
            None => Ok(PropertyName::Literal(CoreKey::WordKey(Name::of_bytes(alloc, &[])?))),
            Some(name) => {
                let word = Name::of_bytes(alloc, name.bytes())?;
                Ok(PropertyName::Literal(CoreKey::WordKey(word)))
            }
        }
    }

    /// The same of the names of a pattern.
    fn named_property(&self, pattern: &Pattern, state: &Lowerer) -> Result<PropertyName, AllocError>
        ensures { Lowers (done_at self.now.here.around (property_name (named_key (pattern_lowered pattern.now).names)) state.now) result state.now }
    {
        let names = pattern_names(self.here.around.alloc, pattern)?;
        self.first_property(names.as_slice(), state)
    }
}

impl<
    E: Fn(Around, &Expression, &mut Lowerer) -> Result<Reached, AllocError>,
    P: Fn(Around, &Pattern, Role, CoreExpr, &mut Lowerer) -> Result<Items<CoreStat>, AllocError>,
    S,
    F,
> Patterns<'_, E, P, S, F> {
    /// A part of an array pattern, whose values come by these names.
    #[tactic(auto, unfolding(module_lowering::specs::Lowered::array_part_lowered, module_lowering::specs::Lowered::part_lowered, module_lowering::specs::Lowered::pattern_lowered))]
    fn array_part(
        &self,
        part: &ArrayPart,
        role: Role,
        names: Iteration,
        state: &mut Lowerer,
    ) -> Result<LoweredArrayPart, AllocError>
        requires expressions { HasExpressions E.pre E.post self.now.here }
        requires patterns { HasPatterns P.pre P.post self.now.here }
        ensures { Lowers (done_at self.now.here.around ((array_part_lowered part.now).lowered role names) state.old) result state.new }
    {
        match part {
            ArrayPart::SkippedPart => Ok(LoweredArrayPart::Elision),
            ArrayPart::SinglePart(part) => {
                let target = self.part_taken(part, role, names.value, state)?;
                Ok(LoweredArrayPart::Element(target))
            }
            ArrayPart::RestPart { pattern, .. } => {
                let target = self.pattern_taken(pattern, role, None, names.value, state)?;
                Ok(LoweredArrayPart::Rest(target))
            }
        }
    }

    /// The parts of an array pattern.
    pub(crate) fn array_parts(
        &self,
        parts: &[ArrayPart],
        role: Role,
        names: Iteration,
        state: &mut Lowerer,
    ) -> Result<Vec<LoweredArrayPart>, AllocError>
        requires expressions { HasExpressions E.pre E.post self.now.here }
        requires patterns { HasPatterns P.pre P.post self.now.here }
        ensures { LowersItems (done_at self.now.here.around (each_by (λ p. p.lowered role names) (map array_part_lowered parts.now)) state.old) result state.new }
    {
        let mut made = Vec::new(self.here.around.alloc);
        for part in parts {
            made.push(self.array_part(part, role, names, state)?)?;
        }
        Ok(made)
    }

    /// A part of an object pattern that is a name alone.
    #[tactic(auto, using(lower_walk::proofs::Layers::part_out))]
    fn named_part(
        &self,
        part: &Part,
        role: Role,
        value: Var,
        state: &mut Lowerer,
    ) -> Result<LoweredObjectPart, AllocError>
        requires expressions { HasExpressions E.pre E.post self.now.here }
        requires patterns { HasPatterns P.pre P.post self.now.here }
        ensures { Lowers (done_at self.now.here.around (property_taken (named_key (part_lowered part.now).pattern.names) (part_lowered part.now) role value) state.old) result state.new }
    {
        let name = self.named_property(&part.pattern, state)?;
        let target = self.part_taken(part, role, value, state)?;
        Ok(LoweredObjectPart { name, target })
    }

    /// A part of an object pattern with a property name.
    fn keyed_part(
        &self,
        key: &Key,
        part: &Part,
        role: Role,
        value: Var,
        state: &mut Lowerer,
    ) -> Result<LoweredObjectPart, AllocError>
        requires expressions { HasExpressions E.pre E.post self.now.here }
        requires patterns { HasPatterns P.pre P.post self.now.here }
        ensures { Lowers (done_at self.now.here.around (property_taken (key_lowered key.now) (part_lowered part.now) role value) state.old) result state.new }
    {
        let name = lower_property_name(&self.here, key, state)?;
        let target = self.part_taken(part, role, value, state)?;
        Ok(LoweredObjectPart { name, target })
    }

    /// A part of an object pattern, whose value comes in a variable.
    #[tactic(auto, unfolding(module_lowering::specs::Lowered::key_lowered, module_lowering::specs::Lowered::object_part_lowered, module_lowering::specs::Lowered::part_lowered))]
    fn object_part(
        &self,
        part: &ObjectPart,
        role: Role,
        value: Var,
        state: &mut Lowerer,
    ) -> Result<LoweredObjectPart, AllocError>
        requires expressions { HasExpressions E.pre E.post self.now.here }
        requires patterns { HasPatterns P.pre P.post self.now.here }
        ensures { Lowers (done_at self.now.here.around ((object_part_lowered part.now).lowered role value) state.old) result state.new }
    {
        match part {
            ObjectPart::NamedPart(part) => self.named_part(part, role, value, state),
            ObjectPart::KeyedPart { key, part, .. } => {
                self.keyed_part(key, part, role, value, state)
            }
        }
    }

    /// The parts of an object pattern.
    pub(crate) fn object_parts(
        &self,
        parts: &[ObjectPart],
        role: Role,
        value: Var,
        state: &mut Lowerer,
    ) -> Result<Vec<LoweredObjectPart>, AllocError>
        requires expressions { HasExpressions E.pre E.post self.now.here }
        requires patterns { HasPatterns P.pre P.post self.now.here }
        ensures { LowersItems (done_at self.now.here.around (each_by (λ p. p.lowered role value) (map object_part_lowered parts.now)) state.old) result state.new }
    {
        let mut made = Vec::new(self.here.around.alloc);
        for part in parts {
            made.push(self.object_part(part, role, value, state)?)?;
        }
        Ok(made)
    }
}
