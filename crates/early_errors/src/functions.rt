//! Functions, arrows and classes (ECMA-262, 6th edition, 14).

ghost use Rattle.std.specs.Prelude.{◌≡◌, ◌++◌, false, map, true, OnOk};
ghost use Rattle.es6_static_semantics.specs.Early.{arrow_body_found, arrow_found, block_found, body_pairs, class_found, class_member_found, function_found, is_constructor, is_plain_method, member_pairs, members_pairs, parameter_found, parameters_pairs, parts_pairs, statement_found};
ghost use Rattle.early_errors.specs.Walked.{meets_inside};

use crate::labels::Labels;
use crate::place::Place;
use crate::walk::Walk;
use early_names::{is_constructor_key, is_prototype_key, key_begin};
use es6_ast::{
    Arrow, ArrowBody, Block, Class, ClassMember, Function, MethodKind, Parameter, Statement,
};
use std::alloc::AllocError;
use std::mem;

impl Walk {
    /// A function, by what may stand in it.
    #[cycle(early)]
    #[tactic(auto, using(crate::proofs::Walking::walking, crate::proofs::Layers::function_out))]
    pub(crate) fn function(&mut self, function: &Function, place: Place) -> Result<(), AllocError>
        ensures { OnOk result (self.new ≡ meets_inside (function_found function.now).pairs place self.old) }
    {
        self.bound_name(&function.name);
        let inside = place.with_parameters(function.is_generator);
        self.all_parameters(function.parameters.as_slice(), inside)?;
        self.body(
            function.body.as_slice(),
            function.parameters.as_slice(),
            place,
        )
    }

    /// An arrow.
    #[cycle(early)]
    #[tactic(auto, using(crate::proofs::Walking::walking, crate::proofs::Layers::arrow_out))]
    pub(crate) fn arrow(&mut self, arrow: &Arrow, place: Place) -> Result<(), AllocError>
        ensures { OnOk result (self.new ≡ meets_inside (arrow_found arrow.now).pairs place self.old) }
    {
        let parameters = arrow.parameters.as_slice();
        self.all_parameters(parameters, place.with_parameters(true))?;
        self.arrow_body(&arrow.body, parameters, place.with_parameters(false))
    }

    #[cycle(early)]
    fn arrow_body(
        &mut self,
        body: &ArrowBody,
        parameters: &[Parameter],
        place: Place,
    ) -> Result<(), AllocError>
        ensures { OnOk result (self.new ≡ meets_inside ((arrow_body_found body.now).pairs (map parameter_found parameters.now)) place self.old) }
    {
        match body {
            ArrowBody::ValueBody(value) => self.expression(value.get(), place),
            ArrowBody::BlockBody(block) => self.block_body(block, parameters, place),
        }
    }

    #[cycle(early)]
    #[tactic(auto, using(crate::proofs::Walking::walking, crate::proofs::Layers::block_out))]
    fn block_body(
        &mut self,
        block: &Block,
        parameters: &[Parameter],
        place: Place,
    ) -> Result<(), AllocError>
        ensures { OnOk result (self.new ≡ meets_inside (body_pairs (map parameter_found parameters.now) (block_found block.now)) place self.old) }
    {
        self.body(block.statements.as_slice(), parameters, place)
    }

    /// Parameters, with E4.
    #[cycle(early)]
    fn all_parameters(&mut self, parameters: &[Parameter], place: Place) -> Result<(), AllocError>
        ensures { OnOk result (self.new ≡ meets_inside (parameters_pairs (map parameter_found parameters.now)) place self.old) }
    {
        self.parameters(parameters, place)?;
        self.repeated_parameters(parameters)
    }

    #[cycle(early)]
    fn parameters(&mut self, parameters: &[Parameter], place: Place) -> Result<(), AllocError>
        ensures { OnOk result (self.new ≡ meets_inside (parts_pairs true (map parameter_found parameters.now)) place self.old) }
    {
        for parameter in parameters {
            self.parameter(parameter, place)?;
        }
        Ok(())
    }

    #[cycle(early)]
    fn parameter(&mut self, parameter: &Parameter, place: Place) -> Result<(), AllocError>
        ensures { OnOk result (self.new ≡ meets_inside ((parameter_found parameter.now).pairs true) place self.old) }
    {
        match parameter {
            Parameter::SingleParameter(part) => self.part(part, true, place),
            Parameter::RestParameter { pattern, .. } => self.targets(pattern, true, place),
        }
    }

    /// The statements of a function, round which no label and no loop stands, and the rules on the names of its scopes.
    #[cycle(early)]
    fn body(
        &mut self,
        statements: &[Statement],
        parameters: &[Parameter],
        place: Place,
    ) -> Result<(), AllocError>
        ensures { OnOk result (self.new ≡ meets_inside (body_pairs (map parameter_found parameters.now) (map statement_found statements.now)) place self.old) }
    {
        let none = Labels::new(self.alloc());
        let labels = mem::replace(&mut self.labels, none);
        self.statements(statements, place.of_body())?;
        self.labels = labels;
        early_scopes::body(&mut self.finder, parameters, statements)
    }

    /// A class.
    #[cycle(early)]
    #[tactic(auto, using(crate::proofs::Walking::walking, crate::proofs::Layers::class_out))]
    pub(crate) fn class(&mut self, class: &Class, place: Place) -> Result<(), AllocError>
        ensures { OnOk result (self.new ≡ meets_inside (class_found class.now).pairs place self.old) }
    {
        self.bound_name(&class.name);
        self.optional_boxed(&class.heritage, place)?;
        self.members(class.members.as_slice(), class.heritage.is_some(), place)
    }

    /// The members of a class, by whether it has a heritage, with E20: at each constructor but the first (14.5.1).
    #[cycle(early)]
    fn members(
        &mut self,
        members: &[ClassMember],
        derived: bool,
        place: Place,
    ) -> Result<(), AllocError>
        ensures { OnOk result (self.new ≡ meets_inside (members_pairs derived false (map class_member_found members.now)) place self.old) }
    {
        let mut seen = false;
        for member in members {
            let is_constructor = is_constructor(member);
            self.finder
                .when(seen & is_constructor, 20, key_begin(&member.method.key));
            self.member(member, derived, place)?;
            seen |= is_constructor;
        }
        Ok(())
    }

    /// A member of a class, with E21 and E22.
    #[cycle(early)]
    #[tactic(auto, using(crate::proofs::Walking::walking, crate::proofs::Layers::members_out))]
    fn member(
        &mut self,
        member: &ClassMember,
        derived: bool,
        place: Place,
    ) -> Result<(), AllocError>
        ensures { OnOk result (self.new ≡ meets_inside (member_pairs derived (class_member_found member.now)) place self.old) }
    {
        let method = &member.method;
        let at = key_begin(&method.key);
        let is_constructor = is_constructor(member);
        let is_plain = is_plain(method.kind);
        self.finder.when(is_constructor & !is_plain, 21, at);
        let is_prototype = member.is_static & is_prototype_key(&method.key);
        self.finder.when(is_prototype, 22, at);
        self.method(method, derived & is_constructor & is_plain, place)
    }
}

/// Whether a member is named `constructor` and isn't static, be it a method, an accessor or a generator.
#[tactic(auto, using(crate::proofs::Layers::members_out))]
fn is_constructor(member: &ClassMember) -> bool
    ensures { result ≡ is_constructor (class_member_found member.now) }
{
    !member.is_static & is_constructor_key(&member.method.key)
}

fn is_plain(kind: MethodKind) -> bool
    ensures { result ≡ is_plain_method kind }
{
    match kind {
        MethodKind::PlainMethod => true,
        _ => false,
    }
}
