//! Property names, properties and methods (ECMA-262, 6th edition, 12.2.6 and 14.3).

ghost use Rattle.std.specs.Prelude.{◌≡◌, map, OnOk};
ghost use Rattle.es6_static_semantics.specs.Findings.{joined};
ghost use Rattle.es6_static_semantics.specs.Early.{key_found, method_found, property_found};
ghost use Rattle.early_errors.specs.Walked.{meets_inside};

use crate::place::Place;
use crate::walk::Walk;
use es6_ast::{Key, Method, Property};
use std::alloc::AllocError;

impl Walk {
    #[cycle(early)]
    pub(crate) fn key(&mut self, key: &Key, place: Place) -> Result<(), AllocError>
        ensures { OnOk result (self.new ≡ meets_inside (key_found key.now).pairs place self.old) }
    {
        match key {
            Key::WordKey { .. } | Key::TextKey { .. } | Key::IntegerKey { .. } => Ok(()),
            Key::ComputedKey { value, .. } => self.expression(value.get(), place),
        }
    }

    #[cycle(early)]
    pub(crate) fn properties(
        &mut self,
        properties: &[Property],
        place: Place,
    ) -> Result<(), AllocError>
        ensures { OnOk result (self.new ≡ meets_inside (λ r. joined (λ x. x.pairs r) (map property_found properties.now)) place self.old) }
    {
        for property in properties {
            self.property(property, place)?;
        }
        Ok(())
    }

    /// A property, with E11 (12.2.6.1).
    #[cycle(early)]
    fn property(&mut self, property: &Property, place: Place) -> Result<(), AllocError>
        ensures { OnOk result (self.new ≡ meets_inside (property_found property.now).pairs place self.old) }
    {
        match property {
            Property::Plain { key, value, .. } => {
                self.key(key, place)?;
                self.expression(value, place)
            }
            Property::Shorthand { .. } => Ok(()),
            Property::Initialized { equals, value, .. } => {
                self.finder.when(true, 11, equals.begin);
                self.expression(value, place)
            }
            Property::Defined(method) => self.method(method, false, place),
        }
    }

    /// A method of an object literal or of a class, by whether a super call may stand in it.
    #[cycle(early)]
    #[tactic(auto, using(crate::proofs::Walking::walking, crate::proofs::Layers::method_out))]
    pub(crate) fn method(
        &mut self,
        method: &Method,
        super_call: bool,
        place: Place,
    ) -> Result<(), AllocError>
        ensures { OnOk result (self.new ≡ meets_inside ((method_found method.now).pairs super_call) place self.old) }
    {
        self.key(&method.key, place)?;
        self.function(method.function.get(), Place::of_function(super_call, true))
    }
}
