//! Property names, properties and methods (ECMA-262, 6th edition, 12.2.6 and 14.3).

ghost use Rattle.std.specs.Prelude.{◌≡◌, ◌||◌, codes, map, nat_eq, OnOk};
ghost use Rattle.std.specs.List.{starts_with};
ghost use Rattle.es6_static_semantics.specs.Findings.{joined};
ghost use Rattle.es6_static_semantics.specs.Outside.{is_proto, key_found, method_found, property_found};
ghost use Rattle.outside_constructs.specs.Walked.{meets};

use crate::walk::Walk;
use es6_ast::{Key, Method, Property};
use shared_text::Units;
use std::alloc::AllocError;

/// The units of `__proto__`.
const PROTO: [u16; 9] = [
    b'_' as u16,
    b'_' as u16,
    b'p' as u16,
    b'r' as u16,
    b'o' as u16,
    b't' as u16,
    b'o' as u16,
    b'_' as u16,
    b'_' as u16,
];

impl Walk {
    /// U10 at a literal name, and U9 in what is computed.
    #[cycle(outside)]
    pub(crate) fn key(&mut self, key: &Key) -> Result<(), AllocError>
        ensures { OnOk result (self.new ≡ meets (key_found key.now) self.old) }
    {
        match key {
            Key::WordKey { span, name } => {
                let is_proto = name.bytes() == b"__proto__".as_slice();
                self.finder.when(is_proto, 10, span.begin);
                Ok(())
            }
            Key::TextKey { span, units } => {
                self.finder.when(is_hidden(units), 10, span.begin);
                Ok(())
            }
            Key::IntegerKey { .. } => Ok(()),
            Key::ComputedKey { value, .. } => self.as_key(value.get()),
        }
    }

    #[cycle(outside)]
    pub(crate) fn properties(&mut self, properties: &[Property]) -> Result<(), AllocError>
        ensures { OnOk result (self.new ≡ meets (λ scope. joined (λ x. x scope) (map property_found properties.now)) self.old) }
    {
        for property in properties {
            self.property(property)?;
        }
        Ok(())
    }

    #[cycle(outside)]
    fn property(&mut self, property: &Property) -> Result<(), AllocError>
        ensures { OnOk result (self.new ≡ meets (property_found property.now) self.old) }
    {
        match property {
            Property::Plain { key, value, .. } => {
                self.key(key)?;
                self.expression(value)
            }
            Property::Shorthand { span, name } => {
                self.name(*span, name.bytes());
                Ok(())
            }
            Property::Initialized { name, value, .. } => {
                self.name(name.span, name.name.bytes());
                self.expression(value)
            }
            Property::Defined(method) => self.method(method, true),
        }
    }

    /// A method of an object literal or of a class.
    #[cycle(outside)]
    #[tactic(auto, using(crate::proofs::Walking::walked, crate::proofs::Layers::method_out))]
    pub(crate) fn method(&mut self, method: &Method, in_object: bool) -> Result<(), AllocError>
        ensures { OnOk result (self.new ≡ meets ((method_found method.now).pairs in_object) self.old) }
    {
        self.key(&method.key)?;
        self.function(method.function.get(), in_object)
    }
}

/// Whether a property of this name is no plain one: `__proto__`, or one that stands for a symbol.
fn is_hidden(units: &Units) -> bool
    ensures { result ≡ (is_proto units.now || starts_with nat_eq units.now (codes "@@")) }
{
    let units = units.units();
    let is_proto = units == PROTO.as_slice();
    is_proto | units.starts_with(&[b'@' as u16, b'@' as u16])
}
