//! Places of names.

ghost use Rattle.std.specs.Prelude.{◌≡◌, IfOk};
ghost use Rattle.module_endings.specs.Places.{home_number, same_home};

use shared_text::Name;
use std::alloc::{AllocError, Global};
use std::hash::{Hash, Hasher};

/// Where a name is looked up.
#[derive(Clone, Copy, Debug)]
pub enum Home {
    /// no module
    Nowhere,
    /// the hosts
    OfHosts,
    /// what the module with this number exports
    Module(u32),
    /// the bindings of the module with this number
    Binding(u32),
}

/// A name where it is looked up.
#[derive(Debug, Drop)]
pub struct Place {
    pub home: Home,
    pub name: Name,
}

impl Home {
    fn is(self, other: Home) -> bool
        ensures { result ≡ same_home self other }
    {
        match (self, other) {
            (Home::Nowhere, Home::Nowhere) | (Home::OfHosts, Home::OfHosts) => true,
            (Home::Module(a), Home::Module(b)) => a == b,
            (Home::Binding(a), Home::Binding(b)) => a == b,
            _ => false,
        }
    }

    /// The number of the module, or 0.
    fn number(self) -> u32
        ensures { result ≡ home_number self }
    {
        match self {
            Home::Nowhere | Home::OfHosts => 0,
            Home::Module(module) | Home::Binding(module) => module,
        }
    }
}

impl Place {
    /// An equal place.
    pub fn copy(&self, alloc: Global) -> Result<Place, AllocError>
        ensures { IfOk result (λ place. place ≡ self.now) }
    {
        Ok(Place {
            home: self.home,
            name: self.name.copy(alloc)?,
        })
    }
}

impl PartialEq for Place {
    ghost use Rattle.module_endings.specs.Places.{same_place, same_place-laws};

    ghost eq = { same_place };

    ghost laws = { same_place-laws };

    fn eq(&self, other: &Place) -> bool {
        self.home.is(other.home) & (self.name.bytes() == other.name.bytes())
    }
}

impl Eq for Place {
    ghost use Rattle.module_endings.specs.Places.{same_place-equivalence};

    ghost laws = { same_place-equivalence };
}

impl Hash for Place {
    ghost use Rattle.module_endings.specs.Places.{place_input, place_input-respects};

    ghost hash_input = { place_input };

    ghost respects_eq = { place_input-respects };

    fn hash<H: Hasher>(&self, state: &mut H) {
        state.write_u32(self.home.number());
        self.name.bytes().hash(state)
    }
}
