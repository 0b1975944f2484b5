//! Where the modules are that a module requests.

ghost use Rattle.std.specs.Prelude.{◌≡◌, ℕ, List, IfOk, Some};
ghost use Rattle.module_endings.specs.Places.{at_place};
ghost use Rattle.module_resolution.specs.Summaries.{home_of, requested_home};
ghost use Rattle.module_summaries.specs.Homes.{home_in};

use es6_ast::{Request, Specifier};
use module_endings::{Home, Place};
use shared_text::Name;
use std::alloc::{AllocError, Global};
use std::collections::HashMap;

/// The homes of specifiers, looked up by hash. Of requests with one specifier the first counts.
#[derive(Drop)]
pub(crate) struct Homes<'a> {
    pub(crate) index: HashMap<&'a [u16], Home>,
}

impl<'a> Homes<'a> {
    pub(crate) fn of(alloc: Global, requests: &'a [Request]) -> Result<Homes<'a>, AllocError>
        ensures { IfOk result (λ homes. (from : List ℕ) → home_in homes from ≡ requested_home requests.now from) }
    {
        let mut homes = Homes {
            index: HashMap::new(alloc),
        };
        let mut left = requests.len();
        while left > 0 {
            left -= 1;
            let request = &requests[left];
            homes
                .index
                .insert(request.specifier.units(), home_of(request))?;
        }
        Ok(homes)
    }

    /// The home of a specifier.
    pub(crate) fn home(&self, from: &Specifier) -> Home
        ensures { result ≡ home_in self.now from.now.text }
    {
        match self.index.get(from.text.units()) {
            None => Home::Nowhere,
            Some(home) => *home,
        }
    }

    /// The place of a name under a specifier.
    pub(crate) fn place(
        &self,
        alloc: Global,
        from: &Specifier,
        name: &[u8],
    ) -> Result<Place, AllocError>
        ensures { IfOk result (λ place. place ≡ at_place (home_in self.now from.now.text) name.now) }
    {
        Ok(Place {
            home: self.home(from),
            name: Name::of_bytes(alloc, name)?,
        })
    }
}

fn home_of(request: &Request) -> Home
    ensures { result ≡ home_of (Some request.now.module) }
{
    match request.module {
        None => Home::OfHosts,
        Some(module) => Home::Module(module),
    }
}
