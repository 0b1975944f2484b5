//! The places that modules want.

ghost use Rattle.std.specs.Prelude.{◌++◌, ◌∷◌, [], List, IfOk, OnOk};
ghost use Rattle.module_endings.specs.declared.place.Place.{Place};
ghost use Rattle.module_endings.specs.Ends.{all_wants};
ghost use Rattle.module_endings.specs.Webs.{AreWanted, IsSized};

use crate::place::Place;
use crate::summary::Summary;
use crate::web::Web;
use sqlite_items::Items;
use std::alloc::{AllocError, Global};

/// The wanted places, by their numbers in a web.
#[derive(Drop)]
pub(crate) struct Wanted {
    pub(crate) web: Web,
    pub(crate) numbers: Items<usize>,
}

impl Wanted {
    /// The places that these modules want, in a web without steps.
    pub(crate) fn of(alloc: Global, modules: &[Summary]) -> Result<Wanted, AllocError>
        ensures { IfOk result (λ wanted. AreWanted (all_wants modules.now) wanted) }
    {
        let mut wanted = Wanted {
            web: Web::new(alloc),
            numbers: Items::new(alloc),
        };
        for module in modules {
            wanted.want(alloc, module.wants.as_slice())?;
        }
        Ok(wanted)
    }

    fn want(&mut self, alloc: Global, places: &[Place]) -> Result<(), AllocError>
        requires { IsSized self.old.web }
        ensures size { OnOk result (IsSized self.new.web) }
        ensures wanted { OnOk result ((before : List Place) → AreWanted before self.old → AreWanted (before ++ places.now) self.new) }
    {
        for place in places {
            self.want_one(place.copy(alloc)?)?;
        }
        Ok(())
    }

    fn want_one(&mut self, place: Place) -> Result<(), AllocError>
        requires { IsSized self.old.web }
        ensures size { OnOk result (IsSized self.new.web) }
        ensures wanted { OnOk result ((before : List Place) → AreWanted before self.old → AreWanted (before ++ place ∷ []) self.new) }
    {
        let number = self.web.place(place)?;
        self.numbers.push(number)?;
        Ok(())
    }
}
