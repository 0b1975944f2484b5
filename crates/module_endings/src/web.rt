//! The places that are reached, and from where.

ghost use Rattle.std.specs.Prelude.{◌≡◌, ◌∷◌, ◌++◌, ◌<◌, [], IfOk, OnOk, length, slice_index_or, slice_set};
ghost use Rattle.module_endings.specs.Webs.{IsEmpty, IsSized, Linked, Placed};

use crate::place::Place;
use indexmap::IndexSet;
use sqlite_items::Items;
use std::alloc::{AllocError, Global};

/// Places by number, for each the places from which one goes on to it, and the places that are ends.
#[derive(Drop)]
pub(crate) struct Web {
    alloc: Global,
    pub(crate) places: IndexSet<Place>,
    pub(crate) users: Vec<Items<usize>>,
    pub(crate) ends: Items<usize>,
}

impl Web {
    pub(crate) fn new(alloc: Global) -> Web
        ensures { IsEmpty result }
    {
        Web {
            alloc,
            places: IndexSet::new(alloc),
            users: Vec::new(alloc),
            ends: Items::new(alloc),
        }
    }

    /// The number of a place, which is added unless it is there.
    pub(crate) fn place(&mut self, place: Place) -> Result<usize, AllocError>
        requires { IsSized self.old }
        ensures { IfOk result (λ at. Placed place at self.old self.new) }
    {
        let (at, is_new) = self.places.insert_full(place)?;
        if !is_new {
            return Ok(at);
        }
        self.users.push(Items::new(self.alloc))?;
        Ok(at)
    }

    /// Notes that one goes on from a place to this one.
    pub(crate) fn link(&mut self, user: usize, place: Place) -> Result<(), AllocError>
        requires { IsSized self.old }
        ensures { OnOk result (Linked user (place ∷ []) self.old self.new) }
    {
        let at = self.place(place)?;
        add_user(&mut self.users, at, user)?;
        Ok(())
    }
}

/// Adds a user to a place.
fn add_user(users: &mut Vec<Items<usize>>, at: usize, user: usize) -> Result<(), AllocError>
    requires { at < length users.old.items }
    ensures { OnOk result (users.new.items ≡ slice_set users.old.items at (slice_index_or users.old.items at [] ++ user ∷ [])) }
{
    users[at].push(user)
}
