//! Where a walk along the marks of a module stands.

ghost use Rattle.std.specs.Prelude.{◌≡◌, [], ◌∷◌, ◌++◌, OnOk};
ghost use Rattle.scope_rules.specs.declared.mark.Mark.TheVariants.{ScopeBegins};
ghost use Rattle.scope_rules.specs.scope_tables.Scoping.{moved, top};

use crate::scope_tables::place::Place;
use crate::{Mark, ScopeKind};
use std::alloc::{AllocError, Global};
use std::marker::Model;

/// The places that a walk is in, the innermost last, and where the scopes that it has met begin.
#[derive(Drop)]
pub(crate) struct Position {
    places: Vec<Place>,
    begins: Vec<u32>,
}

impl Model for Position {
    ghost use Rattle.scope_rules.specs.scope_tables.Scoping.{Stand};

    ghost Value = { Stand };

    ghost view = { λ p. record { places = p.places.items; begins = p.begins.items } };
}

impl Position {
    /// Before a module.
    pub(crate) fn new(alloc: Global) -> Position
        ensures { result ≡ record { places = []; begins = [] } }
    {
        Position {
            places: Vec::new(alloc),
            begins: Vec::new(alloc),
        }
    }

    /// The places, the innermost last.
    pub(crate) fn places(&self) -> &[Place]
        ensures { result.now ≡ self.now.places }
    {
        self.places.as_slice()
    }

    /// Where the walk stands.
    pub(crate) fn top(&self) -> Place
        ensures { result ≡ top self.now.places }
    {
        let count = self.places.len();
        if count == 0 {
            return Place::outermost();
        }
        self.places[count - 1]
    }

    /// Goes on behind a mark.
    pub(crate) fn pass(&mut self, mark: &Mark) -> Result<(), AllocError>
        ensures { OnOk result (self.new ≡ moved mark.now self.old) }
    {
        match mark {
            Mark::ScopeBegins { kind, at } => self.enter(*kind, *at),
            Mark::LoopBegins => {
                let place = self.top();
                self.push(Place {
                    in_loop: true,
                    ..place
                })
            }
            Mark::HeadBegins => {
                let place = self.top();
                self.push(Place {
                    in_head: true,
                    ..place
                })
            }
            Mark::ScopeEnds | Mark::LoopEnds | Mark::HeadEnds => {
                let _ = self.places.pop();
                Ok(())
            }
            Mark::Declares { .. } | Mark::Refers { .. } => Ok(()),
        }
    }

    fn enter(&mut self, kind: ScopeKind, at: u32) -> Result<(), AllocError>
        ensures { OnOk result (self.new ≡ moved (ScopeBegins kind at) self.old) }
    {
        let place = self.top().entered(kind, self.begins.len());
        self.begins.push(at)?;
        self.push(place)
    }

    fn push(&mut self, place: Place) -> Result<(), AllocError>
        ensures { OnOk result (self.new ≡ record self.old { places = self.old.places ++ place ∷ [] }) }
    {
        self.places.push(place)?;
        Ok(())
    }
}
