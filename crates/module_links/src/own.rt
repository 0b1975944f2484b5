//! What is answered for the names that one module wants.

ghost use Rattle.std.specs.Prelude.{◌≡◌, length, IfOk};
ghost use Rattle.module_links.specs.Links.{OwnLinks, Tells};

use crate::fault::LinkFault;
use es_text::Lines;
use es6_ast::EndOf;
use module_endings::{Outcome, Place};
use module_places::place_of;
use shared_text::Name;
use sqlite_items::Items;
use std::alloc::{AllocError, Global};

/// What is told of a module's names: its path and its lines.
#[derive(Drop)]
pub(crate) struct Teller<'a> {
    pub(crate) alloc: Global,
    pub(crate) path: &'a Name,
    pub(crate) lines: &'a Lines,
}

impl<'a> Teller<'a> {
    /// The ends that these outcomes are, or the first one that is no end, told at its place.
    pub(crate) fn ends(
        &self,
        wants: &[Place],
        offsets: &[u32],
        outcomes: &[Outcome],
    ) -> Result<Items<EndOf>, LinkFault>
        requires wants { length wants.now ≡ length outcomes.now }
        requires offsets { length offsets.now ≡ length outcomes.now }
        ensures { OwnLinks self.now.lines.now self.now.path.now wants.now offsets.now outcomes.now result }
    {
        let mut ends = Items::new(self.alloc);
        for (at, outcome) in outcomes.iter().enumerate() {
            match outcome {
                Outcome::Ends(end) => ends.push(copy_of(self.alloc, end)?)?,
                Outcome::Unresolved | Outcome::Ambiguous => {
                    return Err(self.fault(&wants[at], offsets[at], outcome)?);
                }
            }
        }
        Ok(ends)
    }

    fn fault(&self, want: &Place, offset: u32, outcome: &Outcome) -> Result<LinkFault, AllocError>
        ensures { IfOk result (λ fault. Tells self.now.lines.now self.now.path.now want.now.name offset outcome.now fault) }
    {
        let path = self.path.copy(self.alloc)?;
        let place = place_of(self.lines, offset);
        let name = want.name.copy(self.alloc)?;
        match outcome {
            Outcome::Unresolved => Ok(LinkFault::Unresolved { path, place, name }),
            Outcome::Ambiguous | Outcome::Ends(_) => Ok(LinkFault::Ambiguous { path, place, name }),
        }
    }
}

/// An equal end.
fn copy_of(alloc: Global, end: &EndOf) -> Result<EndOf, AllocError>
    ensures { IfOk result (λ made. made ≡ end.now) }
{
    match end {
        EndOf::Local { module, name } => Ok(EndOf::Local {
            module: *module,
            name: name.copy(alloc)?,
        }),
        EndOf::Host { index } => Ok(EndOf::Host { index: *index }),
    }
}
