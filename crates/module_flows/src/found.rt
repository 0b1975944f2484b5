//! What is found at a node.

ghost use Rattle.std.specs.Prelude.{◌≡◌};
ghost use Rattle.module_flows.specs.Flows.{found_at};
ghost use Rattle.module_flows.specs.Steps.{raised, raised_by_one, raised_by_several};

use sqlite_items::at;

/// The ends that are reached from a node.
#[derive(Clone, Copy, Debug, PartialEq, Eq)]
pub enum Found {
    Nothing,
    One(usize),
    Several,
}

impl Found {
    /// What is found together with this, unless that is no more.
    pub(crate) fn raised(self, more: Found) -> Option<Found>
        ensures { result ≡ raised self more }
    {
        match more {
            Found::Nothing => None,
            Found::One(end) => self.raised_by_one(end),
            Found::Several => self.raised_by_several(),
        }
    }

    fn raised_by_several(self) -> Option<Found>
        ensures { result ≡ raised_by_several self }
    {
        match self {
            Found::Nothing | Found::One(_) => Some(Found::Several),
            Found::Several => None,
        }
    }

    fn raised_by_one(self, end: usize) -> Option<Found>
        ensures { result ≡ raised_by_one self end }
    {
        match self {
            Found::Nothing => Some(Found::One(end)),
            Found::One(other) => {
                if other == end {
                    None
                } else {
                    Some(Found::Several)
                }
            }
            Found::Several => None,
        }
    }
}

/// What is found at a node, which is nothing where there is no such node.
pub fn found_at(found: &[Found], node: usize) -> Found
    ensures { result ≡ found_at found.now node }
{
    match at(found, node) {
        None => Found::Nothing,
        Some(known) => *known,
    }
}
