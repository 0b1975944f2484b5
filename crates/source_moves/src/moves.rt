//! What a step answers.

ghost use Rattle.std.specs.Prelude.{◌≡◌};
ghost use Rattle.source_state.specs.declared.completion.Completion.{Completion};
ghost use Rattle.source_state.specs.declared.control.Control.{Control};

use es_outside::{Event, Seen, Site};
use es_value::Value;
use source_state::{Completion, Control, Reference};
use std::alloc::AllocError;

/// How a run ends that doesn't leave the profile.
#[derive(Debug, Drop)]
pub enum Finish {
    Ended,
    /// by a throw that nothing catches
    Threw(Seen),
}

/// What a step answers, beside the state that it leaves.
#[derive(Drop)]
pub enum Move<'a> {
    /// The next step does this.
    Goes(Control<'a>),
    /// This is asked of a host, whose reply is handed to the top frame.
    Asks(Event),
    Ends(Finish),
    /// The run leaves the profile at the exit of this number, and where that stands.
    Leaves { number: u8, site: Site },
}

/// What a step answers, if there is memory for it. Nothing is said of the state behind an error.
pub type Moved<'a> = Result<Move<'a>, AllocError>;

impl<'a> Move<'a> {
    /// Hands a completion to the top frame.
    pub fn hand(completion: Completion<'a>) -> Move<'a>
        ensures { result ≡ Move.Goes (Control.Hand completion.entry) }
    {
        Move::Goes(Control::Hand(completion))
    }

    /// Hands a value to the top frame.
    pub fn give(value: Value) -> Move<'a>
        ensures { result ≡ Move.Goes (Control.Hand (Completion.Gives value)) }
    {
        Move::hand(Completion::Gives(value))
    }

    /// Hands a reference to the top frame.
    pub fn refer(reference: Reference<'a>) -> Move<'a>
        ensures { result ≡ Move.Goes (Control.Hand (Completion.Refers reference.entry)) }
    {
        Move::hand(Completion::Refers(reference))
    }
}
