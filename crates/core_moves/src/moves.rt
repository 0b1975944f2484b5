//! What a step answers.

ghost use Rattle.std.specs.Prelude.{◌≡◌};
ghost use Rattle.core_state.specs.declared.frame.Control.{Control};
ghost use Rattle.core_state.specs.declared.value.CoreValue.{CoreValue};
ghost use Rattle.core_state.specs.declared.value.Current.{Current};

use core_state::{Binding, Completion, Control, CoreValue, Current, Links};
use es_outside::{Event, Seen, Site};
use es_value::Value;
use sqlite_items::Items;
use std::alloc::AllocError;

/// How a run ends that doesn't leave the profile.
#[derive(Debug, Drop)]
pub enum Finish {
    Ended,
    /// by a throw that nothing catches
    Threw(Seen),
}

/// What a step answers, beside the state that it leaves.
#[derive(Drop)]
pub enum Move<'a, M> {
    /// The next step does this.
    Goes(Control<'a, M>),
    /// This is asked of a host, whose reply is handed to the top frame.
    Asks(Event),
    Ends(Finish),
    /// The run leaves the profile at the exit of this number, and where that stands.
    Leaves { number: u8, site: Site },
}

/// What a step answers, if there is memory for it. Nothing is said of the state behind an error.
pub type Moved<'a, M> = Result<Move<'a, M>, AllocError>;

/// What the context of a call keeps besides, and what its record has besides.
#[derive(Drop)]
pub struct Entered<M, O> {
    pub own: O,
    pub names: Items<Binding<M>>,
}

impl<'a, M> Move<'a, M> {
    /// Goes on along the links.
    pub fn go(current: Current<M>, links: Links<'a>) -> Move<'a, M>
        ensures { result ≡ Move.Goes (Control.Go current links.entry) }
    {
        Move::Goes(Control::Go(current, links))
    }

    /// A value of the program goes on along the links.
    pub fn has(value: Value, links: Links<'a>) -> Move<'a, M>
        ensures { result ≡ Move.Goes (Control.Go (Current.Has (CoreValue.User value)) links.entry) }
    {
        Move::go(Current::Has(CoreValue::User(value)), links)
    }

    /// Hands a completion to the top frame.
    pub fn hand(completion: Completion<M>) -> Move<'a, M>
        ensures { result ≡ Move.Goes (Control.Hand completion) }
    {
        Move::Goes(Control::Hand(completion))
    }
}
