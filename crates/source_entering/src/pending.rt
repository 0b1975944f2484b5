//! The pending work of functions that are entered, by what makes it.

ghost use Rattle.std.specs.Prelude.{◌≡◌};

use source_calls::CallWork;
use source_functions::FunctionWork;
use source_state::{Code, Listing, Statements};

/// What is pending where a function of the program is entered.
pub trait EntryWork<'a>: CallWork<'a> + FunctionWork<'a> {
    ghost use Rattle.source_state.specs.declared.work.Work.TheVariants as work;

    /// The body, behind its parameters.
    fn parameters_bound(code: Code<'a>) -> Self
        ensures { Self.seen result ≡ work.ParametersBound code.entry };

    /// The prototype of a generator with this body.
    fn generator_prototype(body: Statements<'a>) -> Self
        ensures { Self.seen result ≡ work.GeneratorPrototype body.entry };

    /// The iterator of what is spread into a list.
    fn spread_iterator(listing: Listing<'a>) -> Self
        ensures { Self.seen result ≡ work.SpreadIterator listing.entry };
}
