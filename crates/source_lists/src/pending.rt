//! The pending work of lists and chains.

ghost use Rattle.std.specs.Prelude.{◌≡◌};

use es_value::Value;
use es6_ast::Link;
use source_calls::CallWork;
use source_state::{Listing, Nodes, Passing};

/// What is pending in lists of arguments and elements, and in chains (ECMA-262, 6th edition, 12.2.5, 12.3).
pub trait ListWork<'a>: CallWork<'a> {
    ghost use Rattle.source_state.specs.declared.work.Work.TheVariants as work;

    /// The links that follow, and whether a reference is wanted of the chain.
    fn links(wanted: bool, links: Nodes<'a, Link>) -> Self
        ensures { Self.seen result ≡ work.Links wanted links.entry };

    /// A key in brackets behind this base, which was checked.
    fn link_index(base: Value, wanted: bool, links: Nodes<'a, Link>) -> Self
        ensures { Self.seen result ≡ work.LinkIndex base wanted links.entry };

    /// That key's text.
    fn link_key(base: Value, wanted: bool, links: Nodes<'a, Link>) -> Self
        ensures { Self.seen result ≡ work.LinkKey base wanted links.entry };

    /// The callee of a call with this receiver, which is read before its arguments.
    fn link_method(
        receiver: Value,
        passing: Passing<'a>,
        wanted: bool,
        links: Nodes<'a, Link>,
    ) -> Self
        ensures { Self.seen result ≡ work.LinkMethod receiver passing.entry wanted links.entry };

    /// The value of a part.
    fn list_value(listing: Listing<'a>) -> Self
        ensures { Self.seen result ≡ work.ListValue listing.entry };

    /// The value of a spread part.
    fn spread_part(listing: Listing<'a>) -> Self
        ensures { Self.seen result ≡ work.SpreadPart listing.entry };

    /// Its iterator.
    fn spread_iterator(listing: Listing<'a>) -> Self
        ensures { Self.seen result ≡ work.SpreadIterator listing.entry };

    /// A step of that.
    fn spread_step(listing: Listing<'a>, iterator: Value) -> Self
        ensures { Self.seen result ≡ work.SpreadStep listing.entry iterator };

    /// The value of a step.
    fn spread_value(listing: Listing<'a>, iterator: Value) -> Self
        ensures { Self.seen result ≡ work.SpreadValue listing.entry iterator };
}
