//! What is pending in lists and chains.

use crate::holds::Holds;
use crate::pending::{Pending, of_list, of_target};
use es_value::Value;
use es6_ast::Link;
use source_lists::ListWork;
use source_state::{Listing, Nodes, Passing};
use source_takers::{ListTaker, TargetTaker};

#[tactic(auto, unfolding(source_takers::specs::Takers::target_work, source_takers::specs::Takers::list_work))]
impl<'a, H: Holds<'a>> ListWork<'a> for Pending<H> {
    fn links(wanted: bool, links: Nodes<'a, Link>) -> Pending<H> {
        of_target(TargetTaker::Links(wanted, links))
    }

    fn link_index(base: Value, wanted: bool, links: Nodes<'a, Link>) -> Pending<H> {
        of_list(ListTaker::LinkIndex(base, wanted, links))
    }

    fn link_key(base: Value, wanted: bool, links: Nodes<'a, Link>) -> Pending<H> {
        of_list(ListTaker::LinkKey(base, wanted, links))
    }

    fn link_method(
        receiver: Value,
        passing: Passing<'a>,
        wanted: bool,
        links: Nodes<'a, Link>,
    ) -> Pending<H> {
        of_list(ListTaker::LinkMethod(receiver, passing, wanted, links))
    }

    fn list_value(listing: Listing<'a>) -> Pending<H> {
        of_list(ListTaker::ListValue(listing))
    }

    fn spread_part(listing: Listing<'a>) -> Pending<H> {
        of_list(ListTaker::SpreadPart(listing))
    }

    fn spread_iterator(listing: Listing<'a>) -> Pending<H> {
        of_list(ListTaker::SpreadIterator(listing))
    }

    fn spread_step(listing: Listing<'a>, iterator: Value) -> Pending<H> {
        of_list(ListTaker::SpreadStep(listing, iterator))
    }

    fn spread_value(listing: Listing<'a>, iterator: Value) -> Pending<H> {
        of_list(ListTaker::SpreadValue(listing, iterator))
    }
}
