//! What is passed to callees (ECMA-262, 6th edition, 12.3.4.2, 12.3.7.1), and the callees of calls in chains (12.3.4.1).

ghost use Rattle.std.specs.Prelude.{◌≡◌};
ghost use Rattle.source_lists.specs.Templates.{template_passed};
ghost use Rattle.source_meaning.specs.Environments.{host_named};
ghost use Rattle.source_meaning.specs.Lists.{call_link, call_named, passes};
ghost use Rattle.source_meaning.specs.References.{reads};
ghost use Rattle.source_moves.specs.Moves.{Steps};
ghost use Rattle.source_moves.specs.Seen.{state_of};
ghost use Rattle.source_state.specs.declared.completion.Completion.{Completion};
ghost use Rattle.source_state.specs.declared.completion.Reference.{Reference};
ghost use Rattle.source_state.specs.declared.work.Work.TheVariants.{LinkMethod};

use crate::collecting::list_on;
use crate::pending::ListWork;
use crate::templates::template_object;
use es_heap::Key;
use es_value::Value;
use es6_ast::{Link, Template};
use source_moves::{Moved, host_named, impossible, read};
use source_state::{
    BorrowedName, Callee, Collected, Completion, ListParts, Nodes, Passing, Reference, State, Use,
};
use sqlite_items::Items;
use std::alloc::Global;

/// Passes a template's object and its values.
#[tactic(auto, using(crate::proofs::TemplateObjects::passed))]
fn pass_template<'a, W: ListWork<'a>>(
    alloc: Global,
    user: Use<'a>,
    template: &'a Template,
    st: &mut State<'a, W>,
) -> Moved<'a>
    ensures { Steps W.seen result st.new (template_passed user.entry template.now (state_of W.seen st.old)) }
{
    let mut args = Items::new(alloc);
    args.push(template_object(alloc, template, st)?)?;
    let values = ListParts::of_values(&template.rest);
    list_on(alloc, Collected::OfArguments(user, args), values, st)
}

/// Evaluates what is passed to a callee, in a chain with these links behind.
#[tactic(auto, using(crate::proofs::TemplateObjects::passes_template))]
pub fn passes<'a, W: ListWork<'a>>(
    alloc: Global,
    callee: Callee,
    passing: Passing<'a>,
    wanted: bool,
    links: Nodes<'a, Link>,
    st: &mut State<'a, W>,
) -> Moved<'a>
    ensures { Steps W.seen result st.new (passes callee passing.entry wanted links.entry (state_of W.seen st.old)) }
{
    let user = Use::ForCall(callee, wanted, links);
    match passing {
        Passing::PassesArguments(arguments) => {
            let list = Collected::OfArguments(user, Items::new(alloc));
            list_on(alloc, list, ListParts::of_arguments(arguments), st)
        }
        Passing::PassesTemplate(template) => pass_template(alloc, user, template.get(), st),
    }
}

/// The callee is a name: a host's, or one that is read.
fn call_named<'a, W: ListWork<'a>>(
    alloc: Global,
    host: Option<usize>,
    name: BorrowedName<'a>,
    passing: Passing<'a>,
    wanted: bool,
    links: Nodes<'a, Link>,
    st: &mut State<'a, W>,
) -> Moved<'a>
    ensures { Steps W.seen result st.new (call_named host name.entry passing.entry wanted links.entry (state_of W.seen st.old)) }
{
    match host {
        Some(number) => passes(alloc, Callee::Hosting(number), passing, wanted, links, st),
        None => {
            let work = W::link_method(Value::Undefined, passing, wanted, links);
            read(alloc, work, Reference::OfName(name), st)
        }
    }
}

/// The callee is a property of this base, which is the receiver.
fn call_property<'a, W: ListWork<'a>>(
    alloc: Global,
    base: Value,
    key: Key,
    passing: Passing<'a>,
    wanted: bool,
    links: Nodes<'a, Link>,
    st: &mut State<'a, W>,
) -> Moved<'a>
    ensures { Steps W.seen result st.new (reads (LinkMethod base passing.entry wanted links.entry) (Reference.OfProperty base key) (state_of W.seen st.old)) }
{
    let receiver = base.share()?;
    let work = W::link_method(receiver, passing, wanted, links);
    read(alloc, work, Reference::OfProperty(base, key), st)
}

/// The callee is a property of `super`; `this` is the receiver.
fn call_super<'a, W: ListWork<'a>>(
    alloc: Global,
    this: Value,
    key: Key,
    passing: Passing<'a>,
    wanted: bool,
    links: Nodes<'a, Link>,
    st: &mut State<'a, W>,
) -> Moved<'a>
    ensures { Steps W.seen result st.new (reads (LinkMethod this passing.entry wanted links.entry) (Reference.OfSuper this key) (state_of W.seen st.old)) }
{
    let receiver = this.share()?;
    let work = W::link_method(receiver, passing, wanted, links);
    read(alloc, work, Reference::OfSuper(this, key), st)
}

fn call_reference<'a, W: ListWork<'a>>(
    alloc: Global,
    reference: Reference<'a>,
    passing: Passing<'a>,
    wanted: bool,
    links: Nodes<'a, Link>,
    st: &mut State<'a, W>,
) -> Moved<'a>
    ensures { Steps W.seen result st.new (call_link passing.entry wanted links.entry (state_of W.seen st.old) (Completion.Refers reference.entry)) }
{
    match reference {
        Reference::OfName(name) => {
            let host = host_named(name.bytes(), st);
            call_named(alloc, host, name, passing, wanted, links, st)
        }
        Reference::OfProperty(base, key) => {
            call_property(alloc, base, key, passing, wanted, links, st)
        }
        Reference::OfSuper(this, key) => call_super(alloc, this, key, passing, wanted, links, st),
    }
}

/// A call in a chain: the callee is read before its arguments are evaluated.
pub(crate) fn call_link<'a, W: ListWork<'a>>(
    alloc: Global,
    passing: Passing<'a>,
    wanted: bool,
    links: Nodes<'a, Link>,
    completion: Completion<'a>,
    st: &mut State<'a, W>,
) -> Moved<'a>
    ensures { Steps W.seen result st.new (call_link passing.entry wanted links.entry (state_of W.seen st.old) completion.entry) }
{
    match completion {
        Completion::Gives(function) => {
            let callee = Callee::Calling(function, Value::Undefined);
            passes(alloc, callee, passing, wanted, links, st)
        }
        Completion::Refers(reference) => {
            call_reference(alloc, reference, passing, wanted, links, st)
        }
        _ => impossible(st),
    }
}
