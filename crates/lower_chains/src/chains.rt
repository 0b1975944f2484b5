//! Chains of accesses and calls (ECMA-262, 6th edition, 12.3.2, 12.3.4 and 12.3.7).

ghost use Rattle.std.specs.Prelude.{◌≡◌, map, IfOk};
ghost use Rattle.core_ast.specs.declared.parts.Key.TheVariants.{WordKey};
ghost use Rattle.lower_chains.specs.Chains.{chained_of};
ghost use Rattle.lower_walk.specs.Handed.{done_at, HasExpressions, LowersAs};
ghost use Rattle.module_lowering.specs.Expressions.{called_with, chain_reached, indexed_with, linked_at, tagged_with};
ghost use Rattle.module_lowering.specs.Lowered.{argument_lowered, expression_lowered, link_lowered, template_lowered};
ghost use Rattle.module_lowering.specs.Lowering.{along_by, Lowers};
ghost use Rattle.lowering_rules.specs.declared.reference_rules.references.MemberName.TheVariants.{Named};
ghost use Rattle.lowering_rules.specs.reference_rules.References.{accessed};

use crate::chained::Chained;
use crate::sites::reached_sited;
use core_ast::Key;
use es6_ast::{Argument, Expression, Link, Template};
use lower_references::{lower_accessed, lower_called, lower_called_as_tag};
use lower_walk::lower_items::{lower_argument_list, lower_template_values, template_object_of};
use lower_walk::lower_names::site_at;
use lower_walk::{Around, Here};
use lowering_rules::reference_rules::{MemberName, Reached};
use module_lowering::Lowerer;
use shared_text::Name;
use std::alloc::{AllocError, Global};

/// `.k`
fn member_link(alloc: Global, name: &Name, chain: Chained) -> Result<Chained, AllocError>
    ensures { IfOk result (λ c. c ≡ record { reached = accessed chain.reached (Named (WordKey name.now)); sited = chain.sited }) }
{
    let Chained { reached, sited } = chain;
    let name = MemberName::Named(Key::WordKey(name.copy(alloc)?));
    let reached = lower_accessed(alloc, reached, name)?;
    Ok(Chained { reached, sited })
}

/// `[k]`
fn index_link<E: Fn(Around, &Expression, &mut Lowerer) -> Result<Reached, AllocError>, P, S, F>(
    here: &Here<'_, E, P, S, F>,
    begin: u32,
    index: &Expression,
    chain: Chained,
    state: &mut Lowerer,
) -> Result<Chained, AllocError>
    requires expressions { HasExpressions E.pre E.post here.now }
    ensures { LowersAs chained_of (done_at here.now.around (indexed_with (expression_lowered index.now) begin (chained_of chain)) state.old) result state.new }
{
    let name = here.indexed(index, state)?;
    let Chained { reached, sited } = chain;
    let reached = lower_accessed(here.around.alloc, reached, name)?;
    Ok(Chained { reached, sited })
}

/// A call with arguments.
fn call_link<E: Fn(Around, &Expression, &mut Lowerer) -> Result<Reached, AllocError>, P, S, F>(
    here: &Here<'_, E, P, S, F>,
    begin: u32,
    arguments: &[Argument],
    chain: Chained,
    state: &mut Lowerer,
) -> Result<Chained, AllocError>
    requires expressions { HasExpressions E.pre E.post here.now }
    ensures { LowersAs chained_of (done_at here.now.around (called_with (map argument_lowered arguments.now) begin (chained_of chain)) state.old) result state.new }
{
    let parts = lower_argument_list(here, arguments, state)?;
    let Chained { reached, sited } = chain;
    let alloc = here.around.alloc;
    let site = site_at(sited, begin, here.around.context);
    let call = lower_called(alloc, reached, parts, site, &mut state.names)?;
    Ok(Chained {
        reached: Reached::Value(call),
        sited: true,
    })
}

/// A tagged template.
fn tagged_link<E: Fn(Around, &Expression, &mut Lowerer) -> Result<Reached, AllocError>, P, S, F>(
    here: &Here<'_, E, P, S, F>,
    begin: u32,
    template: &Template,
    chain: Chained,
    state: &mut Lowerer,
) -> Result<Chained, AllocError>
    requires expressions { HasExpressions E.pre E.post here.now }
    ensures { LowersAs chained_of (done_at here.now.around (tagged_with (template_lowered template.now) begin (chained_of chain)) state.old) result state.new }
{
    let values = lower_template_values(here, template, state)?;
    let Chained { reached, sited } = chain;
    let alloc = here.around.alloc;
    let object = template_object_of(alloc, template)?;
    let site = site_at(sited, begin, here.around.context);
    let call = lower_called_as_tag(alloc, reached, object, values, site, &mut state.names)?;
    Ok(Chained {
        reached: Reached::Value(call),
        sited: true,
    })
}

/// A chain with one link more; it begins at an offset in bytes.
#[tactic(auto, unfolding(module_lowering::specs::Lowered::argument_lowered, module_lowering::specs::Lowered::expression_lowered, module_lowering::specs::Lowered::link_lowered, module_lowering::specs::Lowered::template_lowered))]
fn lower_link<E: Fn(Around, &Expression, &mut Lowerer) -> Result<Reached, AllocError>, P, S, F>(
    here: &Here<'_, E, P, S, F>,
    begin: u32,
    link: &Link,
    chain: Chained,
    state: &mut Lowerer,
) -> Result<Chained, AllocError>
    requires expressions { HasExpressions E.pre E.post here.now }
    ensures { LowersAs chained_of (done_at here.now.around (linked_at begin (link_lowered link.now) (chained_of chain)) state.old) result state.new }
{
    match link {
        Link::Member { name, .. } => member_link(here.around.alloc, &name.name, chain),
        Link::Index { index, .. } => index_link(here, begin, index, chain, state),
        Link::Call { arguments, .. } => call_link(here, begin, arguments.as_slice(), chain, state),
        Link::Tagged(template) => tagged_link(here, begin, template, chain, state),
    }
}

/// A chain with these links more.
fn lower_links<E: Fn(Around, &Expression, &mut Lowerer) -> Result<Reached, AllocError>, P, S, F>(
    here: &Here<'_, E, P, S, F>,
    begin: u32,
    links: &[Link],
    chain: Chained,
    state: &mut Lowerer,
) -> Result<Chained, AllocError>
    requires expressions { HasExpressions E.pre E.post here.now }
    ensures { LowersAs chained_of (done_at here.now.around (along_by (linked_at begin) (map link_lowered links.now) (chained_of chain)) state.old) result state.new }
{
    let mut chain = chain;
    for link in links {
        chain = lower_link(here, begin, link, chain, state)?;
    }
    Ok(chain)
}

/// What a chain comes to that begins at an offset in bytes.
pub fn lower_chain<
    E: Fn(Around, &Expression, &mut Lowerer) -> Result<Reached, AllocError>,
    P,
    S,
    F,
>(
    here: &Here<'_, E, P, S, F>,
    begin: u32,
    head: &Expression,
    links: &[Link],
    state: &mut Lowerer,
) -> Result<Reached, AllocError>
    requires expressions { HasExpressions E.pre E.post here.now }
    ensures { Lowers (done_at here.now.around (chain_reached begin (expression_lowered head.now) (map link_lowered links.now)) state.old) result state.new }
{
    let reached = here.reached(head, state)?;
    let sited = reached_sited(&reached);
    let chain = lower_links(here, begin, links, Chained { reached, sited }, state)?;
    let Chained { reached, .. } = chain;
    Ok(reached)
}
