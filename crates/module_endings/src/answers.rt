//! What is answered for the names that modules want.

ghost use Rattle.std.specs.Prelude.{◌≡◌, IfOk};
ghost use Rattle.module_flows.specs.Flows.{found_at};
ghost use Rattle.module_endings.specs.Ends.{AreOutcomes, all_wants};
ghost use Rattle.module_endings.specs.Webs.{AreDistinct, FitAll, Fits};

use crate::cover::{cover_all, entries_of};
use crate::ends::end_at;
use crate::summary::Summary;
use crate::wanted::Wanted;
use crate::web::Web;
use es6_ast::EndOf;
use module_flows::{Found, found_at, reached};
use shared_text::Name;
use sqlite_items::Items;
use std::alloc::{AllocError, Global};

/// Where a name ends.
#[derive(Debug, Drop)]
pub enum Outcome {
    Unresolved,
    /// in more than one place
    Ambiguous,
    Ends(EndOf),
}

/// Where each wanted name ends, in the order of the modules. No two hosts have one name.
///
/// The time is linear in the wanted names and the steps from them.
pub fn outcomes(
    alloc: Global,
    modules: &[Summary],
    hosts: &[Name],
) -> Result<Items<Outcome>, AllocError>
    requires { AreDistinct hosts.now }
    ensures { IfOk result (λ all. AreOutcomes modules.now hosts.now (all_wants modules.now) all) }
{
    let mut wanted = Wanted::of(alloc, modules)?;
    let entries = entries_of(alloc, modules)?;
    cover_all(alloc, &mut wanted.web, &entries, hosts)?;
    let found = reached(alloc, &wanted.web.users, wanted.web.ends.as_slice())?;
    let numbers = wanted.numbers.as_slice();
    let all = answers(alloc, &wanted.web, hosts, found.as_slice(), numbers)?;
    Ok(all)
}

/// What is answered for these places, each of which has found this.
fn answers(
    alloc: Global,
    web: &Web,
    hosts: &[Name],
    found: &[Found],
    numbers: &[usize],
) -> Result<Items<Outcome>, AllocError>
    ensures { IfOk result (λ all. FitAll hosts.now web.now found.now numbers.now all) }
{
    let mut all = Items::new(alloc);
    for number in numbers {
        all.push(answer(alloc, web, hosts, found_at(found, *number))?)?;
    }
    Ok(all)
}

fn answer(alloc: Global, web: &Web, hosts: &[Name], found: Found) -> Result<Outcome, AllocError>
    ensures { IfOk result (λ outcome. Fits hosts.now web.now found outcome) }
{
    match found {
        Found::Nothing => Ok(Outcome::Unresolved),
        Found::Several => Ok(Outcome::Ambiguous),
        Found::One(at) => match web.places.get_index(at) {
            None => Ok(Outcome::Unresolved),
            Some(place) => match end_at(alloc, hosts, place)? {
                None => Ok(Outcome::Unresolved),
                Some(end) => Ok(Outcome::Ends(end)),
            },
        },
    }
}
