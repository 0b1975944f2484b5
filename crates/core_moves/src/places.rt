//! Where a step stands: the innermost call under way has a site, or the context was made by one.

ghost use Rattle.std.specs.Prelude.{◌≡◌, ◌<◌, Some, length, reverse, slice_get};
ghost use Rattle.core_meaning.specs.Rows.{leaves, nearest, or_else, place_of, site_in, unlawful};
ghost use Rattle.core_moves.specs.Moves.{Steps};

use crate::moves::{Move, Moved};
use core_state::{Frame, State};
use es_outside::Site;

fn site_in<'a, M, W>(frame: &Frame<'a, M, W>) -> Option<Site>
    ensures { result ≡ site_in frame.now }
{
    match frame {
        Frame::Part(strict) => strict.site,
        Frame::Operation(site, _) => *site,
        _ => None,
    }
}

/// The place of the innermost frame that has one; the top frame stands last.
#[tactic(auto, using(crate::proofs::Stacks::nearest_take))]
fn nearest<'a, M, W>(frames: &[Frame<'a, M, W>], site: Site) -> Site
    ensures { result ≡ nearest (reverse frames.now) site }
{
    let mut count = frames.len();
    'below: while count > 0 {
        count -= 1;
        if let Some(own) = site_in(&frames[count]) {
            return own;
        }
    }
    site
}

/// Where the next step stands.
pub fn place_of<'a, M, O, W, S>(st: &State<'a, M, O, W, S>) -> Site
    ensures { result ≡ place_of st.now }
{
    nearest(st.context.frames.as_slice(), st.context.site)
}

/// The site, or where the step stands if there is none.
pub fn place_or<'a, M, O, W, S>(site: Option<Site>, st: &State<'a, M, O, W, S>) -> Site
    ensures { result ≡ or_else site (place_of st.now) }
{
    match site {
        None => place_of(st),
        Some(site) => site,
    }
}

/// Leaves the profile at the exit of this number.
pub fn leave<'a, M, O, W, S>(st: &State<'a, M, O, W, S>, number: u8) -> Moved<'a, M>
    ensures { Steps result st.now (leaves number st.now) }
{
    Ok(Move::Leaves {
        number,
        site: place_of(st),
    })
}

/// No lawful core comes here.
pub fn unlawful<'a, M, O, W, S>(st: &State<'a, M, O, W, S>) -> Moved<'a, M>
    ensures { Steps result st.now (unlawful st.now) }
{
    leave(st, 0)
}
