//! Equal events and endings.

ghost use Rattle.std.specs.Prelude.{◌≡◌, IfOk};

use es_outside::{Ending, Event, Prims, Seen};
use std::alloc::{AllocError, Global};

pub(crate) fn copy_event(alloc: Global, event: &Event) -> Result<Event, AllocError>
    ensures { IfOk result (λ copy. copy ≡ event.now) }
{
    Ok(Event {
        host: event.host,
        args: Prims::copy_of(alloc, event.args.list())?,
        site: event.site,
    })
}

fn copy_seen(alloc: Global, seen: &Seen) -> Result<Seen, AllocError>
    ensures { IfOk result (λ copy. copy ≡ seen.now) }
{
    match seen {
        Seen::Prim(prim) => Ok(Seen::Prim(prim.copy(alloc)?)),
        Seen::Error => Ok(Seen::Error),
        Seen::TypeError => Ok(Seen::TypeError),
        Seen::ReferenceError => Ok(Seen::ReferenceError),
        Seen::RangeError => Ok(Seen::RangeError),
        Seen::Object => Ok(Seen::Object),
    }
}

pub(crate) fn copy_ending(alloc: Global, ending: &Ending) -> Result<Ending, AllocError>
    ensures { IfOk result (λ copy. copy ≡ ending.now) }
{
    match ending {
        Ending::Ended => Ok(Ending::Ended),
        Ending::Threw(seen) => Ok(Ending::Threw(copy_seen(alloc, seen)?)),
        Ending::Left { exit, site } => Ok(Ending::Left {
            exit: *exit,
            site: *site,
        }),
    }
}
