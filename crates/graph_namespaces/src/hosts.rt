//! The names of hosts.

ghost use Rattle.std.specs.Prelude.{◌≡◌, IfOk};

use es_outside::HostNames;
use shared_text::Name;
use sqlite_items::Items;
use std::alloc::{AllocError, Global};

/// The names of the hosts, in order.
pub(crate) fn names_of(alloc: Global, hosts: &HostNames) -> Result<Items<Name>, AllocError>
    ensures { IfOk result (λ names. names ≡ hosts.now) }
{
    let mut names = Items::new(alloc);
    let mut index = 0;
    while index < hosts.len() {
        let Some(name) = hosts.name(index) else {
            return Err(AllocError);
        };
        names.push(Name::of_bytes(alloc, name.as_bytes())?)?;
        index += 1;
    }
    Ok(names)
}
