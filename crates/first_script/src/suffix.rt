//! The suffix of declared names, by which no name of a script is a host's.

ghost use Rattle.std.specs.Prelude.{◌≡◌, ◌≤◌, length, IfOk};
ghost use Rattle.first_script.specs.Suffix.{trailing_dollars, suffix_for};

use shared_text::Name;
use std::alloc::{AllocError, Global};

/// One `$` more than any host's name ends with.
pub(crate) fn suffix_of(alloc: Global, hosts: &[Name]) -> Result<Vec<u8>, AllocError>
    ensures { IfOk result (λ suffix. suffix.items ≡ suffix_for hosts.now) }
{
    let mut most: usize = 0;
    for host in hosts {
        most = most.max(dollars_at_end(host.bytes()));
    }
    vec![in alloc; b'$'; most + 1]
}

/// How many `$` the name ends with.
fn dollars_at_end(name: &[u8]) -> usize
    ensures value { result ≡ trailing_dollars 0 name.now }
    ensures within { result ≤ length name.now }
{
    let mut run: usize = 0;
    for byte in name {
        run = if *byte == b'$' { run + 1 } else { 0 };
    }
    run
}
