ghost use Rattle.std.specs.Prelude.{◌≡◌, MatchOption, IfNone, IfSome, map};
ghost use Rattle.es_outside.specs.NamedList.{IsNamed, NoneNamed};
ghost use Rattle.es_outside.specs.Refusals.{AreHostNames, IsRefused};

use crate::Host;
use crate::host_names::may_name_host;

/// The number of a refusal: the name is no identifier in ASCII, or names something else.
pub(crate) const BAD_HOST_NAME: u8 = 1;

/// The number of a refusal: the name stands earlier.
pub(crate) const DUPLICATE_HOST: u8 = 2;

/// What stands in a list under its name.
pub(crate) trait Named {
    ghost use Rattle.std.specs.Prelude.{ℕ, List};

    ghost label: { Self → List ℕ };

    fn name(&self) -> &str
        ensures { result.now ≡ label self.now };
}

impl Named for String {
    ghost use Rattle.std.specs.Prelude.{string_bytes};

    ghost label = { λ name. string_bytes name };

    fn name(&self) -> &str {
        self.as_str()
    }
}

impl Named for (String, Box<dyn Host>) {
    ghost use Rattle.std.specs.Prelude.{string_bytes};

    ghost label = { λ entry. string_bytes entry.0 };

    fn name(&self) -> &str {
        self.0.as_str()
    }
}

/// The number and the index of the first name by which a host can't stand in the list.
pub(crate) fn first_refusal<N: Named>(list: &[N]) -> Option<(u8, usize)>
    ensures { MatchOption result (AreHostNames (map N.label list.now))
        (λ refusal. IsRefused (map N.label list.now) refusal.0 refusal.1) }
{
    for (at, entry) in list.iter().enumerate() {
        let name = entry.name();
        if !may_name_host(name) {
            return Some((BAD_HOST_NAME, at));
        }
        if position_of(&list[..at], name).is_some() {
            return Some((DUPLICATE_HOST, at));
        }
    }
    None
}

/// The index of the first entry with this name.
pub(crate) fn position_of<N: Named>(list: &[N], name: &str) -> Option<usize>
    ensures none { IfNone result (NoneNamed (map N.label list.now) name.now) }
    ensures some { IfSome result (IsNamed (map N.label list.now) name.now) }
{
    for (index, entry) in list.iter().enumerate() {
        if entry.name() == name {
            return Some(index);
        }
    }
    None
}
