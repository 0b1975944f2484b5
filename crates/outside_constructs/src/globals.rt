//! The global names that both realms have.

ghost use Rattle.std.specs.Prelude.{◌≡◌, ◌∷◌, codes};
ghost use Rattle.std.specs.List.{list_any};
ghost use Rattle.std.specs.Str.{bytes_eq};
ghost use Rattle.es_outside.specs.HostNames.{is_among, kept_globals};

const KEPT_GLOBALS: [&[u8]; 8] = [
    b"undefined",
    b"Object",
    b"Array",
    b"String",
    b"Error",
    b"TypeError",
    b"ReferenceError",
    b"RangeError",
];

/// Whether both realms have a global of this name.
#[tactic(auto, unfolding(es_outside::specs::HostNames::kept_globals))]
pub(crate) fn is_kept_global(name: &[u8]) -> bool
    ensures { result ≡ is_among kept_globals name.now }
{
    let words = KEPT_GLOBALS;
    is_among(&words, name)
}

/// Whether a global of this name means something in the profile: `Symbol` does where it is a part of a key.
pub(crate) fn is_known_global(name: &[u8]) -> bool
    ensures { result ≡ is_among (codes "Symbol" ∷ kept_globals) name.now }
{
    (b"Symbol".as_slice() == name) | is_kept_global(name)
}

fn is_among(words: &[&[u8]], name: &[u8]) -> bool
    ensures { result ≡ list_any (λ word. bytes_eq word.now name.now) words.now }
{
    words.iter().any(|word| *word == name)
}
