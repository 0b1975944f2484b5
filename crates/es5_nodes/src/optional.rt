//! Children that may be absent.

ghost use Rattle.std.specs.Prelude.{◌≡◌};

use sqlite_items::Boxed;

/// The child in its node.
pub fn unboxed<T>(value: Option<Boxed<T>>) -> Option<T>
    ensures { result ≡ value }
{
    match value {
        Some(value) => Some(value.into_inner()),
        None => None,
    }
}
