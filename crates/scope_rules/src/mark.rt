//! What is said of scopes at a place of a module.

use crate::kinds::{Kind, ScopeKind};
use crate::spelling::Spelling;

/// Something that a module says of scopes or names. Places are offsets in bytes.
#[derive(Drop)]
pub enum Mark<'a> {
    ScopeBegins {
        kind: ScopeKind,
        at: u32,
    },
    ScopeEnds,
    /// a loop's first token, before the scope of its head
    LoopBegins,
    LoopEnds,
    /// where not all names of the innermost scope have their values: parameters, and the subject of a for-of
    HeadBegins,
    HeadEnds,
    /// a name that is declared in the innermost scope, or by `var` in that of the function, and where its declarator ends
    Declares {
        kind: Kind,
        name: Spelling<'a>,
        at: u32,
        end: u32,
    },
    /// a reference by name (12.1)
    Refers {
        name: Spelling<'a>,
        at: u32,
    },
}
