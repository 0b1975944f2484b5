//! What the flattening of yields makes of parts of a core.

use core_ast::{CoreCase, CoreExpr, CoreStat, Key};
use es_outside::Site;
use sqlite_items::Items;

/// Where a part is turned: the number of the first slot that is free, and the first label that is.
#[derive(Clone, Copy, Debug, PartialEq, Eq)]
pub struct Place {
    pub slot: u32,
    pub label: u32,
}

/// An expression without yields: statements before it, and what is left of it.
#[derive(Drop)]
pub struct Spilled {
    pub before: Items<CoreStat>,
    pub rest: CoreExpr,
}

/// A link that makes a reference to a property.
#[derive(Drop)]
pub enum Reference {
    Named {
        key: Key,
        site: Option<Site>,
    },
    /// with the one part of an index
    Keyed {
        keys: Items<CoreExpr>,
        site: Option<Site>,
    },
}

/// An expression so far, whose last link stands apart where it makes a reference.
#[derive(Drop)]
pub struct Chain {
    pub before: Items<CoreStat>,
    pub base: CoreExpr,
    pub reference: Option<Reference>,
}

/// The parts of a link: statements before them, and what is left of each.
#[derive(Drop)]
pub struct Settled {
    pub before: Items<CoreStat>,
    pub parts: Items<CoreExpr>,
}

/// A case without yields in its test.
#[derive(Drop)]
pub struct SpilledCase {
    pub before: Items<CoreStat>,
    pub test: Option<CoreExpr>,
    pub body: Items<CoreStat>,
}

/// The cases of a switch whose tests have statements: these with the tests, the cases by their numbers, and the number of the
/// default.
#[derive(Drop)]
pub struct Matching {
    pub tests: Items<CoreStat>,
    pub cases: Items<CoreCase>,
    pub default: Option<usize>,
}
