//! What is drawn from and added to on the way.

use core_ast::CoreFunction;
use lowering_rules::Names;
use sqlite_items::Items;

/// What was met in the innermost function that is no arrow, and in arrows there.
#[derive(Clone, Copy)]
pub struct Seen {
    pub this: bool,
    pub arguments: bool,
}

/// The names of the core so far and the temporaries of the function at hand, the functions so far, and what was met in the
/// function at hand.
#[derive(Drop)]
pub struct Lowerer {
    pub names: Names,
    pub functions: Items<CoreFunction>,
    pub seen: Seen,
}
