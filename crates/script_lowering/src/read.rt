//! What is read of a statement.

use core_ast::CoreStat;
use sqlite_items::Items;

/// The statements of one, of which the last is a loop where labels go to it.
#[derive(Drop)]
pub struct StatRead {
    pub stats: Items<CoreStat>,
    pub is_loop: bool,
}
