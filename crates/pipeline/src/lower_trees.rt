//! The tie of the walk that lowers modules: the walkers of expressions, patterns, statements and functions, which are handed to
//! each other, and `lower`, which begins with them.

mod lowering;
mod walkers;

pub use lowering::lower;
pub use walkers::{walk_expression, walk_function, walk_pattern, walk_statement};
