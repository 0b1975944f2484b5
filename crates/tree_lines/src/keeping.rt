//! Trees that are kept until the program ends.

use std::mem::ManuallyDrop;

/// A tree that is never let go. Its nodes hold memory and nothing else, which is given back when the program ends. Were a tree let go,
/// the check of the program would prove for each of its 27 kinds of nodes how.
pub fn kept<T>(tree: T) -> ManuallyDrop<T> {
    unsafe { ManuallyDrop::new_unchecked(tree) }
}
