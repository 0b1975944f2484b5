//! What scripts don't have.

/// What stands in the place of values that no program sees, and of work that is pending besides. No step of a script makes it.
#[derive(Drop)]
pub struct Nothing;
