//! What functions and methods have after their names (ECMA-262, 6th edition, 14.1).

/// The parameters and the body of a function.
#[derive(Drop)]
pub struct Signature<P, S> {
    pub parameters: P,
    pub body: S,
}
