//! The static semantics of modules of ECMAScript 2015, in `specs/`: the names that they bind, early errors, constructs outside the
//! profile, where imported and exported names end, and graphs that are loaded and linked. There is no code here.
//!
//! They stand above the trees and the grammar, and not beside them, so that the readers of modules don't rest on them.
#![tactic(auto)]
