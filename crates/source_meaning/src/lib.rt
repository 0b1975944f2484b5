//! The meaning of ES2015 modules on their trees: definitions alone, in `specs/`.
#![tactic(auto)]
