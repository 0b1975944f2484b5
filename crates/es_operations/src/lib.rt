//! The internal operations of the standard as calls of the machine of the library's functions, and what evaluation makes: definitions
//! alone, in `specs/`.
#![tactic(auto)]
