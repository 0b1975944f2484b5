//! What a module requests: its specifiers in text order (ModuleRequests, ECMA-262, 6th edition, 15.2.1.10).
#![tactic(auto)]

mod requests;

pub use requests::requests_of;
