//! Classes: the constructor (ECMA-262, 6th edition, 14.5.3); and names that may be left out.

ghost use Rattle.std.specs.Prelude.{◌≡◌};
ghost use Rattle.source_meaning.specs.Trees.{constructor_in, optional_name};

use es6_ast::{ClassMember, Function, Identifier};
use source_state::{BorrowedName, Node, is_constructor};

/// The constructor among the members of a class, if it has one.
pub fn constructor_in<'a>(members: &'a [ClassMember]) -> Option<Node<'a, Function>>
    ensures { result ≡ constructor_in members.now }
{
    for member in members {
        if is_constructor(member) {
            return Some(Node::of(member.method.function.get()));
        }
    }
    None
}

/// A name, if there is one.
pub fn optional_name<'a>(name: &'a Option<Identifier>) -> Option<BorrowedName<'a>>
    ensures { result ≡ optional_name name.now }
{
    match name {
        None => None,
        Some(name) => Some(BorrowedName::of(name.name.bytes())),
    }
}
