//! Members of a class that are to be defined.

ghost use Rattle.std.specs.Prelude.{◌≡◌, ◌∷◌, [], MatchOption, codes};
ghost use Rattle.std.specs.Str.{bytes_eq};
ghost use Rattle.es6_ast.specs.declared.tree.Key.{out-Key};
ghost use Rattle.source_state.specs.Members.{is_constructor, is_constructor_key, is_plain_method, other_members};

use crate::nodes::Nodes;
use es6_ast::{ClassMember, Key, MethodKind};
use sqlite_items::Items;
use std::marker::Model;

/// What is left of the members of a class, but its constructor (ECMA-262, 6th edition, 14.5.3).
#[derive(Drop)]
pub struct Members<'a> {
    members: Nodes<'a, ClassMember>,
}

impl<'a> Model for Members<'a> {
    ghost use Rattle.std.specs.Prelude.{List};
    ghost use Rattle.es6_ast.specs.declared.tree.ClassMember.{ClassMember};
    ghost use Rattle.es6_ast.specs.contracts.tree.ClassMember as node;
    ghost use Rattle.std.specs.Coded.{codes};
    ghost use Rattle.source_state.specs.Members.{other_members};

    ghost Value = { List ClassMember };

    ghost coded = { Prim.hlevel (codes, node.the_row.coded) };

    ghost view = { λ m. other_members m.members };
}

impl<'a> Members<'a> {
    /// All but the constructor.
    pub fn of(members: &'a Items<ClassMember>) -> Members<'a>
        ensures { result ≡ other_members members.now }
    {
        Members {
            members: Nodes::of(members),
        }
    }

    pub fn share(&self) -> Members<'a>
        ensures { result ≡ self.now }
    {
        Members {
            members: self.members.share(),
        }
    }

    /// The first, and what is left behind it.
    pub fn first(&self) -> Option<(&'a ClassMember, Members<'a>)>
        ensures { MatchOption result (self.now ≡ []) (λ p. self.now ≡ p.0.now ∷ p.1) }
    {
        first_of(self.members.share())
    }
}

/// The first member but a constructor, and what is left behind it.
fn first_of<'a>(members: Nodes<'a, ClassMember>) -> Option<(&'a ClassMember, Members<'a>)>
    ensures { MatchOption result (other_members members.entry ≡ []) (λ p. other_members members.entry ≡ p.0.now ∷ p.1) }
{
    let mut rest = members;
    while let Some((member, members)) = rest.first() {
        if !is_constructor(member) {
            return Some((member, Members { members }));
        }
        rest = members;
    }
    None
}

/// Whether the member is the constructor of its class.
pub fn is_constructor(member: &ClassMember) -> bool
    ensures { result ≡ is_constructor member.now }
{
    !member.is_static
        && is_plain_method(member.method.kind)
        && is_constructor_key(&member.method.key)
}

fn is_plain_method(kind: MethodKind) -> bool
    ensures { result ≡ is_plain_method kind }
{
    matches!(kind, MethodKind::PlainMethod)
}

/// The units of `constructor`.
const CONSTRUCTOR: [u16; 11] = [99, 111, 110, 115, 116, 114, 117, 99, 116, 111, 114];

fn is_constructor_key(key: &Key) -> bool
    ensures { result ≡ is_constructor_key (out-Key key.now) }
{
    match key {
        Key::WordKey { name, .. } => b"constructor".as_slice() == name.bytes(),
        Key::TextKey { units, .. } => &CONSTRUCTOR[..] == units.units(),
        _ => false,
    }
}
