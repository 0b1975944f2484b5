//! Nodes of the program, which are borrowed, and which contracts see as they are.

ghost use Rattle.std.specs.Prelude.{◌≡◌, ◌∷◌, [], MatchOption};

use sqlite_items::Items;
use std::marker::Model;

/// A node.
#[derive(Drop)]
pub struct Node<'a, T> {
    node: &'a T,
}

impl<'a, T> Model for Node<'a, T> {
    ghost Value = { T };

    ghost view = { λ n. n.node.now };
}

impl<'a, T> Node<'a, T> {
    pub fn of(node: &'a T) -> Node<'a, T>
        ensures { result ≡ node.now }
    {
        Node { node }
    }

    pub fn get(&self) -> &'a T
        ensures { result.now ≡ self.now }
    {
        self.node
    }

    pub fn share(&self) -> Node<'a, T>
        ensures { result ≡ self.now }
    {
        Node { node: self.node }
    }
}

/// The nodes that are left of a list. One list is enough for all that is left of it, so that a reference reaches no node.
#[derive(Drop)]
pub struct Nodes<'a, T> {
    items: Option<&'a Items<T>>,
    from: usize,
}

impl<'a, T> Model for Nodes<'a, T> {
    ghost use Rattle.std.specs.Prelude.{List, [], drop, unwrap_or};
    ghost use Rattle.std.specs.Option.{option_copied};

    ghost Value = { List T };

    ghost view = { λ n. drop n.from (unwrap_or (option_copied n.items) []) };
}

impl<'a, T> Nodes<'a, T> {
    /// No node.
    pub fn none() -> Nodes<'a, T>
        ensures { result ≡ [] }
    {
        Nodes {
            items: None,
            from: 0,
        }
    }

    pub fn of(items: &'a Items<T>) -> Nodes<'a, T>
        ensures { result ≡ items.now }
    {
        Nodes {
            items: Some(items),
            from: 0,
        }
    }

    pub fn share(&self) -> Nodes<'a, T>
        ensures { result ≡ self.now }
    {
        Nodes {
            items: self.items,
            from: self.from,
        }
    }

    /// The first, and what is left behind it.
    pub fn first(&self) -> Option<(&'a T, Nodes<'a, T>)>
        ensures { MatchOption result (self.now ≡ []) (λ p. self.now ≡ p.0.now ∷ p.1) }
    {
        let items = self.items?;
        if self.from < items.len() {
            let rest = Nodes {
                items: self.items,
                from: self.from + 1,
            };
            Some((&items.as_slice()[self.from], rest))
        } else {
            None
        }
    }
}
