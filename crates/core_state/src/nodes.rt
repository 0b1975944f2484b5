//! Nodes of the program, which are borrowed, and which contracts see as they are.

ghost use Rattle.std.specs.Prelude.{◌≡◌, ◌∷◌, [], MatchOption};

use core_ast::{CoreCase, CoreExpr, CoreLink, CoreOp, Label, ScopedName};
use std::marker::Model;

/// An expression.
#[derive(Drop)]
pub struct Expr<'a> {
    nodes: &'a CoreExpr,
}

impl<'a> Model for Expr<'a> {
    ghost use Rattle.core_ast.specs.declared.tree.CoreExpr.{CoreExpr};
    ghost use Rattle.core_ast.specs.contracts.tree.CoreExpr as node;
    ghost use Rattle.std.specs.Coded.{codes};

    ghost Value = { CoreExpr };

    ghost coded = { Prim.hlevel (codes, node.the_row.coded) };

    ghost view = { λ n. n.nodes.now };
}

impl<'a> Expr<'a> {
    pub fn of(nodes: &'a CoreExpr) -> Expr<'a>
        ensures { result ≡ nodes.now }
    {
        Expr { nodes }
    }

    pub fn get(&self) -> &'a CoreExpr
        ensures { result.now ≡ self.now }
    {
        self.nodes
    }

    pub fn share(&self) -> Expr<'a>
        ensures { result ≡ self.now }
    {
        Expr { nodes: self.nodes }
    }
}

/// What a strict link does.
#[derive(Drop)]
pub struct Op<'a> {
    nodes: &'a CoreOp,
}

impl<'a> Model for Op<'a> {
    ghost use Rattle.core_ast.specs.declared.parts.CoreOp.{CoreOp};

    ghost Value = { CoreOp };

    ghost view = { λ n. n.nodes.now };
}

impl<'a> Op<'a> {
    pub fn of(nodes: &'a CoreOp) -> Op<'a>
        ensures { result ≡ nodes.now }
    {
        Op { nodes }
    }

    pub fn get(&self) -> &'a CoreOp
        ensures { result.now ≡ self.now }
    {
        self.nodes
    }

    pub fn share(&self) -> Op<'a>
        ensures { result ≡ self.now }
    {
        Op { nodes: self.nodes }
    }
}

/// The links that are left.
#[derive(Drop)]
pub struct Links<'a> {
    nodes: &'a [CoreLink],
}

impl<'a> Model for Links<'a> {
    ghost use Rattle.std.specs.Prelude.{List};
    ghost use Rattle.core_ast.specs.declared.tree.CoreLink.{CoreLink};
    ghost use Rattle.core_ast.specs.contracts.tree.CoreLink as node;
    ghost use Rattle.std.specs.Coded.{codes};

    ghost Value = { List CoreLink };

    ghost coded = { Prim.hlevel (codes, node.the_row.coded) };

    ghost view = { λ n. n.nodes.now };
}

impl<'a> Links<'a> {
    pub fn of(nodes: &'a [CoreLink]) -> Links<'a>
        ensures { result ≡ nodes.now }
    {
        Links { nodes }
    }

    pub fn get(&self) -> &'a [CoreLink]
        ensures { result.now ≡ self.now }
    {
        self.nodes
    }

    pub fn share(&self) -> Links<'a>
        ensures { result ≡ self.now }
    {
        Links { nodes: self.nodes }
    }

    /// The first, and what is left behind it.
    pub fn first(&self) -> Option<(&'a CoreLink, Links<'a>)>
        ensures { MatchOption result (self.now ≡ []) (λ p. self.now ≡ p.0.now ∷ p.1) }
    {
        match self.nodes.split_first() {
            None => None,
            Some((first, nodes)) => Some((first, Links { nodes })),
        }
    }
}

/// The parts that are left.
#[derive(Drop)]
pub struct Exprs<'a> {
    nodes: &'a [CoreExpr],
}

impl<'a> Model for Exprs<'a> {
    ghost use Rattle.std.specs.Prelude.{List};
    ghost use Rattle.core_ast.specs.declared.tree.CoreExpr.{CoreExpr};
    ghost use Rattle.core_ast.specs.contracts.tree.CoreExpr as node;
    ghost use Rattle.std.specs.Coded.{codes};

    ghost Value = { List CoreExpr };

    ghost coded = { Prim.hlevel (codes, node.the_row.coded) };

    ghost view = { λ n. n.nodes.now };
}

impl<'a> Exprs<'a> {
    pub fn of(nodes: &'a [CoreExpr]) -> Exprs<'a>
        ensures { result ≡ nodes.now }
    {
        Exprs { nodes }
    }

    pub fn get(&self) -> &'a [CoreExpr]
        ensures { result.now ≡ self.now }
    {
        self.nodes
    }

    pub fn share(&self) -> Exprs<'a>
        ensures { result ≡ self.now }
    {
        Exprs { nodes: self.nodes }
    }

    /// The first, and what is left behind it.
    pub fn first(&self) -> Option<(&'a CoreExpr, Exprs<'a>)>
        ensures { MatchOption result (self.now ≡ []) (λ p. self.now ≡ p.0.now ∷ p.1) }
    {
        match self.nodes.split_first() {
            None => None,
            Some((first, nodes)) => Some((first, Exprs { nodes })),
        }
    }
}

/// The cases that are left.
#[derive(Drop)]
pub struct Cases<'a> {
    nodes: &'a [CoreCase],
}

impl<'a> Model for Cases<'a> {
    ghost use Rattle.std.specs.Prelude.{List};
    ghost use Rattle.core_ast.specs.declared.tree.CoreCase.{CoreCase};
    ghost use Rattle.core_ast.specs.contracts.tree.CoreCase as node;
    ghost use Rattle.std.specs.Coded.{codes};

    ghost Value = { List CoreCase };

    ghost coded = { Prim.hlevel (codes, node.the_row.coded) };

    ghost view = { λ n. n.nodes.now };
}

impl<'a> Cases<'a> {
    pub fn of(nodes: &'a [CoreCase]) -> Cases<'a>
        ensures { result ≡ nodes.now }
    {
        Cases { nodes }
    }

    pub fn get(&self) -> &'a [CoreCase]
        ensures { result.now ≡ self.now }
    {
        self.nodes
    }

    pub fn share(&self) -> Cases<'a>
        ensures { result ≡ self.now }
    {
        Cases { nodes: self.nodes }
    }

    /// The first, and what is left behind it.
    pub fn first(&self) -> Option<(&'a CoreCase, Cases<'a>)>
        ensures { MatchOption result (self.now ≡ []) (λ p. self.now ≡ p.0.now ∷ p.1) }
    {
        match self.nodes.split_first() {
            None => None,
            Some((first, nodes)) => Some((first, Cases { nodes })),
        }
    }
}

/// The labels of a loop.
#[derive(Drop)]
pub struct Labels<'a> {
    nodes: &'a [Label],
}

impl<'a> Model for Labels<'a> {
    ghost use Rattle.std.specs.Prelude.{List};
    ghost use Rattle.core_ast.specs.declared.parts.Label.{Label};

    ghost Value = { List Label };

    ghost view = { λ n. n.nodes.now };
}

impl<'a> Labels<'a> {
    pub fn of(nodes: &'a [Label]) -> Labels<'a>
        ensures { result ≡ nodes.now }
    {
        Labels { nodes }
    }

    pub fn get(&self) -> &'a [Label]
        ensures { result.now ≡ self.now }
    {
        self.nodes
    }

    pub fn share(&self) -> Labels<'a>
        ensures { result ≡ self.now }
    {
        Labels { nodes: self.nodes }
    }
}

/// The names of a scope.
#[derive(Drop)]
pub struct Names<'a> {
    nodes: &'a [ScopedName],
}

impl<'a> Model for Names<'a> {
    ghost use Rattle.std.specs.Prelude.{List};
    ghost use Rattle.core_ast.specs.declared.parts.ScopedName.{ScopedName};

    ghost Value = { List ScopedName };

    ghost view = { λ n. n.nodes.now };
}

impl<'a> Names<'a> {
    pub fn of(nodes: &'a [ScopedName]) -> Names<'a>
        ensures { result ≡ nodes.now }
    {
        Names { nodes }
    }

    pub fn get(&self) -> &'a [ScopedName]
        ensures { result.now ≡ self.now }
    {
        self.nodes
    }

    pub fn share(&self) -> Names<'a>
        ensures { result ≡ self.now }
    {
        Names { nodes: self.nodes }
    }
}
