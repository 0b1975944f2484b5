//! Where in the scopes of a module something stands.

ghost use Rattle.std.specs.Prelude.{◌≡◌};
ghost use Rattle.scope_rules.specs.scope_tables.Scoping.{entered, outermost};

use crate::ScopeKind;

/// A place by the scopes round it. Scopes are numbered in the order in which they begin.
#[derive(Clone, Copy, Debug, PartialEq, Eq)]
pub struct Place {
    /// the innermost scope
    pub scope: usize,
    /// the scope of the innermost function, or the module's
    pub function: usize,
    /// the scope in which `var` declares names
    pub variables: usize,
    /// whether the innermost scope is that of the clauses of a switch
    pub is_cases: bool,
    /// whether it stands in a loop of its function, the loop's head included
    pub in_loop: bool,
    /// whether it stands among the parameters, or in the subject of the for-of, whose scope is the innermost
    pub in_head: bool,
}

impl Place {
    /// Where no scope has begun.
    pub(crate) fn outermost() -> Place
        ensures { result ≡ outermost }
    {
        Place {
            scope: 0,
            function: 0,
            variables: 0,
            is_cases: false,
            in_loop: false,
            in_head: false,
        }
    }

    /// In a scope that begins there.
    pub(crate) fn entered(self, kind: ScopeKind, scope: usize) -> Place
        ensures { result ≡ entered kind scope self }
    {
        let in_loop = self.in_loop;
        let inner = Place {
            scope,
            function: self.function,
            variables: self.variables,
            is_cases: false,
            in_loop,
            in_head: false,
        };
        match kind {
            ScopeKind::Module | ScopeKind::Function => Place {
                function: scope,
                variables: scope,
                in_loop: false,
                ..inner
            },
            ScopeKind::Body => Place {
                variables: scope,
                ..inner
            },
            ScopeKind::Block => inner,
            ScopeKind::Cases => Place {
                is_cases: true,
                ..inner
            },
        }
    }
}
