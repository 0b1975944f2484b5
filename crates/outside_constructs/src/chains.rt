//! Accesses and calls (ECMA-262, 6th edition, 12.3), and expressions that are keys.

ghost use Rattle.std.specs.Prelude.{◌≡◌, [], cond, codes, map, OnOk};
ghost use Rattle.es6_static_semantics.specs.Findings.{joined};
ghost use Rattle.es6_static_semantics.specs.Outside.{are_iterator, expression_found, first_is_call, is_iterator_key, is_text, link_found};
ghost use Rattle.outside_constructs.specs.Walked.{meets};

use crate::walk::Walk;
use es6_ast::{Expression, Link};
use std::alloc::AllocError;

impl Walk {
    /// What a chain begins with, and whether the chain calls it.
    #[cycle(outside)]
    pub(crate) fn head(&mut self, head: &Expression, is_called: bool) -> Result<(), AllocError>
        ensures { OnOk result (self.new ≡ meets (λ scope. cond is_called ((expression_found head.now).callee scope) ((expression_found head.now).pairs scope)) self.old) }
    {
        if is_called {
            self.callee(head)
        } else {
            self.expression(head)
        }
    }

    /// An expression that is called: U14 is not met at a bare name.
    #[cycle(outside)]
    fn callee(&mut self, callee: &Expression) -> Result<(), AllocError>
        ensures { OnOk result (self.new ≡ meets (expression_found callee.now).callee self.old) }
    {
        match callee {
            Expression::Name { span, name } => {
                self.reference(name.bytes(), span.begin);
                Ok(())
            }
            _ => self.expression(callee),
        }
    }

    /// An expression that is a key: `Symbol.iterator` may stand there by itself.
    #[cycle(outside)]
    pub(crate) fn as_key(&mut self, key: &Expression) -> Result<(), AllocError>
        ensures { OnOk result (self.new ≡ meets (expression_found key.now).key self.old) }
    {
        if self.is_iterator_key(key) {
            return Ok(());
        }
        self.expression(key)
    }

    #[cycle(outside)]
    pub(crate) fn links(&mut self, links: &[Link]) -> Result<(), AllocError>
        ensures { OnOk result (self.new ≡ meets (λ scope. joined (λ l. l.pairs scope) (map link_found links.now)) self.old) }
    {
        for link in links {
            self.link(link)?;
        }
        Ok(())
    }

    #[cycle(outside)]
    fn link(&mut self, link: &Link) -> Result<(), AllocError>
        ensures { OnOk result (self.new ≡ meets (link_found link.now).pairs self.old) }
    {
        match link {
            Link::Member { name, .. } => {
                self.named(name);
                Ok(())
            }
            Link::Index { index, .. } => self.as_key(index),
            Link::Call { arguments, .. } => self.arguments(arguments.as_slice()),
            Link::Tagged(template) => self.template(template),
        }
    }

    /// Whether an expression is `Symbol.iterator`, which means the same in both realms where it is a key.
    fn is_iterator_key(&self, key: &Expression) -> bool
        ensures { (expression_found key.now).key self.now.environment ≡ cond result [] ((expression_found key.now).pairs self.now.environment) }
    {
        match key {
            Expression::Chain { head, links, .. } => {
                self.is_iterator_of_symbol(head.get(), links.as_slice())
            }
            _ => false,
        }
    }

    fn is_iterator_of_symbol(&self, head: &Expression, links: &[Link]) -> bool
        ensures { result ≡ is_iterator_key (expression_found head.now) (map link_found links.now) self.now.environment }
    {
        let is_symbol = is_bare_symbol(head);
        let are_iterator = are_iterator(links);
        is_symbol & are_iterator & self.environment.is_free(b"Symbol".as_slice())
    }
}

pub(crate) fn first_is_call(links: &[Link]) -> bool
    ensures { result ≡ first_is_call (map link_found links.now) }
{
    let Some((first, _)) = links.split_first() else {
        return false;
    };
    is_call(first)
}

fn is_call(link: &Link) -> bool
    ensures { result ≡ (link_found link.now).is_call }
{
    match link {
        Link::Call { .. } => true,
        _ => false,
    }
}

/// Whether the links are `.iterator` and nothing else.
fn are_iterator(links: &[Link]) -> bool
    ensures { result ≡ are_iterator (map link_found links.now) }
{
    let Some((first, rest)) = links.split_first() else {
        return false;
    };
    rest.is_empty() && is_iterator(first)
}

fn is_iterator(link: &Link) -> bool
    ensures { result ≡ is_text (codes "iterator") (link_found link.now).member }
{
    match link {
        Link::Member { name, .. } => name.name.bytes() == b"iterator".as_slice(),
        _ => false,
    }
}

/// Whether an expression is the name `Symbol` without parentheses.
fn is_bare_symbol(expression: &Expression) -> bool
    ensures { result ≡ is_text (codes "Symbol") (expression_found expression.now).bare }
{
    match expression {
        Expression::Name { name, .. } => name.bytes() == b"Symbol".as_slice(),
        _ => false,
    }
}
