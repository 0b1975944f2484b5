//! Rules at a name or a target (ECMA-262, 6th edition, 8.1, 12.2 and 12.3).

ghost use Rattle.std.specs.Prelude.{◌≡◌, ◌++◌};
ghost use Rattle.es6_static_semantics.specs.Outside.{all_named, deleted, expression_found, global_pairs, heritage_pairs, host_pairs, in_object_pairs, name_found, named, reference_pairs, some_name, super_pairs};
ghost use Rattle.outside_constructs.specs.Walked.{meets};

use crate::globals::{is_kept_global, is_known_global};
use crate::walk::Walk;
use es_text::Span;
use es6_ast::{Expression, Identifier, Literal, UnaryOperator};

impl Walk {
    /// U10 at an identifier or a property name.
    pub(crate) fn named(&mut self, name: &Identifier)
        ensures { self.new ≡ meets (λ _. named name.now) self.old }
    {
        let is_proto = name.name.bytes() == b"__proto__".as_slice();
        self.finder.when(is_proto, 10, name.span.begin);
    }

    /// U10 at a name, if there is one.
    pub(crate) fn optional_name(&mut self, name: &Option<Identifier>)
        ensures { self.new ≡ meets (λ _. all_named (some_name name.now)) self.old }
    {
        if let Some(name) = name {
            self.named(name);
        }
    }

    /// U6, U7, U9 and U10 at a reference.
    pub(crate) fn reference(&mut self, name: &[u8], at: u32)
        ensures { self.new ≡ meets (reference_pairs name.now at) self.old }
    {
        let is_free = self.environment.is_free(name);
        let is_symbol = name == b"Symbol".as_slice();
        let is_known = is_known_global(name);
        self.finder.when(name == b"eval".as_slice(), 6, at);
        self.finder.when(is_free & !is_known, 7, at);
        self.finder.when(is_free & is_symbol, 9, at);
        self.finder.when(name == b"__proto__".as_slice(), 10, at);
    }

    /// The same, and U14, where the reference is no bare callee.
    pub(crate) fn name(&mut self, span: Span, name: &[u8])
        ensures { self.new ≡ meets (name_found span name.now).pairs self.old }
    {
        self.reference(name, span.begin);
        let is_host = self.environment.is_host_import(name);
        self.finder.when(is_host, 14, span.begin);
    }

    /// U8 at a name that is a target, in parentheses too.
    pub(crate) fn global(&mut self, target: &Expression)
        ensures { self.new ≡ meets (global_pairs (expression_found target.now).name) self.old }
    {
        match target {
            Expression::Name { span, name } => {
                let name = name.bytes();
                let is_global = self.environment.is_free(name) & is_kept_global(name);
                self.finder.when(is_global, 8, span.begin);
            }
            Expression::Group { held, .. } => self.global(held.get()),
            _ => (),
        }
    }

    /// U13 at a target.
    pub(crate) fn super_target(&mut self, target: &Expression)
        ensures { self.new ≡ meets (λ _. super_pairs (expression_found target.now).of_super) self.old }
    {
        match target {
            Expression::SuperMember { span, .. } | Expression::SuperIndex { span, .. } => {
                self.finder.when(true, 13, span.begin);
            }
            Expression::Group { held, .. } => self.super_target(held.get()),
            _ => (),
        }
    }

    /// U13 at what is deleted.
    pub(crate) fn deleted(&mut self, operator: UnaryOperator, operand: &Expression)
        ensures { self.new ≡ meets (λ _. deleted operator (expression_found operand.now)) self.old }
    {
        match operator {
            UnaryOperator::Delete => self.super_target(operand),
            _ => (),
        }
    }

    /// U12.
    pub(crate) fn in_object(&mut self, span: Span)
        ensures { self.new ≡ meets (in_object_pairs span) self.old }
    {
        let in_object = self.environment.is_in_object();
        self.finder.when(in_object, 12, span.begin);
    }

    /// U11 at what a class extends.
    pub(crate) fn extended(&mut self, heritage: &Expression)
        ensures { self.new ≡ meets (heritage_pairs (expression_found heritage.now)) self.old }
    {
        match heritage {
            Expression::Name { span, .. }
            | Expression::Literal { span, .. }
            | Expression::Group { span, .. } => self.extended_at(heritage, span.begin),
            _ => (),
        }
    }

    /// The same, in parentheses that begin at an offset in bytes.
    fn extended_at(&mut self, heritage: &Expression, at: u32)
        ensures { self.new ≡ meets (heritage_pairs (record (expression_found heritage.now) { begin = at })) self.old }
    {
        match heritage {
            Expression::Name { name, .. } => {
                let name = name.bytes();
                let is_global = self.environment.is_free(name) & is_kept_global(name);
                self.finder.when(is_global, 11, at);
            }
            Expression::Literal { literal, .. } => {
                self.finder.when(matches!(literal, Literal::Null), 11, at);
            }
            Expression::Group { held, .. } => self.extended_at(held.get(), at),
            _ => (),
        }
    }
}
