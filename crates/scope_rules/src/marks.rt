//! Lists of marks.

ghost use Rattle.std.specs.Prelude.{◌≡◌, [], ◌∷◌, ◌++◌, None, OnOk};
ghost use Rattle.scope_rules.specs.Marks.{arguments_mark, declared_name, declares, default_mark};
ghost use Rattle.scope_rules.specs.declared.mark.Mark.TheVariants.{ScopeBegins, ScopeEnds, LoopBegins, LoopEnds, HeadBegins, HeadEnds, Declares, Refers};

use crate::kinds::{Kind, ScopeKind};
use crate::mark::Mark;
use crate::spelling::Spelling;
use es_text::Span;
use es6_ast::Identifier;
use std::alloc::{AllocError, Global};
use std::marker::Model;

/// Marks in text order, of which contracts see the list.
#[derive(Drop)]
pub struct Marks<'a> {
    list: Vec<Mark<'a>>,
}

impl<'a> Model for Marks<'a> {
    ghost use Rattle.std.specs.Prelude.{List};
    ghost use Rattle.scope_rules.specs.declared.mark.Mark.{Mark};

    ghost Value = { List Mark };

    ghost view = { λ m. m.list.items };
}

impl<'a> Marks<'a> {
    pub fn new(alloc: Global) -> Marks<'a>
        ensures { result ≡ [] }
    {
        Marks {
            list: Vec::new(alloc),
        }
    }

    /// The marks in their order.
    pub fn as_slice(&self) -> &[Mark<'a>]
        ensures { result.now ≡ self.now }
    {
        self.list.as_slice()
    }

    fn push(&mut self, mark: Mark<'a>) -> Result<(), AllocError>
        ensures { OnOk result (self.new ≡ self.old ++ mark.entry ∷ []) }
    {
        self.list.push(mark)?;
        Ok(())
    }

    /// A scope that begins at an offset in bytes.
    pub fn begin_scope(&mut self, kind: ScopeKind, at: u32) -> Result<(), AllocError>
        ensures { OnOk result (self.new ≡ self.old ++ ScopeBegins kind at ∷ []) }
    {
        self.push(Mark::ScopeBegins { kind, at })
    }

    pub fn end_scope(&mut self) -> Result<(), AllocError>
        ensures { OnOk result (self.new ≡ self.old ++ ScopeEnds ∷ []) }
    {
        self.push(Mark::ScopeEnds)
    }

    pub fn begin_loop(&mut self) -> Result<(), AllocError>
        ensures { OnOk result (self.new ≡ self.old ++ LoopBegins ∷ []) }
    {
        self.push(Mark::LoopBegins)
    }

    pub fn end_loop(&mut self) -> Result<(), AllocError>
        ensures { OnOk result (self.new ≡ self.old ++ LoopEnds ∷ []) }
    {
        self.push(Mark::LoopEnds)
    }

    pub fn begin_head(&mut self) -> Result<(), AllocError>
        ensures { OnOk result (self.new ≡ self.old ++ HeadBegins ∷ []) }
    {
        self.push(Mark::HeadBegins)
    }

    pub fn end_head(&mut self) -> Result<(), AllocError>
        ensures { OnOk result (self.new ≡ self.old ++ HeadEnds ∷ []) }
    {
        self.push(Mark::HeadEnds)
    }

    /// A reference.
    pub fn refer(&mut self, name: &'a [u8], at: u32) -> Result<(), AllocError>
        ensures { OnOk result (self.new ≡ self.old ++ Refers name.now at ∷ []) }
    {
        self.push(Mark::Refers {
            name: Spelling::of(name),
            at,
        })
    }

    /// A name that is declared at an offset in bytes, in a declarator that ends at another.
    pub fn declare(
        &mut self,
        kind: Kind,
        name: &'a [u8],
        at: u32,
        end: u32,
    ) -> Result<(), AllocError>
        ensures { OnOk result (self.new ≡ self.old ++ Declares kind name.now at end ∷ []) }
    {
        self.push(Mark::Declares {
            kind,
            name: Spelling::of(name),
            at,
            end,
        })
    }

    pub fn declare_name(
        &mut self,
        kind: Kind,
        end: u32,
        name: &'a Identifier,
    ) -> Result<(), AllocError>
        ensures { OnOk result (self.new ≡ self.old ++ declares kind end name.now ∷ []) }
    {
        self.declare(kind, name.name.bytes(), name.span.begin, end)
    }

    /// A name, if there is one.
    pub fn declare_optional(
        &mut self,
        kind: Kind,
        end: u32,
        name: &'a Option<Identifier>,
    ) -> Result<(), AllocError>
        ensures { OnOk result (self.new ≡ self.old ++ declared_name kind end name.now) }
    {
        match name {
            None => Ok(()),
            Some(name) => self.declare_name(kind, end, name),
        }
    }

    /// The name `arguments` of a function that begins at an offset in bytes.
    pub fn declare_arguments(&mut self, begin: u32) -> Result<(), AllocError>
        ensures { OnOk result (self.new ≡ self.old ++ arguments_mark begin ∷ []) }
    {
        self.declare(Kind::Arguments, b"arguments".as_slice(), begin, begin)
    }

    /// The name of a default export, or `*default*` at the word `default`.
    pub fn declare_default(
        &mut self,
        kind: Kind,
        end: u32,
        word: Span,
        name: &'a Option<Identifier>,
    ) -> Result<(), AllocError>
        ensures { OnOk result (self.new ≡ self.old ++ default_mark kind end word name.now ∷ []) }
    {
        match name {
            None => self.declare_star_default(kind, end, word),
            Some(name) => self.declare_name(kind, end, name),
        }
    }

    /// The name `*default*` at the word `default`.
    pub fn declare_star_default(
        &mut self,
        kind: Kind,
        end: u32,
        word: Span,
    ) -> Result<(), AllocError>
        ensures { OnOk result (self.new ≡ self.old ++ default_mark kind end word None ∷ []) }
    {
        self.declare(kind, b"*default*".as_slice(), word.begin, end)
    }
}
