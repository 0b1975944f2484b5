//! Tokens that stand for something, taken where they are next.

ghost use Rattle.std.specs.Prelude.{IfOk};
ghost use Rattle.es6_reading.specs.Parser.{take_as};
ghost use Rattle.es6_reading.specs.Words.{accessor_at, any_name, free_name, kind_at, lexical_kind_at, literal_at, stretch_at, text_at};
ghost use Rattle.es6_reading.specs.Statements.{label_at};
ghost use Rattle.es6_cursor.specs.Keys.{placed_key_at};
ghost use Rattle.es6_cursor.specs.Reads.{Reads};
ghost use Rattle.es6_cursor.specs.Takes.{TakesAs};

use crate::cursor::Cursor;
use crate::halt::Halt;
use crate::key::PlacedKey;
use crate::{classes, operators};
use es6_ast::{Literal, Stretch, VariableKind};
use shared_text::{Name, Units};
use std::alloc::AllocError;

impl<'a> Cursor<'a> {
    /// Takes an identifier, if one is next (12.1).
    pub fn take_free_name(&mut self) -> Result<Option<Name>, AllocError>
        ensures { IfOk result (λ answer. TakesAs free_name self.old answer self.new) }
    {
        let answer = match self.rest().first() {
            Some(token) => classes::free_name(self.alloc(), &token.kind)?,
            None => None,
        };
        self.skip_if(answer.is_some());
        Ok(answer)
    }

    /// Takes an identifier (12.1).
    pub fn expect_free_name(&mut self) -> Result<Name, Halt>
        ensures { Reads (take_as free_name self.old) result self.new }
    {
        match self.take_free_name()? {
            Some(found) => Ok(found),
            None => self.refuse(),
        }
    }

    /// Takes an identifier or a reserved word, if one is next (11.6).
    pub fn take_any_name(&mut self) -> Result<Option<Name>, AllocError>
        ensures { IfOk result (λ answer. TakesAs any_name self.old answer self.new) }
    {
        let answer = match self.rest().first() {
            Some(token) => classes::any_name(self.alloc(), &token.kind)?,
            None => None,
        };
        self.skip_if(answer.is_some());
        Ok(answer)
    }

    /// Takes an identifier or a reserved word (11.6).
    pub fn expect_any_name(&mut self) -> Result<Name, Halt>
        ensures { Reads (take_as any_name self.old) result self.new }
    {
        match self.take_any_name()? {
            Some(found) => Ok(found),
            None => self.refuse(),
        }
    }

    /// Takes a label, if one is next on the line of the word before it (13.8, 13.9).
    pub fn take_label(&mut self) -> Result<Option<Name>, AllocError>
        ensures { IfOk result (λ answer. TakesAs label_at self.old answer self.new) }
    {
        let answer = match self.rest().first() {
            Some(token) if !token.newline => classes::free_name(self.alloc(), &token.kind)?,
            _ => None,
        };
        self.skip_if(answer.is_some());
        Ok(answer)
    }

    /// Takes a literal, if one is next (12.2.4).
    pub fn take_literal(&mut self) -> Result<Option<Literal>, AllocError>
        ensures { IfOk result (λ answer. TakesAs literal_at self.old answer self.new) }
    {
        let answer = match self.rest().first() {
            Some(token) => classes::literal(self.alloc(), &token.kind)?,
            None => None,
        };
        self.skip_if(answer.is_some());
        Ok(answer)
    }

    /// Takes a string literal (11.8.4).
    pub fn expect_text(&mut self) -> Result<Units, Halt>
        ensures { Reads (take_as text_at self.old) result self.new }
    {
        match self.take_text()? {
            Some(found) => Ok(found),
            None => self.refuse(),
        }
    }

    fn take_text(&mut self) -> Result<Option<Units>, AllocError>
        ensures { IfOk result (λ answer. TakesAs text_at self.old answer self.new) }
    {
        let answer = match self.rest().first() {
            Some(token) => classes::text(self.alloc(), &token.kind)?,
            None => None,
        };
        self.skip_if(answer.is_some());
        Ok(answer)
    }

    /// Takes the name of a property, if one is next that isn't computed (12.2.6).
    pub fn take_key(&mut self) -> Result<Option<PlacedKey>, AllocError>
        ensures { IfOk result (λ answer. TakesAs placed_key_at self.old answer self.new) }
    {
        let answer = match self.rest().first() {
            Some(token) => classes::key(self.alloc(), token.span, &token.kind)?,
            None => None,
        };
        self.skip_if(answer.is_some());
        Ok(answer)
    }

    /// Takes `get` or `set`, if one is next (14.3). The answer says which: `set` is true.
    pub fn take_accessor(&mut self) -> Option<bool>
        ensures { TakesAs accessor_at self.old result self.new }
    {
        let answer = match self.rest().first() {
            Some(token) => classes::accessor(&token.kind),
            None => None,
        };
        self.skip_if(answer.is_some());
        answer
    }

    /// Takes a stretch of a template, if one is next that begins and ends the template as the marks say (11.8.6).
    pub fn take_stretch(&mut self, first: bool, last: bool) -> Result<Option<Stretch>, AllocError>
        ensures { IfOk result (λ answer. TakesAs (stretch_at first last) self.old answer self.new) }
    {
        let answer = match self.rest().first() {
            Some(token) => classes::stretch(self.alloc(), token, first, last)?,
            None => None,
        };
        self.skip_if(answer.is_some());
        Ok(answer)
    }

    /// Takes such a stretch.
    pub fn expect_stretch(&mut self, first: bool, last: bool) -> Result<Stretch, Halt>
        ensures { Reads (take_as (stretch_at first last) self.old) result self.new }
    {
        match self.take_stretch(first, last)? {
            Some(found) => Ok(found),
            None => self.refuse(),
        }
    }

    /// Takes the word that declares variables, if one is next (13.3).
    pub fn take_kind(&mut self) -> Option<VariableKind>
        ensures { TakesAs kind_at self.old result self.new }
    {
        let answer = match self.rest().first() {
            Some(token) => operators::kind(&token.kind),
            None => None,
        };
        self.skip_if(answer.is_some());
        answer
    }

    /// Takes `let` or `const`, if one is next (13.3.1).
    pub fn take_lexical_kind(&mut self) -> Option<VariableKind>
        ensures { TakesAs lexical_kind_at self.old result self.new }
    {
        let answer = match self.rest().first() {
            Some(token) => operators::lexical_kind(&token.kind),
            None => None,
        };
        self.skip_if(answer.is_some());
        answer
    }
}
