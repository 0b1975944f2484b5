//! The properties of object literals (ECMA-262, 6th edition, 12.2.6). A property is a construct of its own, so the readers that are
//! handed in serve for one construct more than the room that is left in it.

ghost use Rattle.std.specs.Prelude.{◌≡◌, ◌<◌, IfOk};
ghost use Rattle.es6_cursor.specs.Readers.{inner};
ghost use Rattle.es6_cursor.specs.Reads.{ReadsAs};
ghost use Rattle.es6_read_parts.specs.Handed.{HasExpressions, HasOuterExpressions, HasOuterStatements, HasStatements};
ghost use Rattle.es6_read_primaries.specs.Properties.{computed_property, generator_property, initialized, named_accessor};
ghost use Rattle.es6_reading.specs.Expressions.{after_accessor_word, after_key, after_name, assignment, method_of_key, one_property, shorthand, value_of_key};
ghost use Rattle.es6_reading.specs.Words.{accessor_name};

use crate::readers::Primaries;
use es_text::Span;
use es6_ast::{Identifier, MethodKind};
use es6_cursor::{Cursor, Flags, Halt, Nested, Stand, Stop};
use es6_lexer::Punctuator;
use es6_makers::{MakesObjects, MakesProperties, MakesReadings};
use es6_read_parts::{Here, accessor, accessor_name, generator_method, key, method_after_key};
use shared_text::Name;
use std::alloc::{AllocError, Global};

impl<
    G: MakesReadings,
    E: Fn(&mut Cursor, u16, Flags, Nested) -> Result<G::Reading, Halt>,
    S,
> Primaries<'_, G, E, S> {
    /// AssignmentExpression as the value of a property, which stands one construct deeper than where the property does.
    #[tactic(auto, using(crate::proofs::Inside::assignment_next))]
    fn value_of_property(&self, cursor: &mut Cursor) -> Result<G::Reading, Halt>
        requires below { self.now.here.room < 65535 }
        requires expressions { HasOuterExpressions G.seen E.pre E.post self.now.here }
        ensures { ReadsAs G.seen (assignment (inner self.now.here.room) self.now.here.flags cursor.old) result cursor.new }
    {
        (self.here.expression)(
            cursor,
            self.here.room + 1,
            self.here.flags,
            Nested::Assignment,
        )
    }
}

impl<
    G: MakesObjects,
    E: Fn(&mut Cursor, u16, Flags, Nested) -> Result<G::Reading, Halt>,
    S,
> Primaries<'_, G, E, S> {
    /// The value after the colon of a property that begins at the offset.
    #[tactic(auto, using(es6_cursor::proofs::Rules::groups), unfolding(es6_reading::specs::Expressions::value_of_key))]
    fn value_of_key(
        &self,
        cursor: &mut Cursor,
        begin: u32,
        key: G::Key,
    ) -> Result<G::Property, Halt>
        requires below { self.now.here.room < 65535 }
        requires expressions { HasOuterExpressions G.seen E.pre E.post self.now.here }
        ensures { ReadsAs G.seen_property (value_of_key (inner self.now.here.room) self.now.here.flags begin (G.seen_key key) cursor.old) result cursor.new }
    {
        let here = Here {
            flags: self.here.flags.with_in(),
            ..self.here
        };
        let value = Primaries { here }.value_of_property(cursor)?;
        Ok(G::plain_property(cursor.span_from(begin), key, value))
    }
}

impl<
    G: MakesObjects,
    E: Fn(&mut Cursor, u16, Flags, Nested) -> Result<G::Reading, Halt>,
    S: Fn(&mut Cursor, u16, Flags, Stand) -> Result<G::Statement, Halt>,
> Primaries<'_, G, E, S> {
    #[tactic(auto, using(es6_read_parts::proofs::Outer::outer), unfolding(es6_reading::specs::Expressions::method_of_key))]
    fn method_of_key(
        &self,
        cursor: &mut Cursor,
        begin: u32,
        key: G::Key,
    ) -> Result<G::Property, Halt>
        requires expressions { HasOuterExpressions G.seen E.pre E.post self.now.here }
        requires statements { HasOuterStatements G.seen_statement S.pre S.post self.now.here }
        ensures { ReadsAs G.seen_property (method_of_key (inner self.now.here.room) begin (G.seen_key key) cursor.old) result cursor.new }
    {
        let kind = MethodKind::PlainMethod;
        let method = method_after_key::<G, E, S>(
            cursor,
            self.here.room,
            kind,
            false,
            begin,
            key,
            self.here.expression,
            self.here.statement,
        )?;
        Ok(G::defined_property(method))
    }

    #[tactic(auto, using(es6_cursor::proofs::Choices::choices), unfolding(es6_reading::specs::Expressions::after_key))]
    fn after_key(&self, cursor: &mut Cursor, begin: u32, key: G::Key) -> Result<G::Property, Halt>
        requires below { self.now.here.room < 65535 }
        requires expressions { HasOuterExpressions G.seen E.pre E.post self.now.here }
        requires statements { HasOuterStatements G.seen_statement S.pre S.post self.now.here }
        ensures { ReadsAs G.seen_property (after_key (inner self.now.here.room) self.now.here.flags begin (G.seen_key key) cursor.old) result cursor.new }
    {
        if cursor.take_mark(Punctuator::Colon) {
            return self.value_of_key(cursor, begin, key);
        }
        self.method_of_key(cursor, begin, key)
    }
}

impl<
    G: MakesProperties,
    E: Fn(&mut Cursor, u16, Flags, Nested) -> Result<G::Reading, Halt>,
    S,
> Primaries<'_, G, E, S> {
    /// The initializer of a name, after the `=` that stands there, as only patterns may have it.
    #[tactic(auto, unfolding(crate::specs::Properties::initialized))]
    fn initialized(
        &self,
        cursor: &mut Cursor,
        begin: u32,
        name: Identifier,
        equals: Span,
    ) -> Result<G::Property, Halt>
        requires expressions { HasOuterExpressions G.seen E.pre E.post self.now.here }
        ensures { ReadsAs G.seen_property (initialized (inner self.now.here.room) self.now.here.flags begin name equals cursor.old) result cursor.new }
    {
        let value = (self.here.expression)(
            cursor,
            self.here.room,
            self.here.flags.with_in(),
            Nested::Assignment,
        )?;
        Ok(G::initialized_property(cursor.span_from(begin), name, equals, value))
    }

    /// A name alone, or with the initializer that only patterns may have.
    #[tactic(auto, using(crate::proofs::Shorthands::initialized_is, crate::proofs::Shorthands::alone))]
    fn shorthand(
        &self,
        cursor: &mut Cursor,
        begin: u32,
        name: Identifier,
    ) -> Result<G::Property, Halt>
        requires expressions { HasOuterExpressions G.seen E.pre E.post self.now.here }
        ensures { ReadsAs G.seen_property (shorthand (inner self.now.here.room) self.now.here.flags begin name cursor.old) result cursor.new }
    {
        let Some(equals) = cursor.take_mark_at(Punctuator::Assign) else {
            return Ok(G::shorthand(name.span, name.name));
        };
        self.initialized(cursor, begin, name, equals)
    }
}

impl<
    G: MakesObjects,
    E: Fn(&mut Cursor, u16, Flags, Nested) -> Result<G::Reading, Halt>,
    S: Fn(&mut Cursor, u16, Flags, Stand) -> Result<G::Statement, Halt>,
> Primaries<'_, G, E, S> {
    /// After a name that may stand alone.
    #[tactic(auto, using(es6_cursor::proofs::Choices::choices), unfolding(es6_reading::specs::Expressions::after_name))]
    fn after_name(
        &self,
        cursor: &mut Cursor,
        begin: u32,
        name: Identifier,
    ) -> Result<G::Property, Halt>
        requires below { self.now.here.room < 65535 }
        requires expressions { HasOuterExpressions G.seen E.pre E.post self.now.here }
        requires statements { HasOuterStatements G.seen_statement S.pre S.post self.now.here }
        ensures { ReadsAs G.seen_property (after_name (inner self.now.here.room) self.now.here.flags begin name cursor.old) result cursor.new }
    {
        if cursor.next_ends_key() {
            let key = G::word_key(name.span, name.name);
            return self.after_key(cursor, begin, key);
        }
        self.shorthand(cursor, begin, name)
    }
}

fn accessor_word(alloc: Global, span: Span, setter: bool) -> Result<Identifier, AllocError>
    ensures { IfOk result (λ name. name ≡ record { span = span; name = accessor_name setter }) }
{
    Ok(Identifier {
        span,
        name: Name::of_bytes(alloc, accessor_name(setter))?,
    })
}

impl<
    G: MakesObjects,
    E: Fn(&mut Cursor, u16, Flags, Nested) -> Result<G::Reading, Halt>,
    S: Fn(&mut Cursor, u16, Flags, Stand) -> Result<G::Statement, Halt>,
> Primaries<'_, G, E, S> {
    /// An accessor, which begins at the offset, after its word (14.3).
    #[tactic(auto, using(es6_read_parts::proofs::Outer::outer), unfolding(crate::specs::Properties::named_accessor))]
    fn named_accessor(
        &self,
        cursor: &mut Cursor,
        begin: u32,
        setter: bool,
    ) -> Result<G::Property, Halt>
        requires expressions { HasOuterExpressions G.seen E.pre E.post self.now.here }
        requires statements { HasOuterStatements G.seen_statement S.pre S.post self.now.here }
        ensures { ReadsAs G.seen_property (named_accessor (inner self.now.here.room) self.now.here.flags begin setter cursor.old) result cursor.new }
    {
        let method = accessor::<G, E, S>(
            cursor,
            self.here.room,
            self.here.flags,
            begin,
            setter,
            self.here.expression,
            self.here.statement,
        )?;
        Ok(G::defined_property(method))
    }

    /// The property that begins with `get` or `set` at the offset: a name of its own, else an accessor's word.
    #[tactic(auto, using(es6_cursor::proofs::Choices::choices), unfolding(es6_reading::specs::Expressions::after_accessor_word, crate::specs::Properties::named_accessor))]
    fn after_accessor_word(
        &self,
        cursor: &mut Cursor,
        begin: u32,
        setter: bool,
    ) -> Result<G::Property, Halt>
        requires below { self.now.here.room < 65535 }
        requires expressions { HasOuterExpressions G.seen E.pre E.post self.now.here }
        requires statements { HasOuterStatements G.seen_statement S.pre S.post self.now.here }
        ensures { ReadsAs G.seen_property (after_accessor_word (inner self.now.here.room) self.now.here.flags begin setter cursor.old) result cursor.new }
    {
        if cursor.next_ends_name() {
            let name = accessor_word(cursor.alloc(), cursor.span_from(begin), setter)?;
            return self.after_name(cursor, begin, name);
        }
        self.named_accessor(cursor, begin, setter)
    }

    /// A generator method, which begins at the offset, after its `*` (14.4).
    #[tactic(auto, using(es6_read_parts::proofs::Outer::outer), unfolding(crate::specs::Properties::generator_property))]
    fn generator_property(&self, cursor: &mut Cursor, begin: u32) -> Result<G::Property, Halt>
        requires expressions { HasOuterExpressions G.seen E.pre E.post self.now.here }
        requires statements { HasOuterStatements G.seen_statement S.pre S.post self.now.here }
        ensures { ReadsAs G.seen_property (generator_property (inner self.now.here.room) self.now.here.flags begin cursor.old) result cursor.new }
    {
        let method = generator_method::<G, E, S>(
            cursor,
            self.here.room,
            self.here.flags,
            begin,
            self.here.expression,
            self.here.statement,
        )?;
        Ok(G::defined_property(method))
    }

    /// A property that begins with no name that may stand alone, at the offset.
    #[tactic(auto, using(es6_read_parts::proofs::Outer::outer_expressions), unfolding(crate::specs::Properties::computed_property))]
    fn computed_property(&self, cursor: &mut Cursor, begin: u32) -> Result<G::Property, Halt>
        requires below { self.now.here.room < 65535 }
        requires expressions { HasOuterExpressions G.seen E.pre E.post self.now.here }
        requires statements { HasOuterStatements G.seen_statement S.pre S.post self.now.here }
        ensures { ReadsAs G.seen_property (computed_property (inner self.now.here.room) self.now.here.flags begin cursor.old) result cursor.new }
    {
        let key = key::<G, E>(
            cursor,
            self.here.room,
            self.here.flags,
            self.here.expression,
        )?;
        self.after_key(cursor, begin, key)
    }

    /// PropertyDefinition, or a name with the initializer that only patterns may have (12.2.6).
    #[tactic(auto, using(es6_cursor::proofs::Choices::choices), unfolding(es6_reading::specs::Expressions::one_property, crate::specs::Properties::computed_property, crate::specs::Properties::generator_property))]
    fn one_property(&self, cursor: &mut Cursor) -> Result<G::Property, Halt>
        requires below { self.now.here.room < 65535 }
        requires expressions { HasOuterExpressions G.seen E.pre E.post self.now.here }
        requires statements { HasOuterStatements G.seen_statement S.pre S.post self.now.here }
        ensures { ReadsAs G.seen_property (one_property (inner self.now.here.room) self.now.here.flags cursor.old) result cursor.new }
    {
        let begin = cursor.begin();
        if cursor.take_mark(Punctuator::Star) {
            return self.generator_property(cursor, begin);
        }
        if let Some(setter) = cursor.take_accessor() {
            return self.after_accessor_word(cursor, begin, setter);
        }
        if let Some(name) = cursor.take_free_name()? {
            let span = cursor.span_from(begin);
            let name = Identifier { span, name };
            return self.after_name(cursor, begin, name);
        }
        self.computed_property(cursor, begin)
    }

    /// A property, which is a construct of its own.
    #[tactic(auto, using(crate::proofs::Inside::property_none, crate::proofs::Inside::property_some))]
    pub fn inner_property(&self, cursor: &mut Cursor) -> Result<G::Property, Halt>
        requires expressions { HasExpressions G.seen E.pre E.post self.now.here }
        requires statements { HasStatements G.seen_statement S.pre S.post self.now.here }
        ensures { ReadsAs G.seen_property ((inner self.now.here.room).property self.now.here.flags cursor.old) result cursor.new }
    {
        if self.here.room == 0 {
            Err(Halt::Stopped(Stop::Depth))
        } else {
            let here = Here {
                room: self.here.room - 1,
                ..self.here
            };
            Primaries { here }.one_property(cursor)
        }
    }
}
