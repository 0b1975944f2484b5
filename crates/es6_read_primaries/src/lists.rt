//! The items of array and object literals (ECMA-262, 6th edition, 12.2.5, 12.2.6).

ghost use Rattle.es6_cursor.specs.Readers.{inner};
ghost use Rattle.es6_cursor.specs.Reads.{ReadsAs};
ghost use Rattle.es6_read_parts.specs.Handed.{HasExpressions, HasStatements};
ghost use Rattle.es6_read_primaries.specs.Lists.{listing_of};
ghost use Rattle.es6_reading.specs.Expressions.{elements, properties};

use crate::readers::Primaries;
use es6_cursor::{Cursor, Flags, Halt, Nested, Stand, Stop, TURNS};
use es6_lexer::Punctuator;
use es6_makers::{MakesElements, MakesObjects};
use es6_read_parts::argument;

/// The elements of an array literal, and whether a comma follows the last one.
#[derive(Drop)]
pub struct Listing<L> {
    pub elements: L,
    pub ends_in_comma: bool,
}

impl<
    G: MakesElements,
    E: Fn(&mut Cursor, u16, Flags, Nested) -> Result<G::Reading, Halt>,
    S,
> Primaries<'_, G, E, S> {
    /// The elements after the opening bracket, and the closing bracket.
    #[tactic(auto, using(es6_cursor::proofs::Rules::lists, crate::proofs::Elements::elements_turns))]
    pub fn elements(&self, cursor: &mut Cursor) -> Result<Listing<G::Elements>, Halt>
        requires expressions { HasExpressions G.seen E.pre E.post self.now.here }
        ensures { ReadsAs (listing_of G.seen_elements) (elements (inner self.now.here.room) self.now.here.flags (inner self.now.here.room).fuel cursor.old) result cursor.new }
    {
        let mut list = G::no_elements(cursor.alloc());
        for turn in 0..TURNS {
            if cursor.take_mark(Punctuator::RightBracket) {
                return Ok(Listing {
                    elements: list,
                    ends_in_comma: false,
                });
            }
            if cursor.take_mark(Punctuator::Comma) {
                G::push_hole(&mut list)?;
                continue;
            }
            let element = argument::<G, E>(
                cursor,
                self.here.room,
                self.here.flags,
                self.here.expression,
            )?;
            G::push_element(&mut list, element)?;
            if !cursor.take_mark(Punctuator::Comma) {
                cursor.expect_mark(Punctuator::RightBracket)?;
                return Ok(Listing {
                    elements: list,
                    ends_in_comma: false,
                });
            }
            if cursor.take_mark(Punctuator::RightBracket) {
                return Ok(Listing {
                    elements: list,
                    ends_in_comma: true,
                });
            }
        }
        Err(Halt::Stopped(Stop::Endless))
    }
}

impl<
    G: MakesObjects,
    E: Fn(&mut Cursor, u16, Flags, Nested) -> Result<G::Reading, Halt>,
    S: Fn(&mut Cursor, u16, Flags, Stand) -> Result<G::Statement, Halt>,
> Primaries<'_, G, E, S> {
    /// The properties after the opening brace, and the closing brace.
    #[tactic(auto, using(es6_cursor::proofs::Rules::lists, crate::proofs::PropertyLists::properties_turn, crate::proofs::PropertyLists::properties_more, crate::proofs::PropertyLists::properties_end), unfolding(es6_reading::specs::Expressions::properties))]
    pub fn properties(&self, cursor: &mut Cursor) -> Result<G::Properties, Halt>
        requires expressions { HasExpressions G.seen E.pre E.post self.now.here }
        requires statements { HasStatements G.seen_statement S.pre S.post self.now.here }
        ensures { ReadsAs G.seen_properties (properties (inner self.now.here.room) self.now.here.flags (inner self.now.here.room).fuel cursor.old) result cursor.new }
    {
        let mut list = G::no_properties(cursor.alloc());
        for turn in 0..TURNS {
            if cursor.take_mark(Punctuator::RightBrace) {
                return Ok(list);
            }
            let property = self.inner_property(cursor)?;
            G::push_property(&mut list, property)?;
            if !cursor.take_mark(Punctuator::Comma) {
                cursor.expect_mark(Punctuator::RightBrace)?;
                return Ok(list);
            }
        }
        Err(Halt::Stopped(Stop::Endless))
    }
}
