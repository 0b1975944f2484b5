//! Declarations of functions and classes (ECMA-262, 6th edition, 14.1, 14.4, 14.5).

ghost use Rattle.es6_cursor.specs.Readers.{inner};
ghost use Rattle.es6_cursor.specs.Reads.{ReadsAs};
ghost use Rattle.es6_read_parts.specs.Handed.{HasExpressions, HasStatements};
ghost use Rattle.es6_reading.specs.Statements.{class_declaration, function_declaration, labelled_function};

use crate::readers::Statements;
use es6_cursor::{Cursor, Flags, Halt, Nested, Stand};
use es6_makers::{MakesClasses, MakesFunctions};
use es6_read_parts::{class_after_word, function_after_word, named_function};

impl<
    G: MakesFunctions,
    E: Fn(&mut Cursor, u16, Flags, Nested) -> Result<G::Reading, Halt>,
    S: Fn(&mut Cursor, u16, Flags, Stand) -> Result<G::Statement, Halt>,
> Statements<'_, G, E, S> {
    /// What follows the word `function`, which begins at the offset.
    #[tactic(auto, unfolding(es6_reading::specs::Statements::function_declaration))]
    #[inline(never)]
    pub fn function_declaration(
        &self,
        cursor: &mut Cursor,
        begin: u32,
    ) -> Result<G::Statement, Halt>
        requires expressions { HasExpressions G.seen E.pre E.post self.now.here }
        requires statements { HasStatements G.seen_statement S.pre S.post self.now.here }
        ensures { ReadsAs G.seen_statement (function_declaration (inner self.now.here.room) begin cursor.old) result cursor.new }
    {
        let function = function_after_word::<G, E, S>(
            cursor,
            self.here.room,
            false,
            begin,
            self.here.expression,
            self.here.statement,
        )?;
        Ok(G::function_declaration(cursor.alloc(), function)?)
    }
}

impl<
    G: MakesClasses,
    E: Fn(&mut Cursor, u16, Flags, Nested) -> Result<G::Reading, Halt>,
    S: Fn(&mut Cursor, u16, Flags, Stand) -> Result<G::Statement, Halt>,
> Statements<'_, G, E, S> {
    /// What follows the word `class`, which begins at the offset.
    #[tactic(auto, unfolding(es6_reading::specs::Statements::class_declaration))]
    #[inline(never)]
    pub fn class_declaration(&self, cursor: &mut Cursor, begin: u32) -> Result<G::Statement, Halt>
        requires expressions { HasExpressions G.seen E.pre E.post self.now.here }
        requires statements { HasStatements G.seen_statement S.pre S.post self.now.here }
        ensures { ReadsAs G.seen_statement (class_declaration (inner self.now.here.room) self.now.here.flags begin cursor.old) result cursor.new }
    {
        let class = class_after_word::<G, E, S>(
            cursor,
            self.here.room,
            self.here.flags,
            false,
            begin,
            self.here.expression,
            self.here.statement,
        )?;
        Ok(G::class_declaration(cursor.alloc(), class)?)
    }
}

impl<
    G: MakesFunctions,
    E: Fn(&mut Cursor, u16, Flags, Nested) -> Result<G::Reading, Halt>,
    S: Fn(&mut Cursor, u16, Flags, Stand) -> Result<G::Statement, Halt>,
> Statements<'_, G, E, S> {
    /// A function under a label, which is no generator (13.13).
    #[tactic(auto, unfolding(es6_reading::specs::Statements::labelled_function))]
    #[inline(never)]
    pub fn labelled_function(&self, cursor: &mut Cursor, begin: u32) -> Result<G::Statement, Halt>
        requires expressions { HasExpressions G.seen E.pre E.post self.now.here }
        requires statements { HasStatements G.seen_statement S.pre S.post self.now.here }
        ensures { ReadsAs G.seen_statement (labelled_function (inner self.now.here.room) begin cursor.old) result cursor.new }
    {
        let function = named_function::<G, E, S>(
            cursor,
            self.here.room,
            begin,
            false,
            self.here.expression,
            self.here.statement,
        )?;
        Ok(G::function_declaration(cursor.alloc(), function)?)
    }
}
