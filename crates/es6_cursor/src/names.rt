//! Names where they stand (ECMA-262, 6th edition, 12.1, 13.8, 13.9).

ghost use Rattle.es6_reading.specs.Parts.{identifier, name_of_any_kind};
ghost use Rattle.es6_reading.specs.Statements.{optional_label};
ghost use Rattle.es6_cursor.specs.Reads.{Reads};

use crate::cursor::Cursor;
use crate::halt::Halt;
use es6_ast::Identifier;

impl<'a> Cursor<'a> {
    /// An identifier (12.1).
    #[tactic(auto, unfolding(es6_reading::specs::Parts::identifier))]
    pub fn identifier(&mut self) -> Result<Identifier, Halt>
        ensures { Reads (identifier self.old) result self.new }
    {
        let begin = self.begin();
        let name = self.expect_free_name()?;
        Ok(Identifier {
            span: self.span_from(begin),
            name,
        })
    }

    /// IdentifierName (11.6).
    #[tactic(auto, unfolding(es6_reading::specs::Parts::name_of_any_kind))]
    pub fn name_of_any_kind(&mut self) -> Result<Identifier, Halt>
        ensures { Reads (name_of_any_kind self.old) result self.new }
    {
        let begin = self.begin();
        let name = self.expect_any_name()?;
        Ok(Identifier {
            span: self.span_from(begin),
            name,
        })
    }

    /// The label of a `continue` or a `break`, if it has one (13.8, 13.9).
    #[tactic(auto, using(crate::proofs::Choices::choices), unfolding(es6_reading::specs::Statements::optional_label))]
    pub fn optional_label(&mut self) -> Result<Option<Identifier>, Halt>
        ensures { Reads (optional_label self.old) result self.new }
    {
        let begin = self.begin();
        match self.take_label()? {
            Some(name) => Ok(Some(Identifier {
                span: self.span_from(begin),
                name,
            })),
            None => Ok(None),
        }
    }
}
