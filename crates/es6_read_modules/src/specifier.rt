//! The modules that imports and exports name (ECMA-262, 6th edition, 15.2.2), and names that stand twice in a tree.

ghost use Rattle.std.specs.Prelude.{◌≡◌, IfOk};
ghost use Rattle.es6_cursor.specs.Readers.{inner};
ghost use Rattle.es6_cursor.specs.Reads.{Reads};
ghost use Rattle.es6_reading.specs.Modules.{from_clause, specifier};

use es6_ast::{Identifier, Specifier};
use es6_cursor::{Cursor, Halt};
use std::alloc::{AllocError, Global};

/// ModuleSpecifier.
#[tactic(auto, using(es6_cursor::proofs::Rules::groups), unfolding(es6_reading::specs::Modules::specifier))]
pub fn specifier(cursor: &mut Cursor) -> Result<Specifier, Halt>
    ensures { Reads (specifier cursor.old) result cursor.new }
{
    let begin = cursor.begin();
    let text = cursor.expect_text()?;
    let span = cursor.span_from(begin);
    Ok(Specifier { span, text })
}

/// FromClause, and the semicolon after it.
#[tactic(auto, using(es6_cursor::proofs::Rules::statements), unfolding(es6_reading::specs::Modules::from_clause))]
pub fn from_clause(cursor: &mut Cursor, room: u16) -> Result<Specifier, Halt>
    ensures { Reads (from_clause (inner room) cursor.old) result cursor.new }
{
    cursor.expect_word(b"from")?;
    let specifier = specifier(cursor)?;
    cursor.semicolon()?;
    Ok(specifier)
}

/// An equal name at the same place.
pub fn copy(alloc: Global, name: &Identifier) -> Result<Identifier, AllocError>
    ensures { IfOk result (λ copied. copied ≡ name.now) }
{
    Ok(Identifier {
        span: name.span,
        name: name.name.copy(alloc)?,
    })
}
