//! The readers of what stands one construct deeper. A nested construct takes the stack frames of the readers between it and the
//! one inside, so rarer readers are kept out of these frames by `inline(never)`.

ghost use Rattle.es6_cursor.specs.Nests.{ReadsExpressions, ReadsStatements};
ghost use Rattle.es6_cursor.specs.Readers.{inner};
ghost use Rattle.es6_cursor.specs.Reads.{ReadsAs};

use crate::blocks::block;
use crate::class_members::one_member;
use crate::patterns::{binding, initialized, one_object_part, one_part};
use es6_cursor::{Cursor, Flags, Halt, Nested, Stand, Stop};
use es6_makers::{MakesBindings, MakesBlocks, MakesMembers};

/// Block, which is a construct of its own (13.2).
#[tactic(auto, using(crate::proofs::Inside::block_none, crate::proofs::Inside::block_some, es6_cursor::proofs::Nests::fewer_statements))]
pub fn inner_block<
    G: MakesBlocks,
    S: Fn(&mut Cursor, u16, Flags, Stand) -> Result<G::Statement, Halt>,
>(cursor: &mut Cursor, room: u16, flags: Flags, statement: &S) -> Result<G::Block, Halt>
    requires statements { ReadsStatements G.seen_statement room (S.pre statement.now) (S.post statement.now) }
    ensures { ReadsAs G.seen_block ((inner room).block flags cursor.old) result cursor.new }
{
    if room == 0 {
        Err(Halt::Stopped(Stop::Depth))
    } else {
        block::<G, S>(cursor, room - 1, flags, statement)
    }
}

/// A name that is bound, or a BindingPattern, one construct deeper (13.3.3).
#[tactic(auto, using(crate::proofs::Inside::target_none, crate::proofs::Inside::target_some, es6_cursor::proofs::Nests::fewer_expressions))]
pub fn inner_target<
    G: MakesBindings,
    E: Fn(&mut Cursor, u16, Flags, Nested) -> Result<G::Reading, Halt>,
>(cursor: &mut Cursor, room: u16, flags: Flags, expression: &E) -> Result<G::Pattern, Halt>
    requires expressions { ReadsExpressions G.seen room (E.pre expression.now) (E.post expression.now) }
    ensures { ReadsAs G.seen_pattern ((inner room).target flags cursor.old) result cursor.new }
{
    if room == 0 {
        Err(Halt::Stopped(Stop::Depth))
    } else {
        binding::<G, E>(cursor, room - 1, flags, expression)
    }
}

/// BindingElement, which is a construct of its own (13.3.3).
#[tactic(auto, using(crate::proofs::Inside::part_none, crate::proofs::Inside::part_some, es6_cursor::proofs::Nests::fewer_expressions))]
#[cycle(reader)]
pub fn inner_part<
    G: MakesBindings,
    E: Fn(&mut Cursor, u16, Flags, Nested) -> Result<G::Reading, Halt>,
>(cursor: &mut Cursor, room: u16, flags: Flags, expression: &E) -> Result<G::Part, Halt>
    requires expressions { ReadsExpressions G.seen room (E.pre expression.now) (E.post expression.now) }
    ensures { ReadsAs G.seen_part ((inner room).part flags cursor.old) result cursor.new }
{
    if room == 0 {
        Err(Halt::Stopped(Stop::Depth))
    } else {
        one_part::<G, E>(cursor, room - 1, flags, expression)
    }
}

/// BindingProperty, which is a construct of its own (13.3.3).
#[tactic(auto, using(crate::proofs::Inside::object_part_none, crate::proofs::Inside::object_part_some, es6_cursor::proofs::Nests::fewer_expressions))]
#[cycle(reader)]
pub fn inner_object_part<
    G: MakesBindings,
    E: Fn(&mut Cursor, u16, Flags, Nested) -> Result<G::Reading, Halt>,
>(cursor: &mut Cursor, room: u16, flags: Flags, expression: &E) -> Result<G::ObjectPart, Halt>
    requires expressions { ReadsExpressions G.seen room (E.pre expression.now) (E.post expression.now) }
    ensures { ReadsAs G.seen_object_part ((inner room).object_part flags cursor.old) result cursor.new }
{
    if room == 0 {
        Err(Halt::Stopped(Stop::Depth))
    } else {
        one_object_part::<G, E>(cursor, room - 1, flags, expression)
    }
}

/// A variable, one construct deeper (13.3).
#[tactic(auto, using(crate::proofs::Inside::variable_none, crate::proofs::Inside::variable_some, es6_cursor::proofs::Nests::fewer_expressions))]
pub fn inner_variable<
    G: MakesBindings,
    E: Fn(&mut Cursor, u16, Flags, Nested) -> Result<G::Reading, Halt>,
>(cursor: &mut Cursor, room: u16, flags: Flags, expression: &E) -> Result<G::Part, Halt>
    requires expressions { ReadsExpressions G.seen room (E.pre expression.now) (E.post expression.now) }
    ensures { ReadsAs G.seen_part ((inner room).variable flags cursor.old) result cursor.new }
{
    if room == 0 {
        Err(Halt::Stopped(Stop::Depth))
    } else {
        initialized::<G, E>(cursor, room - 1, flags, flags, expression)
    }
}

/// A member of a class, which is a construct of its own (14.5).
#[tactic(auto, using(crate::proofs::Inside::member_none, crate::proofs::Inside::member_some, es6_cursor::proofs::Nests::fewer_expressions, es6_cursor::proofs::Nests::fewer_statements))]
pub fn inner_member<
    G: MakesMembers,
    E: Fn(&mut Cursor, u16, Flags, Nested) -> Result<G::Reading, Halt>,
    S: Fn(&mut Cursor, u16, Flags, Stand) -> Result<G::Statement, Halt>,
>(
    cursor: &mut Cursor,
    room: u16,
    flags: Flags,
    expression: &E,
    statement: &S,
) -> Result<G::Member, Halt>
    requires expressions { ReadsExpressions G.seen room (E.pre expression.now) (E.post expression.now) }
    requires statements { ReadsStatements G.seen_statement room (S.pre statement.now) (S.post statement.now) }
    ensures { ReadsAs G.seen_member ((inner room).member flags cursor.old) result cursor.new }
{
    if room == 0 {
        Err(Halt::Stopped(Stop::Depth))
    } else {
        one_member::<G, E, S>(cursor, room - 1, flags, expression, statement)
    }
}
