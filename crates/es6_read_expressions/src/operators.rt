//! Operators with one operand, and powers (ECMA-262, 6th edition, 12.4, 12.5, and the 7th edition, 12.6).

ghost use Rattle.es6_cursor.specs.Readers.{inner};
ghost use Rattle.es6_cursor.specs.Reads.{ReadsAs};
ghost use Rattle.es6_read_parts.specs.Handed.{HasExpressions, HasStatements};
ghost use Rattle.es6_read_expressions.specs.Powers.{raised_to};
ghost use Rattle.es6_reading.specs.Expressions.{postfix, power, prefixed, raised, unary, update, updated};

use crate::readers::Expressions;
use es6_ast::{UnaryOperator, UpdateOperator};
use es6_cursor::{Cursor, Flags, Halt, Nested, Role, Stand};
use es6_lexer::Punctuator;
use es6_makers::{MakesExpressions, MakesOperators};
use es6_read_primaries::Primaries;

impl<
    G: MakesExpressions,
    E: Fn(&mut Cursor, u16, Flags, Nested) -> Result<G::Reading, Halt>,
    S: Fn(&mut Cursor, u16, Flags, Stand) -> Result<G::Statement, Halt>,
> Expressions<'_, G, E, S> {
    /// 12.4
    #[tactic(auto, using(es6_cursor::proofs::Rules::groups), unfolding(es6_reading::specs::Expressions::postfix))]
    fn postfix(&self, cursor: &mut Cursor, role: Role) -> Result<G::Reading, Halt>
        requires expressions { HasExpressions G.seen E.pre E.post self.now.here }
        requires statements { HasStatements G.seen_statement S.pre S.post self.now.here }
        ensures { ReadsAs G.seen (postfix (inner self.now.here.room) self.now.here.flags role cursor.old) result cursor.new }
    {
        let begin = cursor.begin();
        let operand = Primaries { here: self.here }.chain(cursor, role)?;
        let Some(operator) = cursor.take_after() else {
            return Ok(operand);
        };
        let span = cursor.span_from(begin);
        Ok(G::update(cursor.alloc(), span, operator, operand)?)
    }
}

impl<
    G: MakesOperators,
    E: Fn(&mut Cursor, u16, Flags, Nested) -> Result<G::Reading, Halt>,
    S,
> Expressions<'_, G, E, S> {
    #[tactic(auto, using(es6_cursor::proofs::Rules::groups), unfolding(es6_reading::specs::Expressions::prefixed))]
    fn prefixed(
        &self,
        cursor: &mut Cursor,
        begin: u32,
        operator: UnaryOperator,
    ) -> Result<G::Reading, Halt>
        requires expressions { HasExpressions G.seen E.pre E.post self.now.here }
        ensures { ReadsAs G.seen (prefixed (inner self.now.here.room) self.now.here.flags begin operator cursor.old) result cursor.new }
    {
        let operand = (self.here.expression)(
            cursor,
            self.here.room,
            self.here.flags,
            Nested::Unary,
        )?;
        let span = cursor.span_from(begin);
        Ok(G::unary(cursor.alloc(), span, operator, operand)?)
    }

    #[tactic(auto, using(es6_cursor::proofs::Rules::groups), unfolding(es6_reading::specs::Expressions::updated))]
    fn updated(
        &self,
        cursor: &mut Cursor,
        begin: u32,
        operator: UpdateOperator,
    ) -> Result<G::Reading, Halt>
        requires expressions { HasExpressions G.seen E.pre E.post self.now.here }
        ensures { ReadsAs G.seen (updated (inner self.now.here.room) self.now.here.flags begin operator cursor.old) result cursor.new }
    {
        let target = (self.here.expression)(
            cursor,
            self.here.room,
            self.here.flags,
            Nested::Unary,
        )?;
        let span = cursor.span_from(begin);
        Ok(G::update(cursor.alloc(), span, operator, target)?)
    }
}

impl<
    G: MakesExpressions,
    E: Fn(&mut Cursor, u16, Flags, Nested) -> Result<G::Reading, Halt>,
    S: Fn(&mut Cursor, u16, Flags, Stand) -> Result<G::Statement, Halt>,
> Expressions<'_, G, E, S> {
    /// UpdateExpression (12.4).
    #[tactic(auto, using(es6_cursor::proofs::Rules::groups), unfolding(es6_reading::specs::Expressions::update))]
    fn update(&self, cursor: &mut Cursor, role: Role) -> Result<G::Reading, Halt>
        requires expressions { HasExpressions G.seen E.pre E.post self.now.here }
        requires statements { HasStatements G.seen_statement S.pre S.post self.now.here }
        ensures { ReadsAs G.seen (update (inner self.now.here.room) self.now.here.flags role cursor.old) result cursor.new }
    {
        let begin = cursor.begin();
        if let Some(operator) = cursor.take_before() {
            return self.updated(cursor, begin, operator);
        }
        self.postfix(cursor, role)
    }

    /// UnaryExpression (12.5).
    #[tactic(auto, using(es6_cursor::proofs::Rules::groups), unfolding(es6_reading::specs::Expressions::unary))]
    pub fn unary(&self, cursor: &mut Cursor) -> Result<G::Reading, Halt>
        requires expressions { HasExpressions G.seen E.pre E.post self.now.here }
        requires statements { HasStatements G.seen_statement S.pre S.post self.now.here }
        ensures { ReadsAs G.seen (unary (inner self.now.here.room) self.now.here.flags cursor.old) result cursor.new }
    {
        let begin = cursor.begin();
        if let Some(operator) = cursor.take_unary() {
            return self.prefixed(cursor, begin, operator);
        }
        self.update(cursor, Role::Among)
    }
}

impl<
    G: MakesOperators,
    E: Fn(&mut Cursor, u16, Flags, Nested) -> Result<G::Reading, Halt>,
    S,
> Expressions<'_, G, E, S> {
    /// What follows the `**` after the base of a power, which begins at the offset.
    #[tactic(auto, using(es6_cursor::proofs::Rules::groups), unfolding(crate::specs::Powers::raised_to))]
    fn raised_to(
        &self,
        cursor: &mut Cursor,
        begin: u32,
        base: G::Reading,
    ) -> Result<G::Reading, Halt>
        requires expressions { HasExpressions G.seen E.pre E.post self.now.here }
        ensures { ReadsAs G.seen (raised_to (inner self.now.here.room) self.now.here.flags begin (G.seen base) cursor.old) result cursor.new }
    {
        let exponent = (self.here.expression)(
            cursor,
            self.here.room,
            self.here.flags,
            Nested::Power,
        )?;
        let span = cursor.span_from(begin);
        Ok(G::power(cursor.alloc(), span, base, exponent)?)
    }

    /// What may follow the base of a power, which begins at the offset.
    #[tactic(auto, using(es6_cursor::proofs::Choices::choices), unfolding(es6_reading::specs::Expressions::raised, crate::specs::Powers::raised_to))]
    fn raised(&self, cursor: &mut Cursor, begin: u32, base: G::Reading) -> Result<G::Reading, Halt>
        requires expressions { HasExpressions G.seen E.pre E.post self.now.here }
        ensures { ReadsAs G.seen (raised (inner self.now.here.room) self.now.here.flags begin (G.seen base) cursor.old) result cursor.new }
    {
        if !cursor.take_mark(Punctuator::StarStar) {
            return Ok(base);
        }
        self.raised_to(cursor, begin, base)
    }
}

impl<
    G: MakesExpressions,
    E: Fn(&mut Cursor, u16, Flags, Nested) -> Result<G::Reading, Halt>,
    S: Fn(&mut Cursor, u16, Flags, Stand) -> Result<G::Statement, Halt>,
> Expressions<'_, G, E, S> {
    /// ExponentiationExpression: its base has no unary operator (the 7th edition, 12.6).
    #[tactic(auto, using(es6_cursor::proofs::Rules::groups), unfolding(es6_reading::specs::Expressions::power))]
    pub fn power(&self, cursor: &mut Cursor, role: Role) -> Result<G::Reading, Halt>
        requires expressions { HasExpressions G.seen E.pre E.post self.now.here }
        requires statements { HasStatements G.seen_statement S.pre S.post self.now.here }
        ensures { ReadsAs G.seen (power (inner self.now.here.room) self.now.here.flags role cursor.old) result cursor.new }
    {
        let begin = cursor.begin();
        if let Some(operator) = cursor.take_unary() {
            return self.prefixed(cursor, begin, operator);
        }
        let base = self.update(cursor, role)?;
        self.raised(cursor, begin, base)
    }
}
