//! Templates with values (ECMA-262, 6th edition, 12.2.9).

ghost use Rattle.es6_cursor.specs.Readers.{inner};
ghost use Rattle.es6_cursor.specs.Reads.{ReadsAs};
ghost use Rattle.es6_read_parts.specs.Handed.{HasExpressions};
ghost use Rattle.es6_reading.specs.Parts.{parted_template, template_parts};

use crate::readers::Primaries;
use es6_ast::Stretch;
use es6_cursor::{Cursor, Flags, Halt, Nested, Stop, TURNS};
use es6_makers::MakesTemplates;

impl<
    G: MakesTemplates,
    E: Fn(&mut Cursor, u16, Flags, Nested) -> Result<G::Reading, Halt>,
    S,
> Primaries<'_, G, E, S> {
    /// The values after the first stretch, each with the stretch after it.
    #[tactic(auto, using(es6_cursor::proofs::Rules::lists, crate::proofs::TemplateLists::template_turns))]
    fn template_parts(&self, cursor: &mut Cursor) -> Result<G::TemplateParts, Halt>
        requires expressions { HasExpressions G.seen E.pre E.post self.now.here }
        ensures { ReadsAs G.seen_template_parts (template_parts (inner self.now.here.room) self.now.here.flags (inner self.now.here.room).fuel cursor.old) result cursor.new }
    {
        let mut list = G::no_template_parts(cursor.alloc());
        for turn in 0..TURNS {
            let value = self.sequence_within(cursor)?;
            if let Some(after) = cursor.take_stretch(false, true)? {
                G::push_template_part(&mut list, value, after)?;
                return Ok(list);
            }
            let after = cursor.expect_stretch(false, false)?;
            G::push_template_part(&mut list, value, after)?;
        }
        Err(Halt::Stopped(Stop::Endless))
    }

    /// What follows the first stretch of a template that begins at the offset and has values.
    #[tactic(auto, using(es6_cursor::proofs::Rules::groups), unfolding(es6_reading::specs::Parts::parted_template))]
    pub fn parted_template(
        &self,
        cursor: &mut Cursor,
        begin: u32,
        first: Stretch,
    ) -> Result<G::Template, Halt>
        requires expressions { HasExpressions G.seen E.pre E.post self.now.here }
        ensures { ReadsAs G.seen_template (parted_template (inner self.now.here.room) self.now.here.flags begin first cursor.old) result cursor.new }
    {
        let rest = self.template_parts(cursor)?;
        let span = cursor.span_from(begin);
        Ok(G::template(span, first, rest))
    }
}
