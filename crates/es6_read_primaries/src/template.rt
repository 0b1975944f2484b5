//! Templates, where one may begin (ECMA-262, 6th edition, 12.2.9).

ghost use Rattle.std.specs.Prelude.{◌≡◌, []};
ghost use Rattle.es6_ast.specs.declared.tree.Template.{roll-Template};
ghost use Rattle.es6_cursor.specs.Readers.{inner};
ghost use Rattle.es6_cursor.specs.Reads.{ReadsAs};
ghost use Rattle.es6_read_parts.specs.Handed.{HasExpressions};
ghost use Rattle.es6_read_primaries.specs.Links.{if_made, one_template};

use crate::readers::Primaries;
use es_text::Span;
use es6_ast::Stretch;
use es6_cursor::{Cursor, Flags, Halt, Nested, open_template};
use es6_makers::MakesTemplates;
use std::alloc::Global;

/// A template with no values.
fn bare_template<G: MakesTemplates>(alloc: Global, span: Span, first: Stretch) -> G::Template
    ensures { G.seen_template result ≡ roll-Template (record { span = span; first = first; rest = [] }) }
{
    G::template(span, first, G::no_template_parts(alloc))
}

impl<
    G: MakesTemplates,
    E: Fn(&mut Cursor, u16, Flags, Nested) -> Result<G::Reading, Halt>,
    S,
> Primaries<'_, G, E, S> {
    /// The template that is next, from the offset on, if one is.
    #[tactic(auto, using(es6_cursor::proofs::Rules::templates), unfolding(crate::specs::Links::one_template))]
    pub fn template(&self, cursor: &mut Cursor, begin: u32) -> Result<Option<G::Template>, Halt>
        requires expressions { HasExpressions G.seen E.pre E.post self.now.here }
        ensures { ReadsAs (if_made G.seen_template) (one_template (inner self.now.here.room) self.now.here.flags begin cursor.old) result cursor.new }
    {
        if let Some(first) = cursor.take_stretch(true, true)? {
            let span = cursor.span_from(begin);
            return Ok(Some(bare_template::<G>(cursor.alloc(), span, first)));
        }
        let Some(first) = open_template(cursor, self.here.room)? else {
            return Ok(None);
        };
        Ok(Some(self.parted_template(cursor, begin, first)?))
    }
}
