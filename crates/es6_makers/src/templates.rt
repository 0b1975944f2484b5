//! The nodes of templates (ECMA-262, 6th edition, 12.2.9).

ghost use Rattle.std.specs.Prelude.{[], ◌++◌, ◌∷◌, ◌≡◌, List, OnOk};
ghost use Rattle.es6_ast.specs.declared.tree.Expression.TheVariants as expr;
ghost use Rattle.es6_ast.specs.declared.tree.Template.{Template, roll-Template};
ghost use Rattle.es6_ast.specs.declared.tree.TemplatePart.{TemplatePart};
ghost use Rattle.es6_reading.specs.Expressions.{left};
ghost use Rattle.es6_reading.specs.Parts.{template_part};

use crate::readings::MakesReadings;
use es_text::Span;
use es6_ast::Stretch;
use std::alloc::{AllocError, Global};

/// Makes templates.
pub trait MakesTemplates: MakesReadings {
    type Template: Drop;

    type TemplateParts: Drop;

    ghost seen_template: { Self.Template → Template };

    ghost seen_template_parts: { Self.TemplateParts → List TemplatePart };

    /// 12.2.9
    fn no_template_parts(alloc: Global) -> Self::TemplateParts
        ensures { Self.seen_template_parts result ≡ [] };

    fn push_template_part(
        list: &mut Self::TemplateParts,
        value: Self::Reading,
        after: Stretch,
    ) -> Result<(), AllocError>
        ensures { OnOk result (Self.seen_template_parts list.new ≡ Self.seen_template_parts list.old ++ template_part (Self.seen value).value after ∷ []) };

    fn template(span: Span, first: Stretch, rest: Self::TemplateParts) -> Self::Template
        ensures { Self.seen_template result ≡ roll-Template (record { span = span; first = first; rest = Self.seen_template_parts rest }) };

    fn template_expression(template: Self::Template) -> Self::Reading
        ensures { Self.seen result ≡ left (expr.Template (Self.seen_template template)) };
}
