//! The trees of templates (ECMA-262, 6th edition, 12.2.9).

use crate::Trees;
use crate::reading::Reading;
use es_text::Span;
use es6_ast::{Expression, Stretch, Template, TemplatePart};
use es6_makers::MakesTemplates;
use sqlite_items::Items;
use std::alloc::{AllocError, Global};

impl MakesTemplates for Trees {
    type Template = Template;

    type TemplateParts = Items<TemplatePart>;

    ghost seen_template = { λ x. x };

    ghost seen_template_parts = { λ x. x };

    fn no_template_parts(alloc: Global) -> Items<TemplatePart> {
        Items::new(alloc)
    }

    fn push_template_part(
        list: &mut Items<TemplatePart>,
        value: Reading,
        after: Stretch,
    ) -> Result<(), AllocError> {
        let value = value.into_value();
        list.push(TemplatePart { value, after })
    }

    fn template(span: Span, first: Stretch, rest: Items<TemplatePart>) -> Template {
        Template { span, first, rest }
    }

    fn template_expression(template: Template) -> Reading {
        Reading::left(Expression::Template(template))
    }
}
