//! Parts of templates, of lists of arguments and of arrays.

use core_ast::CoreExpr;
use shared_text::Units;

/// A value of a template, and the text behind it.
#[derive(Drop)]
pub struct TemplatePart {
    pub value: CoreExpr,
    pub text: Units,
}

/// A part of a list of arguments or of an array, which alone has holes.
#[derive(Drop)]
pub enum ListPart {
    Single(CoreExpr),
    Spread(CoreExpr),
    Missing,
}
