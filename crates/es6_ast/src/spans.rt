//! Where expressions, statements and patterns stand.

ghost use Rattle.std.specs.Prelude.{◌≡◌};
ghost use Rattle.es6_ast.specs.Spans.{pattern_span, span_of, statement_span};

use crate::tree::{Expression, Pattern, Statement};
use es_text::Span;

impl Expression {
    /// From its first token to its last one, in bytes.
    pub fn span(&self) -> Span
        ensures { result ≡ span_of self.now }
    {
        match self {
            Expression::This { span }
            | Expression::Name { span, .. }
            | Expression::Literal { span, .. }
            | Expression::ArrayList { span, .. }
            | Expression::ObjectList { span, .. }
            | Expression::Chain { span, .. }
            | Expression::SuperMember { span, .. }
            | Expression::SuperIndex { span, .. }
            | Expression::SuperCall { span, .. }
            | Expression::NewTarget { span }
            | Expression::New { span, .. }
            | Expression::Update { span, .. }
            | Expression::Unary { span, .. }
            | Expression::Power { span, .. }
            | Expression::Binary { span, .. }
            | Expression::Conditional { span, .. }
            | Expression::Assign { span, .. }
            | Expression::Sequence { span, .. }
            | Expression::Yield { span, .. }
            | Expression::Delegate { span, .. }
            | Expression::Group { span, .. }
            | Expression::Cover { span, .. } => *span,
            Expression::Template(template) => template.span,
            Expression::Function(function) => function.get().span,
            Expression::Arrow(arrow) => arrow.get().span,
            Expression::Class(class) => class.get().span,
        }
    }
}

impl Statement {
    /// From its first token to its last one, in bytes. A semicolon that is inserted has no length.
    pub fn span(&self) -> Span
        ensures { result ≡ statement_span self.now }
    {
        match self {
            Statement::Variables { span, .. }
            | Statement::Empty { span }
            | Statement::Expression { span, .. }
            | Statement::If { span, .. }
            | Statement::DoWhile { span, .. }
            | Statement::While { span, .. }
            | Statement::For { span, .. }
            | Statement::ForOf { span, .. }
            | Statement::Continue { span, .. }
            | Statement::Break { span, .. }
            | Statement::Return { span, .. }
            | Statement::Switch { span, .. }
            | Statement::Labelled { span, .. }
            | Statement::Throw { span, .. }
            | Statement::Try { span, .. }
            | Statement::Debugger { span } => *span,
            Statement::Block(block) => block.span,
            Statement::FunctionDeclaration(function) => function.get().span,
            Statement::ClassDeclaration(class) => class.get().span,
        }
    }
}

impl Pattern {
    /// From its first token to its last one, in bytes. A target by itself stands where its expression does.
    pub fn span(&self) -> Span
        ensures { result ≡ pattern_span self.now }
    {
        match self {
            Pattern::Target(target) => target.get().span(),
            Pattern::ArrayPattern { span, .. } | Pattern::ObjectPattern { span, .. } => *span,
        }
    }
}
