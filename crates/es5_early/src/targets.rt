//! What is assigned, updated, deleted or bound.

ghost use Rattle.std.specs.Prelude.{◌≡◌, map};
ghost use Rattle.es5_ast.specs.Early.{assigned, bound, deleted, ends_in_access, is_name_target, is_restricted};
ghost use Rattle.es5_early.specs.Pairs.{least_with};
ghost use Rattle.es5_early.specs.Parts.{found, linked};

use crate::finder::Finder;
use crate::pair::Rule;
use es5_ast::{Expr5, Identifier5, Link5, UnaryOperator5};

impl Finder {
    /// F2 at a name that is bound (ECMA-262, 5.1 edition, 12.2.1, 12.14.1, 13.1, 11.1.5).
    pub(crate) fn bound(&mut self, name: &Identifier5)
        ensures { self.new ≡ least_with self.old (bound name.now) }
    {
        self.when(
            is_restricted(name.name.bytes()),
            Rule::Early(2),
            name.span.begin,
        );
    }

    /// F2 and F5 at a target (11.3, 11.4.4, 11.4.5, 11.13).
    pub(crate) fn assigned(&mut self, target: &Expr5)
        ensures { self.new ≡ least_with self.old (assigned (found target.now)) }
    {
        match target {
            Expr5::Name { span, name } => {
                self.when(is_restricted(name.bytes()), Rule::Early(2), span.begin);
            }
            Expr5::Chain { span, links, .. } => {
                self.when(
                    !ends_in_access(links.as_slice()),
                    Rule::Early(5),
                    span.begin,
                );
            }
            _ => self.when(true, Rule::Early(5), begin_of(target)),
        }
    }

    /// F3 (11.4.1).
    pub(crate) fn deleted(&mut self, operator: UnaryOperator5, operand: &Expr5, at: u32)
        ensures { self.new ≡ least_with self.old (deleted operator (found operand.now).target at) }
    {
        if let UnaryOperator5::Delete = operator {
            self.when(is_name(operand), Rule::Early(3), at);
        }
    }
}

/// `eval` and `arguments` (10.1.2).
fn is_restricted(name: &[u8]) -> bool
    ensures { result ≡ is_restricted name.now }
{
    name == b"eval".as_slice() || name == b"arguments".as_slice()
}

fn is_name(expression: &Expr5) -> bool
    ensures { result ≡ is_name_target (found expression.now).target }
{
    matches!(expression, Expr5::Name { .. })
}

/// Whether the last link is an access to a property (11.2.1).
fn ends_in_access(links: &[Link5]) -> bool
    ensures { result ≡ ends_in_access (map linked links.now) }
{
    match links.last() {
        None => false,
        Some(link) => is_access(link),
    }
}

fn is_access(link: &Link5) -> bool
    ensures { result ≡ (linked link.now).0 }
{
    match link {
        Link5::Member { .. } | Link5::Index { .. } => true,
        Link5::Call { .. } => false,
    }
}

fn begin_of(expression: &Expr5) -> u32
    ensures { result ≡ (found expression.now).begin }
{
    match expression {
        Expr5::This { span }
        | Expr5::Name { span, .. }
        | Expr5::Literal { span, .. }
        | Expr5::ArrayList { span, .. }
        | Expr5::ObjectList { span, .. }
        | Expr5::Chain { span, .. }
        | Expr5::New { span, .. }
        | Expr5::Update { span, .. }
        | Expr5::Unary { span, .. }
        | Expr5::Binary { span, .. }
        | Expr5::Conditional { span, .. }
        | Expr5::Assign { span, .. }
        | Expr5::Sequence { span, .. } => span.begin,
        Expr5::Function(function) => function.get().span.begin,
    }
}
