//! Declared variables (ECMA-262, 6th edition, 13.3.1.4, 13.3.2.4): without an initializer `let` gives undefined, and `var` nothing.

ghost use Rattle.std.specs.Prelude.{◌≡◌, ◌∷◌, [], MatchOption};
ghost use Rattle.source_meaning.specs.Statements.{binds_of, variable_matched, variables_on};
ghost use Rattle.source_moves.specs.Moves.{Steps};
ghost use Rattle.source_moves.specs.Seen.{state_of};
ghost use Rattle.source_statements.specs.Variables.{is_var, variable_begun, variables_from};

use crate::pending::StatementWork;
use es_value::Value;
use es6_ast::{Part, Pattern, VariableKind};
use source_moves::{Move, Moved, begin, push};
use source_state::{Binds, Completion, Control, Node, Nodes, State};

/// How a declaration of this kind binds.
pub fn binds_of(kind: VariableKind) -> Binds
    ensures { result ≡ binds_of kind }
{
    match kind {
        VariableKind::Var => Binds::Assigns,
        _ => Binds::Initializes,
    }
}

/// A variable takes its value.
pub fn variable_matched<'a, W: StatementWork<'a>>(
    kind: VariableKind,
    pattern: Node<'a, Pattern>,
    parts: Nodes<'a, Part>,
    value: Value,
    st: &mut State<'a, W>,
) -> Moved<'a>
    ensures { Steps W.seen result st.new (variable_matched kind pattern.entry parts.entry (state_of W.seen st.old) value) }
{
    push(st, W::variables_rest(kind, parts))?;
    Ok(Move::Goes(Control::Destructure(binds_of(kind), pattern, value)))
}

fn variable_begun<'a, W: StatementWork<'a>>(
    kind: VariableKind,
    part: &'a Part,
    parts: Nodes<'a, Part>,
    st: &mut State<'a, W>,
) -> Moved<'a>
    ensures { Steps W.seen result st.new (variable_begun kind part.now parts.entry (state_of W.seen st.old)) }
{
    let pattern = Node::of(&part.pattern);
    match &part.default {
        None => variable_matched(kind, pattern, parts, Value::Undefined, st),
        Some(x) => begin(W::variable_value(kind, pattern, parts), Node::of(x), st),
    }
}

fn is_var(kind: VariableKind) -> bool
    ensures { result ≡ is_var kind }
{
    matches!(kind, VariableKind::Var)
}

/// The first variable that asks for something, and what is left behind it.
fn next_variable<'a>(
    kind: VariableKind,
    parts: Nodes<'a, Part>,
) -> Option<(&'a Part, Nodes<'a, Part>)>
    ensures { MatchOption result (variables_from kind parts.entry ≡ []) (λ p. variables_from kind parts.entry ≡ p.0.now ∷ p.1) }
{
    let mut rest = parts;
    while let Some((part, parts)) = rest.first() {
        let passed = is_var(kind) && part.default.is_none();
        if !passed {
            return Some((part, parts));
        }
        rest = parts;
    }
    None
}

/// The variables that are left.
#[tactic(auto, using(crate::proofs::Variables::variables_none, crate::proofs::Variables::variables_some))]
pub fn variables_on<'a, W: StatementWork<'a>>(
    kind: VariableKind,
    parts: Nodes<'a, Part>,
    st: &mut State<'a, W>,
) -> Moved<'a>
    ensures { Steps W.seen result st.new (variables_on kind parts.entry (state_of W.seen st.old)) }
{
    match next_variable(kind, parts) {
        None => Ok(Move::hand(Completion::Done)),
        Some((part, parts)) => variable_begun(kind, part, parts, st),
    }
}
