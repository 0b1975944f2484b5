//! Templates (ECMA-262, 6th edition, 12.2.9.5): each value becomes a text as soon as it is evaluated.

ghost use Rattle.std.specs.Prelude.{◌≡◌, ◌++◌, IfOk};
ghost use Rattle.source_meaning.specs.Expressions.{template_on, template_texted, template_valued};
ghost use Rattle.source_moves.specs.Moves.{Steps};
ghost use Rattle.source_moves.specs.Seen.{state_of};

use crate::pending::ExpressionWork;
use es_operation_steps::Operation;
use es_value::{Str, Value};
use es6_ast::TemplatePart;
use source_moves::{Move, Moved, begin, impossible, operate};
use source_state::{BorrowedText, Node, Nodes, State};
use sqlite_items::Items;
use std::alloc::{AllocError, Global};

/// The text so far, and the values that are left.
pub fn template_on<'a, W: ExpressionWork<'a>>(
    text: Str,
    parts: Nodes<'a, TemplatePart>,
    st: &mut State<'a, W>,
) -> Moved<'a>
    ensures { Steps W.seen result st.new (template_on text parts.entry (state_of W.seen st.old)) }
{
    match parts.first() {
        None => Ok(Move::give(Value::Text(text))),
        Some((part, rest)) => {
            let after = BorrowedText::of(part.after.cooked.units());
            let work = W::template_value(text, after, rest);
            begin(work, Node::of(&part.value), st)
        }
    }
}

/// A value was evaluated.
pub fn template_valued<'a, W: ExpressionWork<'a>>(
    alloc: Global,
    text: Str,
    after: BorrowedText<'a>,
    rest: Nodes<'a, TemplatePart>,
    value: Value,
    st: &mut State<'a, W>,
) -> Moved<'a>
    ensures { Steps W.seen result st.new (template_valued text after.entry rest.entry (state_of W.seen st.old) value) }
{
    let operands = Items::new(alloc);
    let work = W::template_text(text, after, rest);
    operate(alloc, work, Operation::ToText, value, operands, st)
}

/// The text so far, a value's text, and the stretch after it.
fn joined(
    alloc: Global,
    text: &Str,
    units: &Str,
    after: &BorrowedText<'_>,
) -> Result<Str, AllocError>
    ensures { IfOk result (λ whole. whole ≡ text.now ++ units.now ++ after.now) }
{
    let mut whole = Vec::from_slice(alloc, text.units())?;
    whole.extend_from_slice(units.units())?;
    whole.extend_from_slice(after.units())?;
    Str::of_vec(alloc, whole)
}

/// A value became a text.
pub fn template_texted<'a, W: ExpressionWork<'a>>(
    alloc: Global,
    text: Str,
    after: BorrowedText<'a>,
    rest: Nodes<'a, TemplatePart>,
    value: Value,
    st: &mut State<'a, W>,
) -> Moved<'a>
    ensures { Steps W.seen result st.new (template_texted text after.entry rest.entry (state_of W.seen st.old) value) }
{
    match value {
        Value::Text(units) => {
            let whole = joined(alloc, &text, &units, &after)?;
            template_on(whole, rest, st)
        }
        _ => impossible(st),
    }
}
