//! The line of an event.

ghost use Rattle.std.specs.Prelude.{◌≡◌, ◌∷◌, [], ◌++◌, OnOk, codes};
ghost use Rattle.std.specs.Fmt.{signed_decimal};
ghost use Rattle.run_lines.specs.Events.{value_text, values_text, more_values, event_line};

use crate::text::{end_line, push_text};
use es_outside::Prim;
use graph_refusals::push_quoted;
use std::alloc::{AllocError, Global};

/// Adds the line of a call of the host with this name.
pub fn push_event(
    alloc: Global,
    line: &mut Vec<u8>,
    name: &str,
    args: &[Prim],
) -> Result<(), AllocError>
    ensures { OnOk result (line.new.items ≡ line.old.items ++ event_line name.now args.now) }
{
    push_text(line, name)?;
    push_text(line, "(")?;
    push_values(alloc, line, args)?;
    end_line(line, ")")
}

/// Adds values with a comma and a space between two.
fn push_values(alloc: Global, line: &mut Vec<u8>, values: &[Prim]) -> Result<(), AllocError>
    ensures { OnOk result (line.new.items ≡ line.old.items ++ values_text values.now) }
{
    match values {
        [] => Ok(()),
        [first, rest @ ..] => {
            push_value(alloc, line, first)?;
            push_more(alloc, line, rest)
        }
    }
}

/// Adds each value behind a comma and a space.
fn push_more(alloc: Global, line: &mut Vec<u8>, values: &[Prim]) -> Result<(), AllocError>
    ensures { OnOk result (line.new.items ≡ line.old.items ++ more_values values.now) }
{
    for value in values {
        push_next(alloc, line, value)?;
    }
    Ok(())
}

fn push_next(alloc: Global, line: &mut Vec<u8>, value: &Prim) -> Result<(), AllocError>
    ensures { OnOk result (line.new.items ≡ line.old.items ++ (codes ", " ++ value_text value.now)) }
{
    push_text(line, ", ")?;
    push_value(alloc, line, value)
}

/// Adds a value: a number in decimal, a text between quotes, and any other by its name.
pub fn push_value(alloc: Global, line: &mut Vec<u8>, value: &Prim) -> Result<(), AllocError>
    ensures { OnOk result (line.new.items ≡ line.old.items ++ value_text value.now) }
{
    match value {
        Prim::Undefined => push_text(line, "undefined"),
        Prim::Null => push_text(line, "null"),
        Prim::Bool(true) => push_text(line, "true"),
        Prim::Bool(false) => push_text(line, "false"),
        Prim::Number(number) => push_signed(alloc, line, *number),
        Prim::Text(units) => push_quoted(line, units.units()),
    }
}

fn push_signed(alloc: Global, line: &mut Vec<u8>, number: i64) -> Result<(), AllocError>
    ensures { OnOk result (line.new.items ≡ line.old.items ++ signed_decimal number) }
{
    let digits = format!(in alloc; "{number}")?;
    push_text(line, digits.as_str())
}
