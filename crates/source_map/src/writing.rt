//! From segments to the characters of `mappings`.
ghost use Rattle.std.specs.Prelude.{◌≡◌, ◌+◌, ◌-◌, ◌*◌, ◌<◌, ◌≤◌, ◌++◌, ◌∷◌, [], All, IfOk, IfSome, OnOk, replicate, string_bytes, true};
ghost use Rattle.source_map.specs.Digits.{letter};
ghost use Rattle.source_map.specs.Segments.{limit};
ghost use Rattle.source_map.specs.Maps.{IsSegment};
ghost use Rattle.source_map.specs.Written.{signed, digits_text, field_text, name_text, target_text, segment_text, separator, values_in, named, targeted, values_to, mappings_text, no_values, AreSmall, IsSmallTarget, place_text, placed};

use crate::digits::letter_of;
use crate::map::{Segment, Target};
use crate::reading::Values;
use std::alloc::{AllocError, Global};

/// A number with its sign at the lowest bit.
fn signed_step(from: u32, to: u32) -> u32
    requires from { from ≤ limit }
    requires to { to ≤ limit }
    ensures { result ≡ signed from to }
{
    if from <= to {
        2 * (to - from)
    } else {
        2 * (from - to) + 1
    }
}

fn push_letter(out: &mut String, digit: u8) -> Result<(), AllocError>
    requires { digit < 64 }
    ensures { OnOk result (string_bytes out.new ≡ string_bytes out.old ++ letter digit ∷ []) }
{
    out.push(char::from(letter_of(digit)))?;
    Ok(())
}

/// Writes a number's digits, the least first.
fn push_number(out: &mut String, number: u32) -> Result<(), AllocError>
    ensures { OnOk result (string_bytes out.new ≡ string_bytes out.old ++ digits_text 6 number) }
{
    let mut rest = number;
    while rest >= 32 {
        push_letter(out, (32 + rest % 32) as u8)?;
        rest /= 32;
    }
    push_letter(out, rest as u8)?;
    Ok(())
}

fn push_field(out: &mut String, from: u32, to: u32) -> Result<(), AllocError>
    requires from { from ≤ limit }
    requires to { to ≤ limit }
    ensures { OnOk result (string_bytes out.new ≡ string_bytes out.old ++ field_text from to) }
{
    push_number(out, signed_step(from, to))
}

fn push_name(out: &mut String, values: Values, name: Option<u32>) -> Result<Values, AllocError>
    requires small { AreSmall values }
    requires name { IfSome name (λ n. n ≤ limit) }
    ensures values { IfOk result (λ v. v ≡ named values name) }
    ensures text { OnOk result (string_bytes out.new ≡ string_bytes out.old ++ name_text values name) }
{
    let Some(name) = name else { return Ok(values) };
    push_field(out, values.name, name)?;
    Ok(Values { name, ..values })
}

fn push_place(out: &mut String, values: Values, target: Target) -> Result<Values, AllocError>
    requires small { AreSmall values }
    requires source { target.source ≤ limit }
    requires line { target.place.line ≤ limit }
    requires column { target.place.column ≤ limit }
    ensures values { IfOk result (λ v. v ≡ placed values target) }
    ensures text { OnOk result (string_bytes out.new ≡ string_bytes out.old ++ place_text values target) }
{
    let source = target.source;
    let line = target.place.line as u32;
    let column = target.place.column as u32;
    push_field(out, values.source, source)?;
    push_field(out, values.line, line)?;
    push_field(out, values.column, column)?;
    Ok(Values {
        source,
        line,
        column,
        ..values
    })
}

fn push_target(
    out: &mut String,
    values: Values,
    target: Option<Target>,
) -> Result<Values, AllocError>
    requires small { AreSmall values }
    requires target { IfSome target IsSmallTarget }
    ensures values { IfOk result (λ v. v ≡ targeted values target) }
    ensures text { OnOk result (string_bytes out.new ≡ string_bytes out.old ++ target_text values target) }
{
    let Some(target) = target else {
        return Ok(values);
    };
    let placed = push_place(out, values, target)?;
    push_name(out, placed, target.name)
}

fn push_segment(out: &mut String, values: Values, segment: Segment) -> Result<Values, AllocError>
    requires small { AreSmall values }
    requires column { segment.generated.column ≤ limit }
    requires target { IfSome segment.target IsSmallTarget }
    ensures values { IfOk result (λ v. v ≡ values_to values segment) }
    ensures text { OnOk result (string_bytes out.new ≡ string_bytes out.old ++ segment_text values segment) }
{
    let generated = segment.generated.column as u32;
    push_field(out, values.generated, generated)?;
    let values = Values {
        generated,
        ..values
    };
    push_target(out, values, segment.target)
}

fn push_lines(out: &mut String, from: u64, to: u64) -> Result<(), AllocError>
    requires { from ≤ to }
    ensures { OnOk result (string_bytes out.new ≡ string_bytes out.old ++ replicate (to - from) 59) }
{
    for _ in from..to {
        out.push(';')?;
    }
    Ok(())
}

/// Writes what stands between a segment and the one before.
fn push_separator(out: &mut String, line: u64, first: bool, to: u64) -> Result<(), AllocError>
    ensures { OnOk result (string_bytes out.new ≡ string_bytes out.old ++ separator line first to) }
{
    if line < to {
        push_lines(out, line, to)
    } else if first {
        Ok(())
    } else {
        out.push(',')?;
        Ok(())
    }
}

/// The values where a segment begins: each line begins at column 0.
fn values_on(line: u64, to: u64, values: Values) -> Values
    ensures { result ≡ values_in line to values }
{
    if line < to {
        Values {
            generated: 0,
            ..values
        }
    } else {
        values
    }
}

/// The characters of `mappings` for segments.
pub(crate) fn write_segments(alloc: Global, segments: &[Segment]) -> Result<String, AllocError>
    requires { All (λ s. (s.generated.column ≤ limit) × IfSome s.target IsSmallTarget) segments.now }
    ensures { IfOk result (λ t. string_bytes t ≡ mappings_text 0 true no_values segments.now) }
{
    let mut out = String::new(alloc);
    let mut line = 0;
    let mut first = true;
    let mut values = Values {
        generated: 0,
        source: 0,
        line: 0,
        column: 0,
        name: 0,
    };
    for segment in segments {
        let to = segment.generated.line;
        push_separator(&mut out, line, first, to)?;
        values = push_segment(&mut out, values_on(line, to, values), *segment)?;
        line = to;
        first = false;
    }
    Ok(out)
}
