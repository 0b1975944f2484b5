//! The segments of a path that are kept, and their text.

ghost use Rattle.std.specs.Prelude.{◌≡◌, ◌∷◌, ◌++◌, map, reverse, string_bytes, IfOk, OnOk};
ghost use Rattle.std.specs.List.{flat_map, join_with_byte};
ghost use Rattle.module_paths.specs.Paths.{above, entered, kept_of, path_text};

use std::alloc::{AllocError, Global};

/// The segments that are kept of these, in order.
pub(crate) fn kept_of<'a>(
    alloc: Global,
    absolute: bool,
    segments: &[&'a str],
) -> Result<Vec<&'a str>, AllocError>
    ensures { IfOk result (λ kept. map (λ s. s.now) kept.items ≡ kept_of absolute (map (λ s. s.now) segments.now)) }
{
    let mut kept = Vec::new(alloc);
    for segment in segments {
        enter(&mut kept, absolute, segment)?;
    }
    Ok(kept)
}

/// One segment more: an empty one and `.` change nothing, and `..` goes to the folder above.
fn enter<'a>(kept: &mut Vec<&'a str>, absolute: bool, segment: &'a str) -> Result<(), AllocError>
    ensures { OnOk result (reverse (map (λ s. s.now) kept.new.items) ≡ entered absolute (reverse (map (λ s. s.now) kept.old.items)) segment.now) }
{
    if segment.is_empty() | (segment == ".") {
        return Ok(());
    }
    if segment == ".." {
        return leave(kept, absolute);
    }
    kept.push(segment)?;
    Ok(())
}

/// The folder above: without the last segment, unless that is `..` itself. Where there is none, a relative path keeps the `..`.
fn leave<'a>(kept: &mut Vec<&'a str>, absolute: bool) -> Result<(), AllocError>
    ensures { OnOk result (reverse (map (λ s. s.now) kept.new.items) ≡ above absolute (reverse (map (λ s. s.now) kept.old.items))) }
{
    match kept.pop() {
        None if absolute => Ok(()),
        None => {
            kept.push("..")?;
            Ok(())
        }
        Some(last) if last == ".." => {
            kept.push(last)?;
            kept.push("..")?;
            Ok(())
        }
        Some(_) => Ok(()),
    }
}

/// The text of a path with these segments.
pub(crate) fn text_of(
    alloc: Global,
    absolute: bool,
    segments: &[&str],
) -> Result<String, AllocError>
    ensures { IfOk result (λ text. string_bytes text ≡ path_text absolute (map (λ s. s.now) segments.now)) }
{
    let mut text = String::new(alloc);
    if absolute {
        text.push_str("/")?;
    }
    push_joined(&mut text, segments)?;
    Ok(text)
}

/// Adds the segments, with slashes between them.
fn push_joined(text: &mut String, segments: &[&str]) -> Result<(), AllocError>
    ensures { OnOk result (string_bytes text.new ≡ string_bytes text.old ++ join_with_byte 47 (map (λ s. s.now) segments.now)) }
{
    match segments.first() {
        None => Ok(()),
        Some(first) => {
            text.push_str(first)?;
            push_slashed(text, &segments[1..])?;
            Ok(())
        }
    }
}

/// Adds the segments, each behind a slash.
fn push_slashed(text: &mut String, segments: &[&str]) -> Result<(), AllocError>
    ensures { OnOk result (string_bytes text.new ≡ string_bytes text.old ++ flat_map (λ s. 47 ∷ s.now) segments.now) }
{
    for segment in segments {
        text.push_str("/")?;
        text.push_str(segment)?;
    }
    Ok(())
}
