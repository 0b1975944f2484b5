//! The lines of a text: from offsets to places and back.

ghost use Rattle.std.specs.Prelude.{◌≡◌, ◌↔◌, ◌+◌, ◌<◌, ◌≤◌, ◌^◌, ℕ, List, length, All, None, Some, IfOk, IsSome, MatchResult, IsTrue, IsUtf8, slice_index};
ghost use Rattle.std.specs.Str.{chars, encode_utf8_all};
ghost use Rattle.es_text.specs.Units.{IsTextFault};
ghost use Rattle.es_text.specs.Places.{ends_line, place_after, rest_after, IsPlace, IsBoundary, IsBefore};
ghost use Rattle.es_text.specs.Marks.{IsMark};

use crate::Place;
use crate::units::{TextFault, chars_of};
use std::alloc::{AllocError, Global};
use std::marker::Model;

/// One mark stands at each character whose index is a multiple of this.
const STRIDE: usize = 64;

/// Where one character of a text stands, from which those after it are counted.
#[derive(Clone, Copy, Debug)]
struct Mark {
    index: usize,
    offset: u32,
    place: Place,
}

/// The places of a text of fewer than 2^32 bytes, which contracts see as the list of its
/// characters. Lines end at LF, CR, CR LF, U+2028 and U+2029 (ECMA-262, 6th edition, 11.3).
#[derive(Debug, Drop)]
pub struct Lines {
    text: Vec<char>,
    marks: Vec<Mark>,
}

impl Model for Lines {
    ghost use Rattle.std.specs.Prelude.{◌<◌, ◌^◌, ℕ, List, length, All};
    ghost use Rattle.std.specs.Str.{encode_utf8_all};
    ghost use Rattle.std.specs.Coded.{coded_ℕ, coded_list};
    ghost use Rattle.es_text.specs.Marks.{IsMark};

    ghost Value = { List ℕ };

    ghost coded = { coded_list coded_ℕ };

    ghost view = { λ l. l.text.items };

    ghost invariant = { λ l. (length (encode_utf8_all l.text.items) < 2 ^ 32) × All (IsMark l.text.items) l.marks.items };
}

impl Lines {
    /// The lines of a text. `NotUtf8` comes exactly where the bytes are no UTF-8.
    pub fn of(alloc: Global, bytes: &[u8]) -> Result<Lines, TextFault>
        requires { length bytes.now < 2 ^ 32 }
        ensures { MatchResult result (λ lines. (lines ≡ chars bytes.now) × IsUtf8 bytes.now) (λ fault. IsTextFault bytes.now fault) }
    {
        let text = chars_of(alloc, bytes)?;
        let marks = marks_of(alloc, &text)?;
        Ok(Lines { text, marks })
    }

    /// The place of the character that begins at an offset, or of the end there. `None` comes
    /// past the end and inside a character.
    pub fn place(&self, offset: u32) -> Option<Place>
        ensures place { (p : Place) → (result ≡ Some p) ↔ IsPlace self.now offset p }
        ensures boundary { IsSome result ↔ IsBoundary self.now offset }
    {
        place_of(
            &self.text,
            mark_by_offset(&self.text, &self.marks, offset),
            offset,
        )
    }

    /// The offset of the character that stands at a place, or of the end there. `None` comes
    /// where no character stands and the text does not end.
    pub fn offset(&self, place: Place) -> Option<u32>
        ensures { (offset : ℕ) → (result ≡ Some offset) ↔ IsPlace self.now offset place }
    {
        offset_of(
            &self.text,
            mark_by_place(&self.text, &self.marks, place),
            place,
        )
    }
}

/// No offset has two places, and no place two offsets: the two calls undo each other.
pub fn offsets_and_places()
    ensures one_place { (cs : List ℕ) (offset : ℕ) (p q : Place) → IsPlace cs offset p → IsPlace cs offset q → p ≡ q }
    ensures one_offset { (cs : List ℕ) (m n : ℕ) (p : Place) → IsPlace cs m p → IsPlace cs n p → m ≡ n }
{}

/// Where a text begins.
fn start(text: &[char]) -> Mark
    ensures mark { IsMark text.now result }
    ensures first { (result.index ≡ 0) × (result.offset ≡ 0) × (result.place.line ≡ 0) × (result.place.column ≡ 0) }
{
    Mark {
        index: 0,
        offset: 0,
        place: Place { line: 0, column: 0 },
    }
}

/// Whether a line ends with a character.
fn ends_line(text: &[char], index: usize) -> bool
    requires { index < length text.now }
    ensures { result ≡ ends_line (slice_index text.now index) (rest_after text.now index) }
{
    match text[index] {
        '\n' | '\u{2028}' | '\u{2029}' => true,
        '\r' => index + 1 == text.len() || text[index + 1] != '\n',
        _ => false,
    }
}

/// Where what follows a character stands.
fn place_after(text: &[char], index: usize, place: Place) -> Place
    requires inside { index < length text.now }
    requires line { place.line < 2 ^ 32 }
    requires column { place.column < 2 ^ 33 }
    ensures { result ≡ place_after place (slice_index text.now index) (rest_after text.now index) }
{
    if ends_line(text, index) {
        Place {
            line: place.line + 1,
            column: 0,
        }
    } else {
        Place {
            line: place.line,
            column: place.column + text[index].len_utf16() as u64,
        }
    }
}

/// Where the character after the marked one stands, or the end.
fn step(text: &[char], mark: Mark) -> Mark
    requires inside { mark.index < length text.now }
    requires mark { IsMark text.now mark }
    requires fits { length (encode_utf8_all text.now) < 2 ^ 32 }
    ensures mark { IsMark text.now result }
    ensures next { result.index ≡ mark.index + 1 }
{
    Mark {
        index: mark.index + 1,
        offset: mark.offset + text[mark.index].len_utf8() as u32,
        place: place_after(text, mark.index, mark.place),
    }
}

fn marks_of(alloc: Global, text: &[char]) -> Result<Vec<Mark>, AllocError>
    requires { length (encode_utf8_all text.now) < 2 ^ 32 }
    ensures { IfOk result (λ marks. All (IsMark text.now) marks.items) }
{
    let mut marks = Vec::with_capacity(alloc, text.len() / STRIDE + 1)?;
    let mut mark = start(text);
    while mark.index < text.len() {
        if mark.index % STRIDE == 0 {
            marks.push(mark)?;
        }
        mark = step(text, mark);
    }
    Ok(marks)
}

/// The last mark that is not past an offset.
fn mark_by_offset(text: &[char], marks: &[Mark], offset: u32) -> Mark
    requires { All (IsMark text.now) marks.now }
    ensures mark { IsMark text.now result }
    ensures below { result.offset ≤ offset }
{
    let after = marks.partition_point(|mark| mark.offset <= offset);
    if after > 0 {
        let mark = marks[after - 1];
        if mark.offset <= offset {
            return mark;
        }
    }
    start(text)
}

/// The last mark that is not past a place.
fn mark_by_place(text: &[char], marks: &[Mark], place: Place) -> Mark
    requires { All (IsMark text.now) marks.now }
    ensures mark { IsMark text.now result }
    ensures below { ¬ (IsBefore place result.place) }
{
    let after = marks.partition_point(|mark| !is_before(place, mark.place));
    if after > 0 {
        let mark = marks[after - 1];
        if !is_before(place, mark.place) {
            return mark;
        }
    }
    start(text)
}

/// Whether a place comes before another.
fn is_before(a: Place, b: Place) -> bool
    ensures { IsTrue result ↔ IsBefore a b }
{
    a.line < b.line || a.line == b.line && a.column < b.column
}

/// Counts on from a mark to the character that begins at an offset.
fn place_of(text: &[char], from: Mark, offset: u32) -> Option<Place>
    requires mark { IsMark text.now from }
    requires below { from.offset ≤ offset }
    requires fits { length (encode_utf8_all text.now) < 2 ^ 32 }
    ensures place { (p : Place) → (result ≡ Some p) ↔ IsPlace text.now offset p }
    ensures boundary { IsSome result ↔ IsBoundary text.now offset }
{
    let mut mark = from;
    while mark.offset < offset {
        if mark.index == text.len() {
            return None;
        }
        mark = step(text, mark);
    }
    if mark.offset == offset {
        Some(mark.place)
    } else {
        None
    }
}

/// Counts on from a mark to the character that stands at a place.
fn offset_of(text: &[char], from: Mark, place: Place) -> Option<u32>
    requires mark { IsMark text.now from }
    requires below { ¬ (IsBefore place from.place) }
    requires fits { length (encode_utf8_all text.now) < 2 ^ 32 }
    ensures { (offset : ℕ) → (result ≡ Some offset) ↔ IsPlace text.now offset place }
{
    let mut mark = from;
    while is_before(mark.place, place) {
        if mark.index == text.len() {
            return None;
        }
        mark = step(text, mark);
    }
    if mark.place == place {
        Some(mark.offset)
    } else {
        None
    }
}
