//! From the characters of `mappings` to segments, one character after another.
ghost use Rattle.std.specs.Prelude.{◌≡◌, ◌+◌, ◌*◌, ◌^◌, ◌<◌, ◌≤◌, ℕ, List, [], ◌∷◌, ◌++◌, length, Ok, Err, OnOk};
ghost use Rattle.source_map.specs.Outcome.{Gives, Leaves, or_bad_index};
ghost use Rattle.source_map.specs.Segments.{moved, within, after_column, move_by, move_all, segment_at, bad_digit, end_fields, end_segment, end_line, digit_at, character_at, segments_of, KeepsDigits};

use crate::digits::digit;
use crate::fault::MapFault;
use crate::fields::{Field, Fields};
use crate::map::{Segment, Target};
use es_text::Place;
use sqlite_items::Items;
use std::alloc::Global;

/// The largest value that a field may move to, and by.
pub(crate) const LIMIT: u32 = 2_147_483_647;

/// The weight of a field's seventh digit, its last.
const MOST_WEIGHT: u64 = 1_073_741_824;

/// What the next fields are relative to.
#[derive(Clone, Copy)]
pub(crate) struct Values {
    pub(crate) generated: u32,
    pub(crate) source: u32,
    pub(crate) line: u32,
    pub(crate) column: u32,
    pub(crate) name: u32,
}

/// What is known between two characters of `mappings`.
#[derive(Drop)]
pub(crate) struct Reading {
    /// How many sources and names the map has.
    pub(crate) sources: usize,
    pub(crate) names: usize,
    pub(crate) line: u64,
    pub(crate) values: Values,
    /// Whether the segment is the first of its line.
    pub(crate) first: bool,
    /// Where the segment begins.
    pub(crate) start: usize,
    /// The segment's whole fields.
    pub(crate) fields: Fields,
    /// Where the field that isn't whole yet begins, and what its digits spell so far.
    pub(crate) begun: usize,
    pub(crate) number: u64,
    /// What the next digit counts: 32 for each digit before it.
    pub(crate) weight: u64,
    pub(crate) segments: Items<Segment>,
}

/// Where a field moves a value.
fn moved_by(value: u32, field: u32) -> Option<u32>
    ensures { result ≡ moved value field }
{
    let distance = field / 2;
    if field % 2 == 1 {
        if value < distance {
            None
        } else {
            Some(value - distance)
        }
    } else if u64::from(LIMIT) < u64::from(value) + u64::from(distance) {
        None
    } else {
        Some(value + distance)
    }
}

fn index_within(count: usize, value: u32) -> Option<u32>
    ensures { result ≡ within count value }
{
    if (value as usize) < count {
        Some(value)
    } else {
        None
    }
}

fn column_after(first: bool, before: u32, column: u32) -> Option<u32>
    ensures { result ≡ after_column first before column }
{
    if first || before < column {
        Some(column)
    } else {
        None
    }
}

fn in_range(at: usize, value: Option<u32>) -> Result<u32, MapFault>
    ensures { result ≡ or_bad_index at value }
{
    value.ok_or(MapFault::BadIndex { at })
}

impl Reading {
    /// Where the field number `kind` of the segment moves the values.
    #[tactic(auto, unfolding(crate::specs::Segments::move_by))]
    fn moved_values(&self, kind: usize, field: Field, values: Values) -> Result<Values, MapFault>
        ensures { result ≡ move_by self.now kind field values }
    {
        let Field { at, number } = field;
        match kind {
            0 => {
                let moved = moved_by(values.generated, number);
                let column = moved.and_then(|x| column_after(self.first, values.generated, x));
                let generated = in_range(at, column)?;
                Ok(Values {
                    generated,
                    ..values
                })
            }
            1 => {
                let moved = moved_by(values.source, number);
                let source = in_range(at, moved.and_then(|x| index_within(self.sources, x)))?;
                Ok(Values { source, ..values })
            }
            2 => {
                let line = in_range(at, moved_by(values.line, number))?;
                Ok(Values { line, ..values })
            }
            3 => {
                let column = in_range(at, moved_by(values.column, number))?;
                Ok(Values { column, ..values })
            }
            4 => {
                let moved = moved_by(values.name, number);
                let name = in_range(at, moved.and_then(|x| index_within(self.names, x)))?;
                Ok(Values { name, ..values })
            }
            _ => Ok(values),
        }
    }

    /// Where the segment's fields so far move the values.
    fn values_after(&self) -> Result<Values, MapFault>
        ensures { result ≡ move_all self.now 0 self.now.fields self.now.values }
    {
        let mut values = self.values;
        for (kind, field) in self.fields.as_slice().iter().enumerate() {
            values = self.moved_values(kind, *field, values)?;
        }
        Ok(values)
    }

    /// The fault of a digit, or that of an index before it.
    #[tactic(auto, unfolding(crate::specs::Segments::bad_digit))]
    fn bad_digit(&self, at: usize) -> MapFault
        ensures { bad_digit at self.now ≡ Err result }
    {
        match self.values_after() {
            Ok(_) => MapFault::BadDigit { at },
            Err(fault) => fault,
        }
    }

    #[tactic(auto, unfolding(crate::specs::Segments::end_fields))]
    fn end_fields(&mut self) -> Result<(), MapFault>
        ensures exact { Leaves result self.new (end_fields self.old) }
        ensures same { OnOk result (KeepsDigits self.old self.new) }
    {
        let count = self.fields.len();
        if !(count == 1 || count == 4 || count == 5) {
            return Err(MapFault::BadFields { at: self.start });
        }
        let values = self.values_after()?;
        self.segments.push(segment(self.line, count, values))?;
        self.values = values;
        self.fields.clear();
        Ok(())
    }

    #[tactic(auto, unfolding(crate::specs::Segments::end_segment))]
    fn end_segment(&mut self) -> Result<(), MapFault>
        ensures exact { Leaves result self.new (end_segment self.old) }
        ensures same { OnOk result (KeepsDigits self.old self.new) }
    {
        if self.weight != 1 {
            return Err(self.bad_digit(self.begun));
        }
        self.end_fields()
    }

    #[tactic(auto, unfolding(crate::specs::Segments::end_line))]
    fn end_line(&mut self) -> Result<(), MapFault>
        ensures exact { Leaves result self.new (end_line self.old) }
        ensures same { OnOk result (KeepsDigits self.old self.new) }
    {
        if self.first && self.fields.len() == 0 && self.weight == 1 {
            return Ok(());
        }
        self.end_segment()
    }

    /// Takes a digit of a field.
    #[tactic(auto, unfolding(crate::specs::Segments::digit_at))]
    fn digit(&mut self, at: usize, digit: u8) -> Result<(), MapFault>
        requires number { self.old.number < self.old.weight }
        requires weight { self.old.weight ≤ 32 ^ 7 }
        ensures exact { Leaves result self.new (digit_at at digit self.old) }
        ensures number { OnOk result (self.new.number < self.new.weight) }
        ensures weight { OnOk result (self.new.weight ≤ 32 ^ 7) }
        ensures line { OnOk result (self.new.line ≡ self.old.line) }
    {
        let begun = if self.weight == 1 { at } else { self.begun };
        if self.weight > MOST_WEIGHT {
            return Err(self.bad_digit(begun));
        }
        let number = self.number + u64::from(digit % 32) * self.weight;
        if digit >= 32 {
            self.begun = begun;
            self.number = number;
            self.weight *= 32;
            return Ok(());
        }
        if number / 2 > u64::from(LIMIT) {
            return Err(self.bad_digit(begun));
        }
        self.fields.push(Field {
            at: begun,
            number: number as u32,
        })?;
        self.begun = begun;
        self.number = 0;
        self.weight = 1;
        Ok(())
    }

    /// Takes the character at a place.
    #[tactic(auto, unfolding(crate::specs::Segments::character_at))]
    fn character(&mut self, at: usize, character: u8) -> Result<(), MapFault>
        requires number { self.old.number < self.old.weight }
        requires weight { self.old.weight ≤ 32 ^ 7 }
        requires line { self.old.line ≤ at }
        requires place { at + 1 < 2 ^ 64 }
        ensures exact { Leaves result self.new (character_at at character self.old) }
        ensures number { OnOk result (self.new.number < self.new.weight) }
        ensures weight { OnOk result (self.new.weight ≤ 32 ^ 7) }
        ensures line { OnOk result (self.new.line ≤ at + 1) }
    {
        if character == b';' {
            self.end_line()?;
            self.line += 1;
            self.values.generated = 0;
            self.first = true;
            self.start = at + 1;
            return Ok(());
        }
        if character == b',' {
            self.end_segment()?;
            self.first = false;
            self.start = at + 1;
            return Ok(());
        }
        match digit(character) {
            Some(digit) => self.digit(at, digit),
            None => Err(self.bad_digit(at)),
        }
    }
}

/// The segment that so many fields make.
fn segment(line: u64, fields: usize, values: Values) -> Segment
    ensures { result ≡ segment_at line fields values }
{
    let target = Target {
        source: values.source,
        place: Place {
            line: u64::from(values.line),
            column: u64::from(values.column),
        },
        name: if fields < 5 { None } else { Some(values.name) },
    };
    Segment {
        generated: Place {
            line,
            column: u64::from(values.generated),
        },
        target: if fields < 4 { None } else { Some(target) },
    }
}

/// The segments of `mappings`, beside so many sources and names.
pub(crate) fn read_segments(
    alloc: Global,
    sources: usize,
    names: usize,
    mappings: &[u8],
) -> Result<Items<Segment>, MapFault>
    ensures { Gives result (segments_of sources names mappings.now) }
{
    let mut reading = Reading {
        sources,
        names,
        line: 0,
        values: Values {
            generated: 0,
            source: 0,
            line: 0,
            column: 0,
            name: 0,
        },
        first: true,
        start: 0,
        fields: Fields::new(alloc),
        begun: 0,
        number: 0,
        weight: 1,
        segments: Items::new(alloc),
    };
    for (at, character) in mappings.iter().enumerate() {
        reading.character(at, *character)?;
    }
    reading.end_line()?;
    Ok(reading.segments)
}
