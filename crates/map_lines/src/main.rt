//! Reads the text of a source map, and prints it as this crate's writer gives it, then each segment in a line:
//! the place in the script, then the source, the place in it and the name, as far as the segment has them.
//! Of a text that is no map it prints the fault.
#![tactic(auto)]

use source_map::{Map, Segment, read_map, write_map};
use std::io::{self, BufRead, BufReader, BufWriter, Read, Write};

/// One segment in a line, with its numbers from 0.
fn write_segment<W: Write + Drop>(out: &mut W, segment: Segment) -> io::Result<()> {
    write!(
        out,
        "{} {}",
        segment.generated.line, segment.generated.column
    )?;
    if let Some(target) = segment.target {
        let place = target.place;
        write!(out, " {} {} {}", target.source, place.line, place.column)?;
        if let Some(name) = target.name {
            write!(out, " {name}")?;
        }
    }
    writeln!(out, "")
}

fn main(rt: HostRuntime) -> io::Result<()> {
    let mut text = Vec::new(rt.alloc());
    BufReader::new(rt.alloc(), rt.reader())?.read_to_end(&mut text)?;
    let mut out = BufWriter::new(rt.alloc(), io::writer(&rt))?;
    match read_map(rt.alloc(), &text) {
        Ok(map) => {
            out.write_all(&write_map(rt.alloc(), &map)?)?;
            writeln!(out, "")?;
            for segment in map.segments.as_slice() {
                write_segment(&mut out, *segment)?;
            }
        }
        Err(fault) => writeln!(out, "{fault}")?,
    }
    out.flush()
}
