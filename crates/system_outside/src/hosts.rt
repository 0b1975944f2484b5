//! The three hosts that the program offers: `print`, `read` and `count`. Building asks none of them.

ghost use Rattle.std.specs.Prelude.{◌≡◌, pos};

use es_outside::{FaultCount, Host, HostAnswer, Prim, Prims, Units};
use std::alloc::{AllocError, Global};
use std::io;

/// The most bytes of a line that `read` takes.
const MAX_LINE_BYTES: usize = 4_194_304;

/// The greatest safe integer, at which `count` stays.
const MAX_COUNT: i64 = 9_007_199_254_740_991;

/// Answers undefined. What is printed is the event's own line.
#[derive(Drop)]
pub struct PrintHost;

impl Host for PrintHost {
    ghost use Rattle.std.specs.Prelude.{None, true};

    ghost talk = { λ _. None };

    ghost faults = { λ _. 0 };

    ghost sure = { λ _. true };

    fn answer(&mut self, _alloc: Global, _args: &[Prim]) -> HostAnswer {
        HostAnswer::Give(Prim::Undefined)
    }

    fn heard(&self) -> Option<&[Prims]> {
        None
    }
}

/// Answers 0, 1, 2 and so on, up to the greatest safe integer.
#[derive(Drop)]
pub struct CountHost {
    next: i64,
}

impl CountHost {
    /// The host that answers 0 next.
    pub fn new() -> CountHost
        ensures { result.next ≡ pos 0 }
    {
        CountHost { next: 0 }
    }
}

impl Host for CountHost {
    ghost use Rattle.std.specs.Prelude.{None, true};

    ghost talk = { λ _. None };

    ghost faults = { λ _. 0 };

    ghost sure = { λ _. true };

    fn answer(&mut self, _alloc: Global, _args: &[Prim]) -> HostAnswer {
        let count = self.next;
        self.next = count.saturating_add(1).min(MAX_COUNT);
        HostAnswer::Give(Prim::Number(count))
    }

    fn heard(&self) -> Option<&[Prims]> {
        None
    }
}

/// Answers the next line of the input without its line feed, and null at the end. It fails on a read fault, on bytes that
/// aren't UTF-8 and on a line that is too long.
#[derive(Drop)]
pub struct ReadHost<I: io::Input + Drop> {
    input: I,
    faults: FaultCount,
}

impl<I: io::Input + Drop> ReadHost<I> {
    /// The host that reads this input, without a fault yet.
    pub fn new(input: I) -> ReadHost<I>
        ensures input { result.input ≡ input }
        ensures no_fault { result.faults ≡ 0 }
    {
        ReadHost {
            input,
            faults: FaultCount::new(),
        }
    }
}

impl<I: io::Input + Drop> Host for ReadHost<I> {
    ghost use Rattle.std.specs.Prelude.{None, false};

    ghost talk = { λ _. None };

    ghost faults = { λ host. host.faults };

    ghost sure = { λ _. false };

    fn answer(&mut self, alloc: Global, _args: &[Prim]) -> HostAnswer {
        let mut line = String::new(alloc);
        match self.input.read_line(&mut line) {
            Ok(0) => HostAnswer::Give(Prim::Null),
            Ok(_) if line.len() <= MAX_LINE_BYTES => match text_of_line(alloc, line.as_str()) {
                Ok(text) => HostAnswer::Give(Prim::Text(text)),
                Err(_) => HostAnswer::OutOfMemory,
            },
            _ => {
                self.faults.raise();
                HostAnswer::Failed
            }
        }
    }

    fn heard(&self) -> Option<&[Prims]> {
        None
    }
}

/// The text of a line, without the line feed that ends it.
fn text_of_line(alloc: Global, line: &str) -> Result<Units, AllocError> {
    match line.strip_suffix('\n') {
        Some(text) => Units::of(alloc, text),
        None => Units::of(alloc, line),
    }
}
