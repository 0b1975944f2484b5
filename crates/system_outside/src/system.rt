//! Files and streams of the system. They tell no content, since no contract can say what a system call gives or
//! takes, and each counts its faults.

ghost use Rattle.std.specs.Prelude.{◌≡◌};

use es_outside::{FaultCount, FileAnswer, Sink, SinkFailed};
use std::alloc::{AllocError, Global};
use std::fs;
use std::io::{self, Read};
use std::rt::Files;

/// How many bytes a single read asks for at the most.
const READ_SIZE: usize = 8192;

/// The files of the system.
#[derive(Drop)]
pub struct SystemFiles<'a, R: Files> {
    rt: &'a R,
    faults: FaultCount,
}

/// Why a file isn't read.
#[derive(Clone, Copy, Debug, PartialEq, Eq)]
enum ReadError {
    Missing,
    Failed,
    OutOfMemory,
}

impl From<AllocError> for ReadError {
    fn from(_error: AllocError) -> ReadError {
        ReadError::OutOfMemory
    }
}

impl From<io::Error> for ReadError {
    fn from(error: io::Error) -> ReadError {
        match error.kind() {
            io::ErrorKind::NotFound => ReadError::Missing,
            io::ErrorKind::OutOfMemory => ReadError::OutOfMemory,
            _ => ReadError::Failed,
        }
    }
}

impl<'a, R: Files> SystemFiles<'a, R> {
    /// The files of this system, without a fault yet.
    pub fn new(rt: &'a R) -> SystemFiles<'a, R>
        ensures system { result.rt.now ≡ rt.now }
        ensures no_fault { result.faults ≡ 0 }
    {
        SystemFiles {
            rt,
            faults: FaultCount::new(),
        }
    }
}

impl<'a, R: Files> es_outside::Files for SystemFiles<'a, R> {
    ghost use Rattle.std.specs.Prelude.{None};

    ghost files = { λ _. None };

    ghost faults = { λ files. files.faults };

    fn read(&mut self, alloc: Global, path: &str, limit: u32) -> FileAnswer {
        match read_front(self.rt, alloc, path, limit as usize + 1) {
            Ok(bytes) => FileAnswer::Found(bytes),
            Err(ReadError::Missing) => FileAnswer::Missing,
            Err(ReadError::OutOfMemory) => FileAnswer::OutOfMemory,
            Err(ReadError::Failed) => {
                self.faults.raise();
                FileAnswer::Failed
            }
        }
    }
}

/// The first bytes of a file, at most so many.
fn read_front<R: Files>(
    rt: &R,
    alloc: Global,
    path: &str,
    most: usize,
) -> Result<Vec<u8>, ReadError> {
    let mut file = fs::open(rt, path)?;
    let mut bytes = Vec::new(alloc);
    let mut buffer = [0u8; READ_SIZE];
    // Each turn but the last reads a byte at least.
    for _ in 0..most {
        let room = most.saturating_sub(bytes.len()).min(READ_SIZE);
        if room == 0 {
            break;
        }
        let count = file.read(&mut buffer[..room])?;
        if count == 0 {
            break;
        }
        bytes.extend_from_slice(&buffer[..count])?;
    }
    Ok(bytes)
}

/// A stream of the process, the standard output or the standard error.
#[derive(Drop)]
pub struct StreamSink<P: io::Print + Drop> {
    stream: P,
    faults: FaultCount,
}

impl<P: io::Print + Drop> StreamSink<P> {
    /// A sink that writes to this stream, without a fault yet.
    pub fn new(stream: P) -> StreamSink<P>
        ensures stream { result.stream ≡ stream }
        ensures no_fault { result.faults ≡ 0 }
    {
        StreamSink {
            stream,
            faults: FaultCount::new(),
        }
    }
}

impl<P: io::Print + Drop> Sink for StreamSink<P> {
    ghost use Rattle.std.specs.Prelude.{None};

    ghost bytes = { λ _. None };

    ghost faults = { λ sink. sink.faults };

    fn write(&mut self, piece: &[u8]) -> Result<usize, SinkFailed> {
        match self.stream.write_some(piece) {
            Ok(count) if count > 0 => Ok(count),
            _ => {
                self.faults.raise();
                Err(SinkFailed)
            }
        }
    }
}
