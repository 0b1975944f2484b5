//! The program `es5c`: `es5c build ENTRY` writes the ES5 script of a graph of modules to the standard output, `es5c split ENTRY` a script for
//! each module of that graph, `es5c rebuild ENTRY LIST` what the builds among edits write, and `es5c map SCRIPT` the text of the map that a
//! script holds. `es5c run ENTRY` runs the graph, `es5c run5 SCRIPT` a script, and `es5c sample N` the sample graph beside its script.
#![tactic(auto)]

use commands::{Status, es5c};
use es_outside::{Host, Hosts};
use std::alloc::{AllocError, Global};
use std::process::ExitCode;
use std::{env, io};
use system_outside::{CountHost, PrintHost, ReadHost, StreamSink, SystemFiles};

fn main(rt: HostRuntime) -> ExitCode {
    let status = run(&rt).unwrap_or(Status::OutOfMemory);
    ExitCode::from(status.code())
}

/// Does the command of the process's words over the real files, streams and hosts.
fn run(rt: &HostRuntime) -> Result<Status, AllocError> {
    let alloc = rt.alloc();
    let words = words_of(rt)?;
    let mut list: Vec<(String, Box<dyn Host>)> = Vec::new(alloc);
    list.push((
        String::from_str(alloc, "print")?,
        Box::new(alloc, PrintHost)?,
    ))?;
    list.push((
        String::from_str(alloc, "read")?,
        Box::new(alloc, ReadHost::new(*rt))?,
    ))?;
    list.push((
        String::from_str(alloc, "count")?,
        Box::new(alloc, CountHost::new())?,
    ))?;
    // These three names may name hosts, so the list isn't handed back.
    let Ok(hosts) = Hosts::new(alloc, list) else {
        return Ok(Status::HostFault);
    };
    let mut files = SystemFiles::new(rt);
    let mut out = StreamSink::new(rt.stdout());
    let mut err = StreamSink::new(rt.stderr());
    let (status, _hosts) = es5c(
        alloc,
        words.as_slice(),
        &mut files,
        hosts,
        &mut out,
        &mut err,
    );
    Ok(status)
}

/// The words after the program's own. Where they can't be read as text, they are no command.
fn words_of(rt: &HostRuntime) -> Result<Vec<String>, AllocError> {
    let mut words = Vec::new(rt.alloc());
    let args = match env::args(rt) {
        Ok(args) => args,
        Err(error) if error.kind() == io::ErrorKind::OutOfMemory => return Err(AllocError),
        Err(_) => return Ok(words),
    };
    for word in args.skip(1) {
        words.push(word)?;
    }
    Ok(words)
}
