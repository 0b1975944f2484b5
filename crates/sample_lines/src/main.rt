//! Prints the files of the sample graph, the entry first, each behind a line with its path. The input
//! has the number of modules beside the entry.
#![tactic(auto)]

use anyhow::{Result, bail, ensure};
use es_outside::{FileAnswer, Files};
use sample_graph::{MOST_MODULES, sample};
use std::alloc::Global;
use std::io::{self, BufWriter, Write};
use sure_outside::SureFiles;

/// The most bytes of a file that are read.
const LIMIT: u32 = 4_194_304;

fn write_file<W: Write>(
    alloc: Global,
    out: &mut W,
    files: &mut SureFiles,
    path: &str,
) -> Result<()> {
    writeln!(out, "== {path}")?;
    match files.read(alloc, path, LIMIT) {
        FileAnswer::Found(bytes) => {
            out.write_all(&bytes)?;
            Ok(())
        }
        _ => bail!("{path} is missing"),
    }
}

fn main(rt: HostRuntime) -> Result<()> {
    let text = io::read_to_string(rt.alloc(), rt.reader())?;
    let count = text.as_str().trim().parse::<u64>()?;
    ensure!(1 <= count, "too few");
    ensure!(count <= MOST_MODULES, "too many");
    let mut files = sample(rt.alloc(), count)?;
    let mut out = BufWriter::new(rt.alloc(), io::writer(&rt))?;
    write_file(rt.alloc(), &mut out, &mut files, "main.js")?;
    for before in 0..count {
        let number = before + 1;
        let path = format!(in rt.alloc(); "m{number}.js")?;
        write_file(rt.alloc(), &mut out, &mut files, path.as_str())?;
    }
    out.flush()?;
    Ok(())
}
