//! The sample graph: a module for each number, which exports a counter and a class with an iterator,
//! and an entry that goes over an iterator of each.
#![tactic(auto)]

ghost use Rattle.std.specs.Prelude.{◌≡◌, ℕ, ◌%◌, ◌<◌, ◌≤◌, [], ◌∷◌, ◌++◌, List, map, string_bytes, IfOk, OnOk};
ghost use Rattle.std.specs.List.{flat_map};
ghost use Rattle.sure_outside.specs.SureStores.{sure_file_at};
ghost use Rattle.sample_graph.specs.Sample.{module_lines, module_path, named_imports, import_line};
ghost use Rattle.sample_graph.specs.Sample.{loop_line, counter_line, loop_lines, main_lines};
ghost use Rattle.sample_graph.specs.Sample.{numbers, text_of, sample_modules, sample_files};
ghost use Rattle.sample_graph.specs.Listed.{file_listed, path_and_bytes};

use std::alloc::{AllocError, Global};
use sure_outside::SureFiles;

/// The most modules beside the entry.
pub const MOST_MODULES: u64 = 1000;

/// The lines of each module but the entry.
const MODULE: &str = "\
export let c = 0;
export class K {
  constructor(k) { this.k = k; }
  [Symbol.iterator]() {
    let i = 0, k = this.k;
    return { next: () => { c = c + 1; return { value: i, done: i++ >= k }; } };
  }
}
";

#[tactic(auto, unfolding(crate::specs::Sample::module_lines))]
fn module_text(alloc: Global) -> Result<Vec<u8>, AllocError>
    ensures { IfOk result (λ text. text.items ≡ text_of module_lines) }
{
    Vec::from_slice(alloc, MODULE.as_bytes())
}

fn module_path(alloc: Global, number: u64) -> Result<String, AllocError>
    ensures { IfOk result (λ path. string_bytes path ≡ module_path number) }
{
    format!(in alloc; "m{number}.js")
}

fn named_imports(alloc: Global, number: u64) -> Result<String, AllocError>
    ensures { IfOk result (λ text. string_bytes text ≡ named_imports number) }
{
    format!(in alloc; "{{K as K{number}, c as c{number}}}")
}

/// The line of the entry that imports what a module exports.
#[tactic(auto, unfolding(crate::specs::Sample::import_line))]
fn import_line(alloc: Global, number: u64) -> Result<String, AllocError>
    ensures { IfOk result (λ text. string_bytes text ≡ text_of (import_line number ∷ [])) }
{
    let names = named_imports(alloc, number)?;
    let path = module_path(alloc, number)?;
    format!(in alloc; "import {names} from \"./{path}\";\n")
}

/// The line of the entry that goes over an iterator of a module.
fn loop_line(alloc: Global, number: u64) -> Result<String, AllocError>
    ensures { IfOk result (λ text. string_bytes text ≡ text_of (loop_line number ∷ [])) }
{
    let count = number % 5;
    format!(in alloc; "for (const v of new K{number}({count})) print(v);\n")
}

/// The line of the entry that prints the counter of a module.
fn counter_line(alloc: Global, number: u64) -> Result<String, AllocError>
    ensures { IfOk result (λ text. string_bytes text ≡ text_of (counter_line number ∷ [])) }
{
    format!(in alloc; "print(c{number});\n")
}

fn loop_lines(alloc: Global, number: u64) -> Result<String, AllocError>
    ensures { IfOk result (λ text. string_bytes text ≡ text_of (loop_lines number)) }
{
    let mut text = loop_line(alloc, number)?;
    let counter = counter_line(alloc, number)?;
    text.push_str(counter.as_str())?;
    Ok(text)
}

fn push_imports(alloc: Global, text: &mut Vec<u8>, n: u64) -> Result<(), AllocError>
    requires { n ≤ MOST_MODULES }
    ensures { OnOk result (text.new.items ≡ text.old.items ++ text_of (map import_line (numbers n))) }
{
    for before in 0..n {
        let line = import_line(alloc, before + 1)?;
        text.extend_from_slice(line.as_bytes())?;
    }
    Ok(())
}

fn push_loops(alloc: Global, text: &mut Vec<u8>, n: u64) -> Result<(), AllocError>
    requires { n ≤ MOST_MODULES }
    ensures { OnOk result (text.new.items ≡ text.old.items ++ text_of (flat_map loop_lines (numbers n))) }
{
    for before in 0..n {
        let lines = loop_lines(alloc, before + 1)?;
        text.extend_from_slice(lines.as_bytes())?;
    }
    Ok(())
}

fn main_text(alloc: Global, n: u64) -> Result<Vec<u8>, AllocError>
    requires { n ≤ MOST_MODULES }
    ensures { IfOk result (λ text. text.items ≡ text_of (main_lines n)) }
{
    let mut text = Vec::from_slice(alloc, b"import {print} from \"host\";\n")?;
    push_imports(alloc, &mut text, n)?;
    push_loops(alloc, &mut text, n)?;
    Ok(text)
}

fn push_modules(alloc: Global, list: &mut Vec<(String, Vec<u8>)>, n: u64) -> Result<(), AllocError>
    requires { n ≤ MOST_MODULES }
    ensures { OnOk result
        (map path_and_bytes list.new.items ≡ map path_and_bytes list.old.items ++ sample_modules n) }
{
    for before in 0..n {
        let path = module_path(alloc, before + 1)?;
        let text = module_text(alloc)?;
        list.push((path, text))?;
    }
    Ok(())
}

fn sample_list(alloc: Global, n: u64) -> Result<Vec<(String, Vec<u8>)>, AllocError>
    requires { n ≤ MOST_MODULES }
    ensures { IfOk result (λ list. map path_and_bytes list.items ≡ sample_files n) }
{
    let path = String::from_str(alloc, "main.js")?;
    let text = main_text(alloc, n)?;
    let mut list = Vec::new(alloc);
    list.push((path, text))?;
    push_modules(alloc, &mut list, n)?;
    Ok(list)
}

/// The files of the sample graph with `n` modules beside its entry, `main.js`.
pub fn sample(alloc: Global, n: u64) -> Result<SureFiles, AllocError>
    requires least { 1 ≤ n }
    requires most { n ≤ MOST_MODULES }
    ensures { IfOk result
        (λ files. (path : List ℕ) → sure_file_at files path ≡ file_listed (sample_files n) path) }
{
    let list = sample_list(alloc, n)?;
    SureFiles::new(alloc, list)
}
