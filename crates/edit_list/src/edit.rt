//! One edit, and the line that says it.

ghost use Rattle.std.specs.Prelude.{◌≡◌, map, option_map, string_bytes, IfOk};
ghost use Rattle.edit_list.specs.Edits.{asked_of, dropped_of, edit_of, one_word_of, path_of, put_of, unchanged, words};

use module_paths::{PathFault, normal_form};
use std::alloc::{AllocError, Global};

/// An edit of files by path, or that a graph is built of the files as edited so far. Its paths are in normal form.
#[derive(Debug, Drop)]
pub enum Edit {
    /// The path gets the bytes that the file `from` has.
    Put { path: String, from: String },
    /// Nothing stands at the path any more.
    Drop { path: String },
    Build,
}

/// The edit that a line says, if it says one.
pub(crate) fn edit_of(alloc: Global, line: &str) -> Result<Option<Edit>, AllocError>
    ensures { IfOk result (λ edit. option_map asked_of edit ≡ edit_of (words line.now)) }
{
    let words = words_of(alloc, line)?;
    match words.as_slice() {
        [name] => Ok(one_word_of(name)),
        [name, path] => dropped_of(alloc, name, path),
        [name, path, from] => put_of(alloc, name, path, from),
        _ => Ok(None),
    }
}

/// The words of a line, between single spaces.
fn words_of<'a>(alloc: Global, line: &'a str) -> Result<Vec<&'a str>, AllocError>
    ensures { IfOk result (λ all. map (λ s. s.now) all.items ≡ words line.now) }
{
    line.split(' ').collect(alloc)
}

fn one_word_of(name: &str) -> Option<Edit>
    ensures { option_map asked_of result ≡ one_word_of name.now }
{
    match name {
        "build" => Some(Edit::Build),
        _ => None,
    }
}

fn dropped_of(alloc: Global, name: &str, path: &str) -> Result<Option<Edit>, AllocError>
    ensures { IfOk result (λ edit. option_map asked_of edit ≡ dropped_of name.now path.now) }
{
    match name {
        "drop" => match path_of(alloc, path)? {
            Some(path) => Ok(Some(Edit::Drop { path })),
            None => Ok(None),
        },
        _ => Ok(None),
    }
}

fn put_of(alloc: Global, name: &str, path: &str, from: &str) -> Result<Option<Edit>, AllocError>
    ensures { IfOk result (λ edit.
        option_map asked_of edit ≡ put_of name.now path.now from.now) }
{
    match name {
        "put" => match (path_of(alloc, path)?, path_of(alloc, from)?) {
            (Some(path), Some(from)) => Ok(Some(Edit::Put { path, from })),
            _ => Ok(None),
        },
        _ => Ok(None),
    }
}

/// A word that is a path in normal form.
fn path_of(alloc: Global, word: &str) -> Result<Option<String>, AllocError>
    ensures { IfOk result (λ path. option_map string_bytes path ≡ path_of word.now) }
{
    match normal_form(alloc, word) {
        Ok(path) => Ok(unchanged(path, word)),
        Err(PathFault::BadSpecifier) => Ok(None),
        Err(PathFault::OutOfMemory) => Err(AllocError),
    }
}

/// A path, if this is its text.
fn unchanged(path: String, text: &str) -> Option<String>
    ensures { option_map string_bytes result ≡ unchanged (string_bytes path) text.now }
{
    if path.as_str() == text {
        Some(path)
    } else {
        None
    }
}
