//! What a specifier names, and the normal form of a path.

ghost use Rattle.std.specs.Prelude.{◌≡◌, map, IfOk};
ghost use Rattle.module_paths.specs.Answers.{Gives};
ghost use Rattle.module_paths.specs.Paths.{begins_path, form_of, is_absolute, joined, path_from, path_of, segments};
ghost use Rattle.module_paths.specs.declared.paths.PathFault.TheVariants.{OutOfMemory};

use crate::segments::{kept_of, text_of};
use std::alloc::{AllocError, Global};
use thiserror::Error;

/// Why a text names no path.
#[derive(Clone, Copy, Debug, PartialEq, Eq, Error)]
pub enum PathFault {
    #[error("bad specifier")]
    BadSpecifier,
    #[error("out of memory")]
    OutOfMemory,
}

impl From<AllocError> for PathFault {
    ghost from_gives = { λ _ fault. fault ≡ OutOfMemory };

    fn from(_error: AllocError) -> PathFault {
        PathFault::OutOfMemory
    }
}

const HERE: [u16; 2] = [0x2E, 0x2F];

const ABOVE: [u16; 3] = [0x2E, 0x2E, 0x2F];

/// The path that a specifier names in the module with the path `base`: its segments stand behind those of the module's folder.
///
/// `BadSpecifier` comes exactly for a specifier that doesn't begin with `./` or `../`, that has U+0000 or a lone surrogate, or that
/// leaves no segment.
pub fn normal_path(alloc: Global, base: &str, specifier: &[u16]) -> Result<String, PathFault>
    ensures { Gives (path_from base.now specifier.now) result }
{
    if !begins_path(specifier) || specifier.contains(&0) {
        return Err(PathFault::BadSpecifier);
    }
    match String::from_utf16(alloc, specifier)? {
        Ok(text) => joined(alloc, base, text.as_str()),
        Err(_) => Err(PathFault::BadSpecifier),
    }
}

/// A path in normal form. `BadSpecifier` comes exactly for a path that has U+0000 or no segment that is kept.
pub fn normal_form(alloc: Global, path: &str) -> Result<String, PathFault>
    ensures { Gives (form_of path.now) result }
{
    if path.as_bytes().contains(&0) {
        return Err(PathFault::BadSpecifier);
    }
    let segments = segments_of(alloc, path)?;
    normal(alloc, is_absolute(path), &segments)
}

fn begins_path(specifier: &[u16]) -> bool
    ensures { result ≡ begins_path specifier.now }
{
    let here = HERE;
    let above = ABOVE;
    specifier.starts_with(&here) | specifier.starts_with(&above)
}

/// Whether a path begins with a slash.
fn is_absolute(path: &str) -> bool
    ensures { result ≡ is_absolute path.now }
{
    match path.as_bytes() {
        [] => false,
        [first, ..] => *first == b'/',
    }
}

/// The path of a text, in the folder of the module with the path `base`.
fn joined(alloc: Global, base: &str, text: &str) -> Result<String, PathFault>
    ensures { Gives (joined base.now text.now) result }
{
    let mut all = segments_of(alloc, base)?;
    // The last one is the module's own name.
    all.pop();
    let mut more = segments_of(alloc, text)?;
    all.append(&mut more)?;
    normal(alloc, is_absolute(base), &all)
}

/// The segments of a path.
fn segments_of<'a>(alloc: Global, path: &'a str) -> Result<Vec<&'a str>, AllocError>
    ensures { IfOk result (λ all. map (λ s. s.now) all.items ≡ segments path.now) }
{
    path.split('/').collect(alloc)
}

/// The path of these segments, in normal form.
fn normal(alloc: Global, absolute: bool, segments: &[&str]) -> Result<String, PathFault>
    ensures { Gives (path_of absolute (map (λ s. s.now) segments.now)) result }
{
    let kept = kept_of(alloc, absolute, segments)?;
    if kept.is_empty() {
        return Err(PathFault::BadSpecifier);
    }
    Ok(text_of(alloc, absolute, &kept)?)
}
