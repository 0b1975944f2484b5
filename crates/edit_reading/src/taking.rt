//! The edits of a list, with the files that they put.

ghost use Rattle.std.specs.Prelude.{◌≡◌, ◌<◌, ◌≤◌, ◌+◌, ◌^◌, ◌++◌, ◌∷◌, [], map, vec_len, MatchResult, OnOk};
ghost use Rattle.edit_list.specs.Edits.{asked_of, put};
ghost use Rattle.listed_builds.specs.Doing.{step_of};
ghost use Rattle.edit_reading.specs.Reading.{AreEdits, AreTaken, Cause, IsUntaken, IsUntakenAt, Takes};

use crate::fault::{EditsFault, Unread};
use crate::reading::{MOST_BYTES, read_list};
use edit_list::Edit;
use es_outside::{FileAnswer, Files};
use listed_builds::Taken;
use shared_text::Name;
use std::alloc::{AllocError, Global};

/// The edits of the list in the file with this path, with the bytes of the files that they put, which are read in the order of their
/// lines, each up to one byte past the limit of a module.
pub fn take_edits<F: Files>(alloc: Global, list: &str, files: &mut F) -> Result<Vec<Taken>, Unread>
    ensures taken { MatchResult result
        (λ taken. AreEdits (F.files files.old) list.now (map step_of taken.items))
        (Cause (F.files files.old) list.now (F.faults files.old) (F.faults files.new)) }
    ensures kept { F.files files.new ≡ F.files files.old }
    ensures no_fall { F.faults files.old ≤ F.faults files.new }
{
    let edits = read_list(alloc, list, files)?;
    take_all(alloc, edits.as_slice(), files)
}

/// These edits, with the files that they put.
fn take_all<F: Files>(alloc: Global, edits: &[Edit], files: &mut F) -> Result<Vec<Taken>, Unread>
    ensures taken { MatchResult result
        (λ taken. AreTaken (F.files files.old) (map asked_of edits.now) (map step_of taken.items))
        (IsUntaken (F.files files.old) (map asked_of edits.now) (F.faults files.old) (F.faults files.new)) }
    ensures kept { F.files files.new ≡ F.files files.old }
    ensures no_fall { F.faults files.old ≤ F.faults files.new }
{
    let mut taken = Vec::new(alloc);
    for edit in edits {
        let next = take(alloc, edit, taken.len(), files)?;
        keep(&mut taken, next)?;
    }
    Ok(taken)
}

fn keep(taken: &mut Vec<Taken>, next: Taken) -> Result<(), AllocError>
    ensures pushed { OnOk result (taken.new.items ≡ taken.old.items ++ next ∷ []) }
    ensures counted { OnOk result (vec_len taken.new ≡ vec_len taken.old + 1) }
{
    taken.push(next)?;
    Ok(())
}

/// An edit behind so many others, with the file that it puts.
fn take<F: Files>(alloc: Global, edit: &Edit, before: usize, files: &mut F) -> Result<Taken, Unread>
    requires { before < 2 ^ 63 }
    ensures taken { MatchResult result
        (λ taken. Takes (F.files files.old) (asked_of edit.now) (step_of taken))
        (IsUntakenAt (F.files files.old) (asked_of edit.now) before (F.faults files.old) (F.faults files.new)) }
    ensures kept { F.files files.new ≡ F.files files.old }
    ensures no_fall { F.faults files.old ≤ F.faults files.new }
{
    match edit {
        Edit::Put { path, from } => take_file(alloc, path, from, before, files),
        Edit::Drop { path } => Ok(Taken::Drop {
            path: String::from_str(alloc, path)?,
        }),
        Edit::Build => Ok(Taken::Build),
    }
}

/// The edit that puts at a path what another has.
fn take_file<F: Files>(
    alloc: Global,
    path: &str,
    from: &str,
    before: usize,
    files: &mut F,
) -> Result<Taken, Unread>
    requires { before < 2 ^ 63 }
    ensures taken { MatchResult result
        (λ taken. Takes (F.files files.old) (put path.now from.now) (step_of taken))
        (IsUntakenAt (F.files files.old) (put path.now from.now) before (F.faults files.old) (F.faults files.new)) }
    ensures kept { F.files files.new ≡ F.files files.old }
    ensures no_fall { F.faults files.old ≤ F.faults files.new }
{
    let path = String::from_str(alloc, path)?;
    let named = Name::of_bytes(alloc, from.as_bytes())?;
    match files.read(alloc, from, MOST_BYTES) {
        FileAnswer::Found(bytes) => Ok(Taken::Put { path, bytes }),
        FileAnswer::Missing => Err(Unread::Refused(EditsFault::MissingFile {
            line: before + 1,
            from: named,
        })),
        FileAnswer::Failed => Err(Unread::Refused(EditsFault::UnreadFile { path: named })),
        FileAnswer::OutOfMemory => Err(Unread::OutOfMemory),
    }
}
