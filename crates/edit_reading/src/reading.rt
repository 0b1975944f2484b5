//! The list of edits that stands in a file.

ghost use Rattle.std.specs.Prelude.{◌≡◌, ◌≤◌, length, IsUtf8, map, MatchResult};
ghost use Rattle.edit_list.specs.Edits.{asked_of};
ghost use Rattle.edit_reading.specs.Reading.{Cause, IsListAt, IsUnread, Lists};

use crate::fault::{EditsFault, Unread};
use edit_list::{Edit, ListFault, edits_of};
use es_outside::{FileAnswer, Files};
use std::alloc::Global;

/// The most bytes of a list, and of a file that an edit puts.
pub(crate) const MOST_BYTES: u32 = 4_194_304;

/// The edits of the list in the file with this path, which is read up to one byte past the limit.
pub(crate) fn read_list<F: Files>(
    alloc: Global,
    list: &str,
    files: &mut F,
) -> Result<Vec<Edit>, Unread>
    ensures read { MatchResult result
        (λ edits. IsListAt (F.files files.old) list.now (map asked_of edits.items))
        (Cause (F.files files.old) list.now (F.faults files.old) (F.faults files.new)) }
    ensures kept { F.files files.new ≡ F.files files.old }
    ensures no_fall { F.faults files.old ≤ F.faults files.new }
{
    match files.read(alloc, list, MOST_BYTES) {
        FileAnswer::Found(bytes) => edits_in(alloc, bytes.as_slice()),
        FileAnswer::Missing => Err(Unread::Refused(EditsFault::Missing)),
        FileAnswer::Failed => Err(Unread::Refused(EditsFault::ReadFailed)),
        FileAnswer::OutOfMemory => Err(Unread::OutOfMemory),
    }
}

/// The edits that these bytes list.
fn edits_in(alloc: Global, bytes: &[u8]) -> Result<Vec<Edit>, Unread>
    ensures { MatchResult result (λ edits. Lists bytes.now (map asked_of edits.items)) (IsUnread bytes.now) }
{
    if bytes.len() > MOST_BYTES as usize {
        return Err(Unread::Refused(EditsFault::FileTooLong));
    }
    match str::from_utf8(bytes) {
        Ok(text) => edits_in_text(alloc, text),
        Err(error) => Err(Unread::Refused(EditsFault::NotUtf8 {
            at: error.valid_up_to(),
        })),
    }
}

/// The edits that this text lists.
fn edits_in_text(alloc: Global, text: &str) -> Result<Vec<Edit>, Unread>
    requires within { length text.now ≤ 4194304 }
    requires utf8 { IsUtf8 text.now }
    ensures { MatchResult result (λ edits. Lists text.now (map asked_of edits.items)) (IsUnread text.now) }
{
    match edits_of(alloc, text) {
        Ok(edits) => Ok(edits),
        Err(ListFault::BadEdit { line }) => Err(Unread::Refused(EditsFault::BadEdit { line })),
        Err(ListFault::OutOfMemory) => Err(Unread::OutOfMemory),
    }
}
