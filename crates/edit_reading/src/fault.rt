//! Why the edits of a list aren't done.

ghost use Rattle.std.specs.Prelude.{◌≡◌};
ghost use Rattle.edit_reading.specs.Lines.{is_limit, is_read_fault};

use shared_text::Name;
use std::alloc::AllocError;

/// What is wrong with a list of edits, or with a file that its edits need.
#[derive(Debug, Drop)]
pub enum EditsFault {
    /// No file has the path of the list.
    Missing,
    /// The list couldn't be read.
    ReadFailed,
    /// The list is longer than one may be.
    FileTooLong,
    /// The list isn't UTF-8 from this byte on.
    NotUtf8 { at: usize },
    /// The line with this number, from 1, says no edit, or is one build too many.
    BadEdit { line: usize },
    /// No file has the path from which the edit of this line, from 1, puts one.
    MissingFile { line: usize, from: Name },
    /// The file with this path couldn't be read.
    UnreadFile { path: Name },
}

/// Why the edits of a list aren't read.
#[derive(Debug, Drop)]
pub enum Unread {
    Refused(EditsFault),
    OutOfMemory,
}

impl From<AllocError> for Unread {
    ghost use Rattle.edit_reading.specs.declared.fault.Unread.TheVariants.{OutOfMemory};

    ghost from_gives = { λ _ fault. fault ≡ OutOfMemory };

    fn from(_error: AllocError) -> Unread {
        Unread::OutOfMemory
    }
}

impl EditsFault {
    /// Whether the list is beyond a limit.
    pub fn is_limit(&self) -> bool
        ensures { result ≡ is_limit self.now }
    {
        matches!(self, EditsFault::FileTooLong)
    }

    /// Whether a read failed.
    pub fn is_read_fault(&self) -> bool
        ensures { result ≡ is_read_fault self.now }
    {
        matches!(self, EditsFault::ReadFailed | EditsFault::UnreadFile { .. })
    }
}
