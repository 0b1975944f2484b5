//! The edits that are read so far.

ghost use Rattle.std.specs.Prelude.{◌≡◌, ◌<◌, ◌+◌, ◌++◌, ◌∷◌, [], Some, false, map, length, OnOk};
ghost use Rattle.edit_list.specs.Edits.{added, asked_of, build, edit_of, is_build, words};
ghost use Rattle.edit_list.specs.Reading.{IsAdded};
ghost use Rattle.edit_list.specs.Building.{builds_of};

use crate::edit::{Edit, edit_of};
use crate::fault::ListFault;
use std::alloc::{AllocError, Global};

/// The builds that a list may have.
const MOST_BUILDS: usize = 100;

/// The edits of the lines so far, one for each, and how many of them are builds.
#[derive(Drop)]
pub(crate) struct Reading {
    pub(crate) edits: Vec<Edit>,
    builds: usize,
    ghost counted: { builds ≡ builds_of edits.items },
}

impl Reading {
    pub(crate) fn new(alloc: Global) -> Reading
        ensures { result.edits.items ≡ [] }
    {
        Reading {
            edits: Vec::new(alloc),
            builds: 0,
        }
    }

    /// Adds the edit that the next line says.
    pub(crate) fn add(&mut self, alloc: Global, line: &str) -> Result<(), ListFault>
        ensures { IsAdded (added (map asked_of self.old.edits.items) (edit_of (words line.now)))
            self.new.edits.items result }
    {
        match edit_of(alloc, line)? {
            None => Err(self.bad_line()),
            Some(Edit::Build) => self.add_build(),
            Some(Edit::Put { path, from }) => Ok(self.keep(Edit::Put { path, from })?),
            Some(Edit::Drop { path }) => Ok(self.keep(Edit::Drop { path })?),
        }
    }

    fn add_build(&mut self) -> Result<(), ListFault>
        ensures { IsAdded (added (map asked_of self.old.edits.items) (Some build))
            self.new.edits.items result }
    {
        if self.builds >= MOST_BUILDS {
            return Err(self.bad_line());
        }
        Ok(self.keep_build()?)
    }

    fn keep_build(&mut self) -> Result<(), AllocError>
        requires { self.old.builds < 100 }
        ensures { OnOk result (self.new.edits.items ≡ self.old.edits.items ++ Edit.Build ∷ []) }
    {
        self.edits.push(Edit::Build)?;
        self.builds += 1;
        Ok(())
    }

    /// Keeps an edit that is no build.
    fn keep(&mut self, edit: Edit) -> Result<(), AllocError>
        requires { is_build (asked_of edit) ≡ false }
        ensures { OnOk result (self.new.edits.items ≡ self.old.edits.items ++ edit ∷ []) }
    {
        self.edits.push(edit)?;
        Ok(())
    }

    /// That the line behind those which are read says no edit that may stand there.
    fn bad_line(&self) -> ListFault
        ensures { result ≡ ListFault.BadEdit (length self.now.edits.items + 1) }
    {
        ListFault::BadEdit {
            line: self.edits.len() + 1,
        }
    }
}
