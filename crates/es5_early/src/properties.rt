//! The names of an object literal's properties.

ghost use Rattle.std.specs.Prelude.{◌≡◌, [], OnOk};
ghost use Rattle.es5_early.specs.Properties.{clashes_as, with_name};

use crate::names::Names;
use std::alloc::{AllocError, Global};

/// The names so far: of data and getters, and of data and setters (ECMA-262, 5.1 edition, 11.1.5).
#[derive(Drop)]
pub(crate) struct PropertyNames {
    read: Names,
    written: Names,
}

impl PropertyNames {
    pub(crate) fn new(alloc: Global) -> PropertyNames
        ensures { result ≡ record { read = []; written = [] } }
    {
        PropertyNames {
            read: Names::new(alloc),
            written: Names::new(alloc),
        }
    }

    /// Whether a name is there that stands twice then.
    pub(crate) fn clash(&self, name: &[u16], is_read: bool, is_written: bool) -> bool
        ensures { result ≡ clashes_as self.now name.now is_read is_written }
    {
        (is_read && self.read.contains(name)) || (is_written && self.written.contains(name))
    }

    pub(crate) fn insert(
        &mut self,
        name: Vec<u16>,
        is_read: bool,
        is_written: bool,
    ) -> Result<(), AllocError>
        ensures { OnOk result (self.new ≡ with_name self.old name.items is_read is_written) }
    {
        if is_read {
            self.read.push(name.clone()?)?;
        }
        if is_written {
            self.written.push(name)?;
        }
        Ok(())
    }
}
