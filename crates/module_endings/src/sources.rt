//! Where one goes on from the names that a module exports.

ghost use Rattle.std.specs.Prelude.{◌≡◌, List, ℕ, IfOk};
ghost use Rattle.std.specs.Option.{option_copied};
ghost use Rattle.module_endings.specs.Ends.{first_source};
ghost use Rattle.module_endings.specs.Indexes.{Indexes};

use crate::place::Place;
use crate::summary::Export;
use std::alloc::{AllocError, Global};
use std::collections::HashMap;

/// The sources of exported names, looked up by hash. Of exports with one name the first counts.
#[derive(Drop)]
pub struct Sources<'a> {
    pub(crate) index: HashMap<&'a [u8], &'a Place>,
}

impl<'a> Sources<'a> {
    /// The sources of these exports.
    pub fn of(alloc: Global, exports: &'a [Export]) -> Result<Sources<'a>, AllocError>
        ensures { IfOk result (λ sources. Indexes sources exports.now) }
    {
        let mut sources = Sources {
            index: HashMap::new(alloc),
        };
        let mut left = exports.len();
        while left > 0 {
            left -= 1;
            let export = &exports[left];
            sources.index.insert(export.name.bytes(), &export.source)?;
        }
        Ok(sources)
    }

    /// The source of the first export of this name.
    pub fn first(&self, name: &[u8]) -> Option<&'a Place>
        ensures { (exports : List Export) → Indexes self.now exports → option_copied result ≡ first_source exports name.now }
    {
        self.index.get(name).copied()
    }
}
