//! The paths of the modules that are loaded.

ghost use Rattle.std.specs.Prelude.{◌≡◌, ◌≤◌, ◌<◌, [], length, position, slice_get, string_bytes, OnOk};
ghost use Rattle.std.specs.Str.{bytes_eq};
ghost use Rattle.module_loading.specs.Requests.{is_listed, with_path};

use indexmap::IndexSet;
use std::alloc::{AllocError, Global};
use std::marker::Model;

/// Paths in load order, each once, which are found in one step.
#[derive(Drop)]
pub(crate) struct PathList {
    paths: IndexSet<String>,
}

impl Model for PathList {
    ghost use Rattle.std.specs.Prelude.{ℕ, List, map, string_bytes};
    ghost use Rattle.std.specs.Coded.{coded_ℕ, coded_list};

    ghost Value = { List (List ℕ) };

    ghost coded = { coded_list (coded_list coded_ℕ) };

    ghost view = { λ s. map (λ path. string_bytes path) s.paths.keys };
}

impl PathList {
    pub(crate) fn new(alloc: Global) -> PathList
        ensures { result ≡ [] }
    {
        PathList {
            paths: IndexSet::new(alloc),
        }
    }

    pub(crate) fn len(&self) -> usize
        ensures { result ≡ length self.now }
    {
        self.paths.len()
    }

    pub(crate) fn has(&self, path: &str) -> bool
        ensures { result ≡ is_listed path.now self.now }
    {
        self.paths.contains(path)
    }

    /// The number of the module with this path.
    pub(crate) fn number(&self, path: &str) -> Option<u32>
        requires { length self.now ≤ 1024 }
        ensures { result ≡ position (bytes_eq path.now) self.now }
    {
        match self.paths.get_index_of(path) {
            None => None,
            Some(at) => Some(at as u32),
        }
    }

    /// The path of the module with this number.
    pub(crate) fn path(&self, number: usize) -> &str
        requires { number < length self.now }
        ensures { slice_get self.now number ≡ Some result.now }
    {
        self.paths.as_slice()[number].as_str()
    }

    /// Adds a path at the end, unless it is there.
    pub(crate) fn add(&mut self, path: String) -> Result<(), AllocError>
        ensures { OnOk result (self.new ≡ with_path self.old (string_bytes path)) }
    {
        self.paths.insert(path)?;
        Ok(())
    }
}
