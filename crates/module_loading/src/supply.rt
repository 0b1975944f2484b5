//! What hands out the modules of a graph.

use crate::reader::ReadsModules;
use crate::unread::Unread;
use std::alloc::Global;

/// What hands out the modules of a graph as it is loaded: each is a module that the bytes of its file are read as, whether they are
/// read now or were before.
pub trait SuppliesModules<R: ReadsModules> {
    ghost use Rattle.std.specs.Prelude.{◌≡◌, ℕ, List, OnOk};
    ghost use Rattle.module_loading.specs.Reading.{IfRefused, ReadsTo};

    /// What is left of the supply once the module of this path and these bytes is handed out.
    ghost hands_out: { Self → List ℕ → List ℕ → Self → Type 0 };

    /// The module of these bytes, or their fault. Of a supply that ran out of memory nothing more is said.
    fn supplied(
        &mut self,
        alloc: Global,
        path: &str,
        bytes: Vec<u8>,
    ) -> Result<R::Module, Unread<R::Fault>>
        ensures read { ReadsTo (R.reads path.now bytes.items) (R.refuses path.now bytes.items) result }
        ensures handed { OnOk result (hands_out self.old path.now bytes.items self.new) }
        ensures refused { IfRefused result (self.new ≡ self.old) };
}

/// A supply that keeps nothing, and reads each module.
#[derive(Drop)]
pub struct ReadsAnew;

impl<R: ReadsModules> SuppliesModules<R> for ReadsAnew {
    ghost hands_out = { λ _ _ _ _. Unit {0} };

    fn supplied(
        &mut self,
        alloc: Global,
        path: &str,
        bytes: Vec<u8>,
    ) -> Result<R::Module, Unread<R::Fault>> {
        R::read(alloc, path, bytes.as_slice())
    }
}
