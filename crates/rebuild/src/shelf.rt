//! Modules that are kept, which are handed out where their bytes are the same.

ghost use Rattle.std.specs.Prelude.{◌≡◌, ◌++◌, ◌∷◌, ℕ, [], List, true, false, cond, map, string_bytes, IfOk, OnOk};
ghost use Rattle.std.specs.Str.{bytes_eq};
ghost use Rattle.rebuild.specs.Files.{AreReadOf, has, kept_in, with_files};
ghost use Rattle.module_loading.specs.Reading.{IfRefused, ReadsTo};

use crate::kept::Kept;
use crate::source::Source;
use module_loading::{ReadsModules, SuppliesModules, Unread};
use sqlite_items::Items;
use std::alloc::{AllocError, Global};
use std::collections::BTreeMap;

/// The modules that are kept, by the paths of their files.
pub(crate) type KeptModules<R> = BTreeMap<String, Kept<R>>;

/// The modules that are kept while a graph is loaded: one is handed out where its file has the same bytes, and else the file is read.
#[derive(Drop)]
pub(crate) struct Shelf<R: ReadsModules> {
    pub(crate) kept: KeptModules<R>,
    /// The files of the modules that are out, in order.
    pub(crate) out: Items<Source>,
    /// The paths of those among them that were read.
    pub(crate) parsed: Vec<String>,
}

impl<R: ReadsModules> Shelf<R> {
    ghost use Rattle.rebuild.specs.Shelves.{HandsOver, read_paths, shelved};

    fn has(&self, path: &str, bytes: &[u8]) -> bool
        ensures { result ≡ has (shelved self.now) path.now bytes.now }
    {
        match self.kept.get(path) {
            None => false,
            Some(kept) => kept.is(path, bytes),
        }
    }

    /// Hands out the module that is kept.
    fn hand_out(
        &mut self,
        alloc: Global,
        path: &str,
        bytes: Vec<u8>,
    ) -> Result<R::Module, AllocError>
        requires { has (shelved self.old) path.now bytes.items ≡ true }
        ensures read { IfOk result (λ made. R.reads path.now bytes.items made) }
        ensures handed { OnOk result (HandsOver self.old path.now bytes.items self.new) }
    {
        let Some(kept) = self.kept.remove(path) else {
            unreachable!()
        };
        self.out
            .push(Source::new(String::from_str(alloc, path)?, bytes))?;
        Ok(kept.into_module())
    }

    /// Reads the file, in whose place another is kept or none.
    fn read(
        &mut self,
        alloc: Global,
        path: &str,
        bytes: Vec<u8>,
    ) -> Result<R::Module, Unread<R::Fault>>
        requires { has (shelved self.old) path.now bytes.items ≡ false }
        ensures read { ReadsTo (R.reads path.now bytes.items) (R.refuses path.now bytes.items) result }
        ensures handed { OnOk result (HandsOver self.old path.now bytes.items self.new) }
        ensures refused { IfRefused result (self.new ≡ self.old) }
    {
        match R::read(alloc, path, bytes.as_slice()) {
            Ok(made) => Ok(self.handed(alloc, path, bytes, made)?),
            Err(unread) => Err(unread),
        }
    }

    fn handed(
        &mut self,
        alloc: Global,
        path: &str,
        bytes: Vec<u8>,
        made: R::Module,
    ) -> Result<R::Module, AllocError>
        requires { has (shelved self.old) path.now bytes.items ≡ false }
        ensures same { IfOk result (λ it. it ≡ made) }
        ensures handed { OnOk result (HandsOver self.old path.now bytes.items self.new) }
    {
        self.parsed.push(String::from_str(alloc, path)?)?;
        self.out
            .push(Source::new(String::from_str(alloc, path)?, bytes))?;
        let _ = self.kept.remove(path);
        Ok(made)
    }
}

impl<R: ReadsModules> SuppliesModules<R> for Shelf<R> {
    ghost use Rattle.rebuild.specs.Shelves.{HandsOver};

    ghost hands_out = { λ old path bytes new. HandsOver old path bytes new };

    fn supplied(
        &mut self,
        alloc: Global,
        path: &str,
        bytes: Vec<u8>,
    ) -> Result<R::Module, Unread<R::Fault>> {
        if self.has(path, bytes.as_slice()) {
            Ok(self.hand_out(alloc, path, bytes)?)
        } else {
            self.read(alloc, path, bytes)
        }
    }
}

/// Keeps modules with their files, each in place of what is kept at its path.
pub(crate) fn keep_all<R: ReadsModules>(
    alloc: Global,
    kept: &mut KeptModules<R>,
    sources: Items<Source>,
    modules: Items<R::Module>,
) -> Result<(), AllocError>
    requires { AreReadOf R.reads sources modules }
    ensures { OnOk result ((path : List ℕ) →
        kept_in kept.new path ≡ with_files sources (kept_in kept.old) path) }
{
    let mut sources = sources;
    let mut modules = modules;
    while let Some(source) = sources.pop() {
        let Some(made) = modules.pop() else {
            unreachable!()
        };
        keep(alloc, kept, source, made)?;
    }
    Ok(())
}

fn keep<R: ReadsModules>(
    alloc: Global,
    kept: &mut KeptModules<R>,
    source: Source,
    made: R::Module,
) -> Result<(), AllocError>
    requires { R.reads source.0 source.1 made }
    ensures { OnOk result ((path : List ℕ) →
        kept_in kept.new path ≡ with_files (source ∷ []) (kept_in kept.old) path) }
{
    let key = String::from_str(alloc, source.path())?;
    let (path, bytes) = source.into_parts();
    kept.insert(key, Kept::new(path, bytes, made))?;
    Ok(())
}
