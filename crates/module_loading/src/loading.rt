//! What is kept while a graph is loaded.

ghost use Rattle.std.specs.Prelude.{◌≡◌, ◌∷◌, ◌++◌, [], length, reverse, string_bytes, List, OnOk};
ghost use Rattle.module_loading.specs.declared.waiting.Wait.{Wait};
ghost use Rattle.module_loading.specs.Loading.{Loaded};
ghost use Rattle.module_loading.specs.Requests.{waits, with_path};
ghost use Rattle.module_loading.specs.States.{IsAsked, IsWithin, Shows};

use crate::path_list::PathList;
use crate::reader::ReadsModules;
use crate::waiting::{Wait, wait_for};
use es_text::Place;
use es6_ast::Request;
use sqlite_items::Items;
use std::alloc::{AllocError, Global};

/// The modules in load order with their paths, how many bytes they have together, and the requests that wait, of which the last one
/// comes first.
#[derive(Drop)]
pub(crate) struct Loading<M> {
    pub(crate) paths: PathList,
    pub(crate) modules: Items<M>,
    pub(crate) size: usize,
    pub(crate) waiting: Items<Wait>,
}

/// The path of the module that is read next, and the request that names it, unless it is the entry.
#[derive(Drop)]
pub(crate) struct Next {
    pub(crate) path: String,
    pub(crate) wait: Option<Wait>,
}

/// A request, the path of its module, and its place there.
#[derive(Clone, Copy)]
pub(crate) struct Asked<'a> {
    pub(crate) base: &'a str,
    pub(crate) request: &'a Request,
    pub(crate) place: Place,
}

pub(crate) fn nothing_loaded<M>(alloc: Global) -> Loading<M>
    ensures { Shows {M = M} [] [] result }
{
    Loading {
        paths: PathList::new(alloc),
        modules: Items::new(alloc),
        size: 0,
        waiting: Items::new(alloc),
    }
}

/// What is asked by a request that waits.
pub(crate) fn asked_of<'a, R: ReadsModules>(
    loading: &'a Loading<R::Module>,
    wait: Wait,
) -> Asked<'a>
    requires paired { length loading.now.paths ≡ length loading.now.modules }
    requires within { IsWithin R.requests loading.now.modules wait }
    ensures { (modules : List (Loaded R.Module)) (waiting : List Wait) →
        Shows modules waiting loading.now →
        IsAsked R.requests R.shows modules wait result.base.now result.request.now result.place }
{
    let importer = &loading.modules.as_slice()[wait.importer];
    let request = &R::requests(importer)[wait.index];
    Asked {
        base: loading.paths.path(wait.importer),
        request,
        place: R::place(importer, request.at),
    }
}

/// Adds a module, whose requests come first then.
pub(crate) fn take<R: ReadsModules>(
    loading: &mut Loading<R::Module>,
    path: String,
    size: usize,
    made: R::Module,
) -> Result<(), AllocError>
    ensures paths { OnOk result (loading.new.paths ≡
        with_path loading.old.paths (string_bytes path)) }
    ensures modules { OnOk result (loading.new.modules ≡ loading.old.modules ++ made ∷ []) }
    ensures size { OnOk result (loading.new.size ≡ size) }
    ensures waiting { OnOk result (reverse loading.new.waiting ≡
        waits (length loading.old.modules) (length (R.requests made)) ++
        reverse loading.old.waiting) }
{
    let importer = loading.modules.len();
    let count = R::requests(&made).len();
    loading.paths.add(path)?;
    loading.modules.push(made)?;
    loading.size = size;
    wait_for(&mut loading.waiting, importer, count)
}
