//! Following the requests that wait.

ghost use Rattle.std.specs.Prelude.{◌≡◌, ◌<◌, ◌∷◌, ℕ, List, Option, length, string_bytes, IfOk, IfSome};
ghost use Rattle.module_loading.specs.Files.{Told};
ghost use Rattle.module_loading.specs.Requests.{Names};
ghost use Rattle.module_loading.specs.declared.waiting.Wait.{Wait};
ghost use Rattle.module_loading.specs.Loading.{Comes, HasReadFault, Loaded};
ghost use Rattle.module_loading.specs.States.{AreWithin, Follows, IsWithin, Picks, Reaches, Shows};
ghost use Rattle.module_loading.specs.declared.fault.LoadFault.TheVariants.{BadSpecifier, Missing, TooManyModules};

use crate::fault::LoadFault;
use crate::loading::{Asked, Loading, Next, asked_of};
use crate::numbers::is_host;
use crate::path_list::PathList;
use crate::reader::ReadsModules;
use crate::waiting::Wait;
use module_paths::{PathFault, normal_path};
use shared_text::Name;
use std::alloc::{AllocError, Global};

/// The modules that a graph may have.
const MOST_MODULES: usize = 1024;

/// Follows the requests that wait, up to one that names a module which isn't loaded.
pub(crate) fn next_of<R: ReadsModules>(
    alloc: Global,
    loading: &mut Loading<R::Module>,
) -> Result<Option<Next>, LoadFault<R::Fault>>
    requires { AreWithin R.requests loading.old }
    ensures reaches { (told : Told) (entry : List ℕ) (modules : List (Loaded R.Module))
        (waiting : List Wait) → Comes told R.reads R.requests entry modules waiting →
        Shows modules waiting loading.old →
        Reaches R.reads R.requests R.shows R.refuses told entry modules loading.new result }
    ensures modules { loading.new.modules ≡ loading.old.modules }
    ensures paired { length loading.new.paths ≡ length loading.new.modules }
    ensures room { IfOk result (λ next. IfSome next (λ _. length loading.new.modules < 1024)) }
    ensures within { IfOk result (λ next. IfSome next (λ it.
        IfSome it.wait (IsWithin R.requests loading.new.modules))) }
    ensures no_read { HasReadFault result → ⊥ }
{
    while let Some(wait) = loading.waiting.pop() {
        if let Some(path) = follow::<R>(alloc, loading, wait)? {
            return Ok(Some(Next {
                path,
                wait: Some(wait),
            }));
        }
    }
    Ok(None)
}

/// Follows a request: to a module, unless that is loaded.
fn follow<R: ReadsModules>(
    alloc: Global,
    loading: &Loading<R::Module>,
    wait: Wait,
) -> Result<Option<String>, LoadFault<R::Fault>>
    requires paired { length loading.now.paths ≡ length loading.now.modules }
    requires within { IsWithin R.requests loading.now.modules wait }
    ensures follows { (told : Told) (entry : List ℕ) (modules : List (Loaded R.Module))
        (rest : List Wait) → Comes told R.reads R.requests entry modules (wait ∷ rest) →
        Shows modules rest loading.now →
        Follows R.reads R.requests R.shows R.refuses told entry modules wait rest result }
    ensures room { IfOk result (λ path. IfSome path (λ _. length loading.now.paths < 1024)) }
    ensures no_read { HasReadFault result → ⊥ }
{
    let asked = asked_of::<R>(loading, wait);
    picked(alloc, &loading.paths, &asked)
}

/// The path that a request names, unless its module is loaded or it is the host's.
fn picked<F>(alloc: Global, paths: &PathList, asked: &Asked) -> Result<Option<String>, LoadFault<F>>
    ensures { Picks paths.now asked.now.base.now asked.now.place asked.now.request.now result }
{
    if is_host(asked.request) {
        return Ok(None);
    }
    match normal_path(alloc, asked.base, asked.request.specifier.units()) {
        Ok(path) => unless_loaded(alloc, paths, asked, path),
        Err(PathFault::BadSpecifier) => Err(bad(alloc, asked)?),
        Err(PathFault::OutOfMemory) => Err(LoadFault::OutOfMemory),
    }
}

fn unless_loaded<F>(
    alloc: Global,
    paths: &PathList,
    asked: &Asked,
    path: String,
) -> Result<Option<String>, LoadFault<F>>
    requires { Names asked.now.base.now asked.now.request.now (string_bytes path) }
    ensures { Picks paths.now asked.now.base.now asked.now.place asked.now.request.now result }
{
    if paths.has(path.as_str()) {
        return Ok(None);
    }
    if paths.len() >= MOST_MODULES {
        return Err(one_too_many(alloc, asked)?);
    }
    Ok(Some(path))
}

fn bad<F>(alloc: Global, asked: &Asked) -> Result<LoadFault<F>, AllocError>
    ensures { IfOk result (λ fault.
        fault ≡ BadSpecifier asked.now.base.now asked.now.place asked.now.request.now.specifier) }
{
    Ok(LoadFault::BadSpecifier {
        path: Name::of_bytes(alloc, asked.base.as_bytes())?,
        place: asked.place,
        specifier: asked.request.specifier.copy(alloc)?,
    })
}

fn one_too_many<F>(alloc: Global, asked: &Asked) -> Result<LoadFault<F>, AllocError>
    ensures { IfOk result (λ fault. fault ≡ TooManyModules asked.now.base.now asked.now.place) }
{
    Ok(LoadFault::TooManyModules {
        path: Name::of_bytes(alloc, asked.base.as_bytes())?,
        place: asked.place,
    })
}

pub(crate) fn missing<F>(alloc: Global, asked: &Asked) -> Result<LoadFault<F>, AllocError>
    ensures { IfOk result (λ fault.
        fault ≡ Missing asked.now.base.now asked.now.place asked.now.request.now.specifier) }
{
    Ok(LoadFault::Missing {
        path: Name::of_bytes(alloc, asked.base.as_bytes())?,
        place: asked.place,
        specifier: asked.request.specifier.copy(alloc)?,
    })
}
