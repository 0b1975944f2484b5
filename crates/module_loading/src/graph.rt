//! The loading of a graph.

ghost use Rattle.std.specs.Prelude.{◌≡◌, ◌+◌, ◌<◌, ◌≤◌, ℕ, [], List, Option, Some, Err, length, true, string_bytes, IfErr, IfOk, IfSome, OnOk};
ghost use Rattle.es_outside.specs.Counts.{CountRose};
ghost use Rattle.module_loading.specs.Files.{Holds, Told};
ghost use Rattle.module_loading.specs.declared.waiting.Wait.{Wait};
ghost use Rattle.module_loading.specs.Loading.{HasReadFault, IsNext, Loaded, LoadsTo};
ghost use Rattle.module_loading.specs.Requests.{renumbered, zipped};
ghost use Rattle.module_loading.specs.States.{Adds, AreWithin, Arrives, Fills, IsMissingAt, IsWithin, Shows, Steps};
ghost use Rattle.module_loading.specs.Supplying.{HandsOut, LoadsFrom};
ghost use Rattle.module_loading.specs.declared.fault.LoadFault.TheVariants.{InModule, OutOfMemory, ReadFault};

use crate::content::{Content, content_of};
use crate::fault::LoadFault;
use crate::finding::{ByFiles, FindsFiles};
use crate::following::{missing, next_of};
use crate::loading::{Loading, Next, asked_of, nothing_loaded, take};
use crate::numbers::renumbered;
use crate::reader::ReadsModules;
use crate::supply::{ReadsAnew, SuppliesModules};
use crate::unread::Unread;
use crate::waiting::Wait;
use es_outside::Files;
use shared_text::Name;
use sqlite_items::Items;
use std::alloc::{AllocError, Global};

/// The bytes that the modules of a graph may have together.
const MOST_TOGETHER: usize = 16_777_216;

/// What loading comes to: the modules that pass all checks of one module, in load order, and the first fault, if there is one. Without
/// a fault they have the numbers of the modules that they request; with one they are as they were handed out.
#[derive(Drop)]
pub struct Loads<M, F> {
    pub modules: Items<M>,
    pub ended: Result<(), LoadFault<F>>,
}

/// Loads the graph of the entry: its modules in load order, with the numbers of those that they request, or the first fault.
pub fn load<F: Files, R: ReadsModules>(
    alloc: Global,
    files: &mut F,
    entry: &str,
) -> Result<Items<R::Module>, LoadFault<R::Fault>>
    ensures loads { LoadsTo (F.files files.old) R.reads R.requests entry.now
        R.requested R.shows R.refuses result }
    ensures unchanged { F.files files.new ≡ F.files files.old }
    ensures no_fall { F.faults files.old ≤ F.faults files.new }
    ensures failed { HasReadFault result → CountRose (F.faults files.old) (F.faults files.new) }
{
    let Loads { modules, ended } = load_from::<F, ByFiles, R, ReadsAnew>(
        alloc,
        files,
        &mut ReadsAnew,
        entry,
    );
    match ended {
        Ok(()) => Ok(modules),
        Err(fault) => Err(fault),
    }
}

/// Loads the graph of the entry of the modules that a supply hands out. Where memory runs out, nothing is said of what is left.
pub fn load_from<F, W: FindsFiles<F>, R: ReadsModules, S: SuppliesModules<R>>(
    alloc: Global,
    files: &mut F,
    supply: &mut S,
    entry: &str,
) -> Loads<R::Module, R::Fault>
    ensures loads { LoadsFrom R.reads R.requests R.shows R.refuses (W.files files.old) entry.now
        R.requested S.hands_out supply.old result.modules supply.new result.ended }
    ensures unchanged { W.files files.new ≡ W.files files.old }
    ensures stays { W.stays files.old files.new }
    ensures no_fall { W.faults files.old ≤ W.faults files.new }
    ensures failed { HasReadFault result.ended →
        CountRose (W.faults files.old) (W.faults files.new) }
{
    let mut loading = nothing_loaded(alloc);
    match fill::<F, W, R, S>(alloc, files, supply, entry, &mut loading) {
        Ok(()) => numbered::<R>(alloc, loading),
        Err(fault) => stopped(loading, fault),
    }
}

fn stopped<M: Drop, F>(loading: Loading<M>, fault: LoadFault<F>) -> Loads<M, F>
    ensures modules { result.modules ≡ loading.modules }
    ensures ended { result.ended ≡ Err fault }
{
    let Loading { modules, .. } = loading;
    Loads {
        modules,
        ended: Err(fault),
    }
}

/// The modules with the numbers of those that they request, and else none.
fn numbered<R: ReadsModules>(
    alloc: Global,
    loading: Loading<R::Module>,
) -> Loads<R::Module, R::Fault>
    requires few { length loading.paths ≤ 1024 }
    requires paired { length loading.paths ≡ length loading.modules }
    ensures numbered { OnOk result.ended (result.modules
        ≡ zipped (renumbered R.requests R.requested loading.paths) loading.modules loading.paths) }
    ensures memory { IfErr result.ended (λ fault. fault ≡ OutOfMemory) }
{
    match ended::<R>(alloc, loading) {
        Ok(modules) => Loads {
            modules,
            ended: Ok(()),
        },
        Err(_) => Loads {
            modules: Items::new(alloc),
            ended: Err(LoadFault::OutOfMemory),
        },
    }
}

/// Loads all modules, the entry first.
fn fill<F, W: FindsFiles<F>, R: ReadsModules, S: SuppliesModules<R>>(
    alloc: Global,
    files: &mut F,
    supply: &mut S,
    entry: &str,
    loading: &mut Loading<R::Module>,
) -> Result<(), LoadFault<R::Fault>>
    requires { Shows {M = R.Module} [] [] loading.old }
    ensures fills { Fills R.reads R.requests R.shows R.refuses S.hands_out
        (W.files files.old) entry.now supply.old loading.new supply.new result }
    ensures unchanged { W.files files.new ≡ W.files files.old }
    ensures stays { W.stays files.old files.new }
    ensures no_fall { W.faults files.old ≤ W.faults files.new }
    ensures failed { HasReadFault result → CountRose (W.faults files.old) (W.faults files.new) }
{
    begin::<F, W, R, S>(alloc, files, supply, loading, entry)?;
    while step::<F, W, R, S>(alloc, files, supply, loading)? {}
    Ok(())
}

/// Adds the entry.
fn begin<F, W: FindsFiles<F>, R: ReadsModules, S: SuppliesModules<R>>(
    alloc: Global,
    files: &mut F,
    supply: &mut S,
    loading: &mut Loading<R::Module>,
    entry: &str,
) -> Result<(), LoadFault<R::Fault>>
    requires { Shows {M = R.Module} [] [] loading.old }
    ensures adds { Adds R.reads R.requests R.shows R.refuses S.hands_out
        (W.files files.old) entry.now supply.old loading.new supply.new result }
    ensures unchanged { W.files files.new ≡ W.files files.old }
    ensures stays { W.stays files.old files.new }
    ensures no_fall { W.faults files.old ≤ W.faults files.new }
    ensures failed { HasReadFault result → CountRose (W.faults files.old) (W.faults files.new) }
{
    let first = Next {
        path: String::from_str(alloc, entry)?,
        wait: None,
    };
    add::<F, W, R, S>(alloc, files, supply, loading, first)
}

/// Adds the module that comes next, and says whether there is one.
fn step<F, W: FindsFiles<F>, R: ReadsModules, S: SuppliesModules<R>>(
    alloc: Global,
    files: &mut F,
    supply: &mut S,
    loading: &mut Loading<R::Module>,
) -> Result<bool, LoadFault<R::Fault>>
    requires { AreWithin R.requests loading.old }
    ensures steps { (entry : List ℕ) (start : S) →
        Arrives R.reads R.requests R.shows R.refuses S.hands_out (W.files files.old) entry start
        loading.old supply.old →
        Steps R.reads R.requests R.shows R.refuses S.hands_out (W.files files.old) entry start
        loading.new supply.new result }
    ensures grows { IfOk result (λ more. more ≡ true →
        (length loading.old.modules < 1024) ×
        (length loading.new.modules ≡ length loading.old.modules + 1)) }
    ensures unchanged { W.files files.new ≡ W.files files.old }
    ensures stays { W.stays files.old files.new }
    ensures no_fall { W.faults files.old ≤ W.faults files.new }
    ensures failed { HasReadFault result → CountRose (W.faults files.old) (W.faults files.new) }
{
    match next_of::<R>(alloc, loading)? {
        None => Ok(false),
        Some(next) => {
            add::<F, W, R, S>(alloc, files, supply, loading, next)?;
            Ok(true)
        }
    }
}

/// Reads the file that comes next, and adds its module.
fn add<F, W: FindsFiles<F>, R: ReadsModules, S: SuppliesModules<R>>(
    alloc: Global,
    files: &mut F,
    supply: &mut S,
    loading: &mut Loading<R::Module>,
    next: Next,
) -> Result<(), LoadFault<R::Fault>>
    requires paired { length loading.old.paths ≡ length loading.old.modules }
    requires within { IfSome next.wait (IsWithin R.requests loading.old.modules) }
    ensures adds { (entry : List ℕ) (start : S) (modules : List (Loaded R.Module))
        (rest : List Wait) →
        IsNext (W.files files.old) R.reads R.requests entry
        modules rest next.wait (string_bytes next.path) →
        Shows modules rest loading.old → HandsOut S.hands_out start modules supply.old →
        Adds R.reads R.requests R.shows R.refuses S.hands_out (W.files files.old) entry start
        loading.new supply.new result }
    ensures grows { OnOk result (length loading.new.modules ≡ length loading.old.modules + 1) }
    ensures unchanged { W.files files.new ≡ W.files files.old }
    ensures stays { W.stays files.old files.new }
    ensures no_fall { W.faults files.old ≤ W.faults files.new }
    ensures failed { HasReadFault result → CountRose (W.faults files.old) (W.faults files.new) }
{
    let Next { path, wait } = next;
    match content_of::<F, W>(alloc, files, path.as_str()) {
        Content::Short(bytes) => add_bytes::<R, S>(alloc, supply, loading, path, bytes),
        Content::Long => Err(LoadFault::FileTooLong {
            path: name_of(alloc, &path)?,
        }),
        Content::Missing => Err(missing_at::<R>(alloc, loading, wait)?),
        Content::Failed => Err(LoadFault::ReadFault {
            path: name_of(alloc, &path)?,
        }),
        Content::OutOfMemory => Err(LoadFault::OutOfMemory),
    }
}

/// Adds the module that the supply hands out for these bytes.
fn add_bytes<R: ReadsModules, S: SuppliesModules<R>>(
    alloc: Global,
    supply: &mut S,
    loading: &mut Loading<R::Module>,
    path: String,
    bytes: Vec<u8>,
) -> Result<(), LoadFault<R::Fault>>
    requires { length bytes.items ≤ 4194304 }
    ensures adds { (told : Told) (entry : List ℕ) (start : S) (modules : List (Loaded R.Module))
        (rest : List Wait) (wait : Option Wait) →
        IsNext told R.reads R.requests entry modules rest wait (string_bytes path) →
        Holds told (string_bytes path) (Some bytes.items) → Shows modules rest loading.old →
        HandsOut S.hands_out start modules supply.old →
        Adds R.reads R.requests R.shows R.refuses S.hands_out told entry start
        loading.new supply.new result }
    ensures grows { OnOk result (length loading.new.modules ≡ length loading.old.modules + 1) }
    ensures read { HasReadFault result → ⊥ }
{
    let size = loading.size.saturating_add(bytes.len());
    if size > MOST_TOGETHER {
        return Err(LoadFault::GraphTooLong {
            path: name_of(alloc, &path)?,
        });
    }
    match supply.supplied(alloc, path.as_str(), bytes) {
        Ok(made) => Ok(take::<R>(loading, path, size, made)?),
        Err(Unread::Refused(fault)) => Err(in_module(alloc, &path, fault)?),
        Err(Unread::OutOfMemory) => Err(LoadFault::OutOfMemory),
    }
}

fn in_module<F: Drop>(alloc: Global, path: &String, fault: F) -> Result<LoadFault<F>, AllocError>
    ensures { IfOk result (λ it. it ≡ InModule (string_bytes path.now) fault) }
{
    Ok(LoadFault::InModule {
        path: name_of(alloc, path)?,
        fault,
    })
}

/// That there is no file, for the entry or for the request that names it.
fn missing_at<R: ReadsModules>(
    alloc: Global,
    loading: &Loading<R::Module>,
    wait: Option<Wait>,
) -> Result<LoadFault<R::Fault>, AllocError>
    requires paired { length loading.now.paths ≡ length loading.now.modules }
    requires within { IfSome wait (IsWithin R.requests loading.now.modules) }
    ensures told { IfOk result (λ fault.
        (modules : List (Loaded R.Module)) (waiting : List Wait) →
        Shows modules waiting loading.now → IsMissingAt R.requests R.shows modules wait fault) }
    ensures no_read { IfOk result (λ fault. (path : List ℕ) → fault ≡ ReadFault path → ⊥) }
{
    match wait {
        None => Ok(LoadFault::EntryMissing),
        Some(wait) => missing(alloc, &asked_of::<R>(loading, wait)),
    }
}

fn name_of(alloc: Global, path: &String) -> Result<Name, AllocError>
    ensures { IfOk result (λ name. name ≡ string_bytes path.now) }
{
    Name::of_bytes(alloc, path.as_bytes())
}

/// The modules with the numbers of those that they request.
fn ended<R: ReadsModules>(
    alloc: Global,
    loading: Loading<R::Module>,
) -> Result<Items<R::Module>, AllocError>
    requires few { length loading.paths ≤ 1024 }
    requires paired { length loading.paths ≡ length loading.modules }
    ensures { IfOk result (λ graph.
        graph ≡ zipped (renumbered R.requests R.requested loading.paths)
        loading.modules loading.paths) }
{
    let Loading {
        paths,
        mut modules,
        ..
    } = loading;
    let mut back = Vec::new(alloc);
    while let Some(made) = modules.pop() {
        let base = paths.path(modules.len());
        back.push(renumbered::<R>(alloc, &paths, made, base)?)?;
    }
    back.reverse();
    Ok(Items::from_vec(back))
}
