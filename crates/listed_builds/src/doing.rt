//! Edits, done in order.

ghost use Rattle.std.specs.Prelude.{◌≡◌, ◌≤◌, map, IfOk, OnOk};
ghost use Rattle.es_outside.specs.Counts.{CountRose};
ghost use Rattle.edited_files.specs.EditedFiles.{base_of, edit_of};
ghost use Rattle.listed_builds.specs.Doing.{Does, IfUnread, IsUnread, Reads, ReadsAt, ReadsIn, Writes, WritesAll, build, step_of};

use crate::by_edits::ByEdits;
use crate::fault::BuildFault;
use crate::taken::Taken;
use edited_files::EditedFiles;
use es_outside::{Files, HostNames};
use module_loading::FindsFiles;
use std::alloc::Global;

/// What builds the graph of an entry again and again, and writes what it built.
pub trait BuildsAgain {
    ghost use Rattle.std.specs.Prelude.{◌≡◌, ◌≤◌, ℕ, List, Option, IfOk};
    ghost use Rattle.es_outside.specs.Counts.{CountRose};
    ghost use Rattle.module_loading.specs.Files.{Told};
    ghost use Rattle.listed_builds.specs.Doing.{IfUnread, IsUnread, Map};

    /// The bytes of each path that is kept between builds.
    ghost keeps: { Self → Map };

    /// What is written of a build of this entry, where the program has hosts of these names, of these files, by what was kept before it
    /// and is kept after it.
    ghost writes: { List ℕ → List (List ℕ) → Told → Map → Map → List ℕ → Type 0 };

    /// A build of this entry of these files reads the file at this path.
    ghost reads: { List ℕ → Told → List ℕ → Type 0 };

    fn build<F, W: FindsFiles<F>>(
        &mut self,
        alloc: Global,
        files: &mut F,
        entry: &str,
        hosts: &HostNames,
    ) -> Result<Vec<u8>, BuildFault>
        ensures writes { IfOk result (λ text. writes entry.now hosts.now (W.files files.old)
            (keeps self.old) (keeps self.new) text.items) }
        ensures reads { IfUnread result (reads entry.now (W.files files.old)) }
        ensures stays { W.stays files.old files.new }
        ensures unchanged { W.files files.new ≡ W.files files.old }
        ensures no_fall { W.faults files.old ≤ W.faults files.new }
        ensures failed { IsUnread result → CountRose (W.faults files.old) (W.faults files.new) };
}

/// Does edits in order: what the builds among them write, one behind the other. A file that can't be read ends all.
pub fn do_edits<F: Files, B: BuildsAgain>(
    alloc: Global,
    files: &mut F,
    edits: &[Taken],
    entry: &str,
    hosts: &HostNames,
    builds: &mut B,
) -> Result<Vec<u8>, BuildFault>
    ensures writes { IfOk result (λ text. WritesAll (B.writes entry.now hosts.now)
        (F.files files.old) (B.keeps builds.old) (map step_of edits.now) text.items) }
    ensures reads { IfUnread result (ReadsIn (B.reads entry.now) (F.files files.old) (map step_of edits.now)) }
    ensures unchanged { F.files files.new ≡ F.files files.old }
    ensures no_fall { F.faults files.old ≤ F.faults files.new }
    ensures failed { IsUnread result → CountRose (F.faults files.old) (F.faults files.new) }
{
    let mut edited = EditedFiles::new(alloc, files);
    let text = written(alloc, &mut edited, edits, entry, hosts, builds);
    let _lent = edited.into_base();
    text
}

/// The same over files that are lent, from the edits on that they have.
fn written<F: Files, B: BuildsAgain>(
    alloc: Global,
    edited: &mut EditedFiles<F>,
    edits: &[Taken],
    entry: &str,
    hosts: &HostNames,
    builds: &mut B,
) -> Result<Vec<u8>, BuildFault>
    ensures writes { IfOk result (λ text. Writes (B.writes entry.now hosts.now) (F.files (base_of edited.old).now)
        (map step_of edits.now) (edit_of edited.old) (B.keeps builds.old) text.items) }
    ensures reads { IfUnread result (Reads (B.reads entry.now) (F.files (base_of edited.old).now)
        (map step_of edits.now) (edit_of edited.old)) }
    ensures base { F.files (base_of edited.new).now ≡ F.files (base_of edited.old).now }
    ensures same_base { (base_of edited.new).ghost_name ≡ (base_of edited.old).ghost_name }
    ensures no_fall { F.faults (base_of edited.old).now ≤ F.faults (base_of edited.new).now }
    ensures failed { IsUnread result →
        CountRose (F.faults (base_of edited.old).now) (F.faults (base_of edited.new).now) }
{
    let mut text = Vec::new(alloc);
    for edit in edits {
        do_edit(alloc, edit, edited, entry, hosts, builds, &mut text)?;
    }
    Ok(text)
}

fn do_edit<F: Files, B: BuildsAgain>(
    alloc: Global,
    edit: &Taken,
    edited: &mut EditedFiles<F>,
    entry: &str,
    hosts: &HostNames,
    builds: &mut B,
    text: &mut Vec<u8>,
) -> Result<(), BuildFault>
    ensures does { OnOk result (Does (B.writes entry.now hosts.now) (F.files (base_of edited.old).now)
        (step_of edit.now) (edit_of edited.old) (B.keeps builds.old) text.old.items
        (edit_of edited.new) (B.keeps builds.new) text.new.items) }
    ensures reads { IfUnread result (ReadsAt (B.reads entry.now) (F.files (base_of edited.old).now)
        (step_of edit.now) (edit_of edited.old)) }
    ensures base { F.files (base_of edited.new).now ≡ F.files (base_of edited.old).now }
    ensures same_base { (base_of edited.new).ghost_name ≡ (base_of edited.old).ghost_name }
    ensures no_fall { F.faults (base_of edited.old).now ≤ F.faults (base_of edited.new).now }
    ensures failed { IsUnread result →
        CountRose (F.faults (base_of edited.old).now) (F.faults (base_of edited.new).now) }
{
    match edit {
        Taken::Put { path, bytes } => {
            let path = String::from_str(alloc, path)?;
            Ok(edited.put(path, Vec::from_slice(alloc, bytes)?)?)
        }
        Taken::Drop { path } => Ok(edited.drop_path(String::from_str(alloc, path)?)?),
        Taken::Build => build(alloc, edited, entry, hosts, builds, text),
    }
}

fn build<F: Files, B: BuildsAgain>(
    alloc: Global,
    edited: &mut EditedFiles<F>,
    entry: &str,
    hosts: &HostNames,
    builds: &mut B,
    text: &mut Vec<u8>,
) -> Result<(), BuildFault>
    ensures does { OnOk result (Does (B.writes entry.now hosts.now) (F.files (base_of edited.old).now)
        build (edit_of edited.old) (B.keeps builds.old) text.old.items
        (edit_of edited.new) (B.keeps builds.new) text.new.items) }
    ensures reads { IfUnread result (ReadsAt (B.reads entry.now) (F.files (base_of edited.old).now)
        build (edit_of edited.old)) }
    ensures base { F.files (base_of edited.new).now ≡ F.files (base_of edited.old).now }
    ensures same_base { (base_of edited.new).ghost_name ≡ (base_of edited.old).ghost_name }
    ensures no_fall { F.faults (base_of edited.old).now ≤ F.faults (base_of edited.new).now }
    ensures failed { IsUnread result →
        CountRose (F.faults (base_of edited.old).now) (F.faults (base_of edited.new).now) }
{
    let more = builds.build::<EditedFiles<F>, ByEdits>(alloc, edited, entry, hosts)?;
    Ok(text.extend_from_slice(&more)?)
}
