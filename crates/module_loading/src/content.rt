//! Reading a file.

ghost use Rattle.std.specs.Prelude.{◌≡◌, ◌≤◌};
ghost use Rattle.es_outside.specs.Counts.{CountRose};
ghost use Rattle.module_loading.specs.Files.{Finds};
ghost use Rattle.module_loading.specs.declared.content.Content.TheVariants.{Failed};

use crate::finding::FindsFiles;
use es_outside::FileAnswer;
use std::alloc::Global;

/// The bytes that a module may have.
const MOST_BYTES: u32 = 4_194_304;

/// What is found at a path.
#[derive(Debug, Drop)]
pub(crate) enum Content {
    /// All bytes of a file that is no longer than a module may be.
    Short(Vec<u8>),
    Long,
    Missing,
    Failed,
    OutOfMemory,
}

pub(crate) fn content_of<F, W: FindsFiles<F>>(alloc: Global, files: &mut F, path: &str) -> Content
    ensures found { Finds (W.files files.old) path.now result }
    ensures unchanged { W.files files.new ≡ W.files files.old }
    ensures no_fall { W.faults files.old ≤ W.faults files.new }
    ensures failed { result ≡ Failed → CountRose (W.faults files.old) (W.faults files.new) }
    ensures stays { W.stays files.old files.new }
{
    match W::read(alloc, files, path, MOST_BYTES) {
        FileAnswer::Found(bytes) => {
            if bytes.len() > MOST_BYTES as usize {
                Content::Long
            } else {
                Content::Short(bytes)
            }
        }
        FileAnswer::Missing => Content::Missing,
        FileAnswer::Failed => Content::Failed,
        FileAnswer::OutOfMemory => Content::OutOfMemory,
    }
}
