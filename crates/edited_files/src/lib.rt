//! Files that are lent, with edits: what was put at a path, or that nothing stands there any more.
#![tactic(auto)]

mod edited_files;

pub use crate::edited_files::EditedFiles;
