//! The text of a script with its map.

ghost use Rattle.std.specs.Prelude.{◌≡◌, true, IfOk};
ghost use Rattle.es5_printable.specs.Printable.{is_printable};
ghost use Rattle.es5_printer.specs.Layout.{text_of};
ghost use Rattle.script_maps.specs.Mapped.{IsMapped};

use es5_ast::Script;
use es5_printable::is_printable;
use es5_printer::write5;
use es6_ast::LoadedModule;
use script_maps::with_map;
use std::alloc::{AllocError, Global};

/// The text of a script, if it is one of the grammar.
fn text_with_map(
    alloc: Global,
    modules: &[LoadedModule],
    script: &Script,
) -> Result<Vec<u8>, AllocError>
    ensures { IfOk result (λ bytes. IsMapped modules.now (text_of script.now.statements).marks (text_of script.now.statements).bytes bytes.items) }
{
    let (text, marks) = write5(alloc, script)?;
    with_map(alloc, text, modules, marks.as_slice())
}

/// The text of a script with the line of its map. That a script which is emitted is always one of the grammar isn't proved; where
/// it weren't, this would fail as if memory were wanting.
pub(crate) fn written(
    alloc: Global,
    modules: &[LoadedModule],
    script: &Script,
) -> Result<Vec<u8>, AllocError>
    ensures printable { IfOk result (λ bytes. is_printable script.now ≡ true) }
    ensures mapped { IfOk result (λ bytes. IsMapped modules.now (text_of script.now.statements).marks (text_of script.now.statements).bytes bytes.items) }
{
    if !is_printable(alloc, script)? {
        return Err(AllocError);
    }
    text_with_map(alloc, modules, script)
}
