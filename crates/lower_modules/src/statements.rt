//! The statements of a module (ECMA-262, 6th edition, 15.2.1.20 and 15.2.3.11).

ghost use Rattle.std.specs.Prelude.{◌≡◌, map};
ghost use Rattle.lower_walk.specs.Handed.{done_at, HasExpressions, HasFunctions, HasStatements};
ghost use Rattle.module_lowering.specs.Lowered.{class_lowered, expression_lowered};
ghost use Rattle.module_lowering.specs.Lowering.{all_by, Lowers};
ghost use Rattle.module_lowering.specs.Modules.{default_class, default_listed, item_listed, value_exported};

use crate::listed::place_or;
use core_ast::{CoreStat, FunctionId};
use es6_ast::{Class, DefaultExport, Expression, Function, Item, Statement};
use lower_bodies::lower_default;
use lower_flow::lower_class_at;
use lower_parts::alone;
use lower_walk::{Around, Here};
use lowering_rules::reference_rules::Reached;
use module_lowering::{FunctionForm, Lowerer};
use sqlite_items::Items;
use std::alloc::AllocError;

/// `export default` of a value.
fn lower_exported_value<
    E: Fn(Around, &Expression, &mut Lowerer) -> Result<Reached, AllocError>,
    P,
    S,
    F,
>(
    here: &Here<'_, E, P, S, F>,
    at: u32,
    value: &Expression,
    state: &mut Lowerer,
) -> Result<Items<CoreStat>, AllocError>
    requires expressions { HasExpressions E.pre E.post here.now }
    ensures { Lowers (done_at here.now.around (value_exported at (expression_lowered value.now)) state.old) result state.new }
{
    let around = here.around;
    let value = here.value(value, state)?;
    let var = around.bindings.declared_var(around.context, at)?;
    alone(around.alloc, lower_default(around.alloc, var, value)?)
}

/// `export default` of a class.
#[tactic(auto, using(lower_walk::proofs::Layers::class_out))]
fn lower_exported_class<
    E: Fn(Around, &Expression, &mut Lowerer) -> Result<Reached, AllocError>,
    P,
    S,
    F: Fn(Around, &Function, FunctionForm, &mut Lowerer) -> Result<FunctionId, AllocError>,
>(
    here: &Here<'_, E, P, S, F>,
    at: u32,
    class: &Class,
    state: &mut Lowerer,
) -> Result<Items<CoreStat>, AllocError>
    requires expressions { HasExpressions E.pre E.post here.now }
    requires functions { HasFunctions F.pre F.post here.now }
    ensures { Lowers (done_at here.now.around (default_class at (class_lowered class.now)).statements state.old) result state.new }
{
    lower_class_at(here, place_or(at, &class.name), class, state)
}

fn lower_exported<
    E: Fn(Around, &Expression, &mut Lowerer) -> Result<Reached, AllocError>,
    P,
    S,
    F: Fn(Around, &Function, FunctionForm, &mut Lowerer) -> Result<FunctionId, AllocError>,
>(
    here: &Here<'_, E, P, S, F>,
    at: u32,
    value: &DefaultExport,
    state: &mut Lowerer,
) -> Result<Items<CoreStat>, AllocError>
    requires expressions { HasExpressions E.pre E.post here.now }
    requires functions { HasFunctions F.pre F.post here.now }
    ensures { Lowers (done_at here.now.around (default_listed at value.now).statements state.old) result state.new }
{
    match value {
        DefaultExport::DefaultFunction(_) => Ok(Items::new(here.around.alloc)),
        DefaultExport::DefaultClass(class) => lower_exported_class(here, at, class.get(), state),
        DefaultExport::DefaultValue(value) => lower_exported_value(here, at, value, state),
    }
}

fn lower_item<
    E: Fn(Around, &Expression, &mut Lowerer) -> Result<Reached, AllocError>,
    P,
    S: Fn(Around, &Statement, &mut Lowerer) -> Result<Items<CoreStat>, AllocError>,
    F: Fn(Around, &Function, FunctionForm, &mut Lowerer) -> Result<FunctionId, AllocError>,
>(
    here: &Here<'_, E, P, S, F>,
    item: &Item,
    state: &mut Lowerer,
) -> Result<Items<CoreStat>, AllocError>
    requires expressions { HasExpressions E.pre E.post here.now }
    requires statements { HasStatements S.pre S.post here.now }
    requires functions { HasFunctions F.pre F.post here.now }
    ensures { Lowers (done_at here.now.around (item_listed item.now).statements state.old) result state.new }
{
    match item {
        Item::ExportDeclaration { declaration, .. } => here.under(declaration, state),
        Item::ExportDefault { word, value, .. } => lower_exported(here, word.begin, value, state),
        Item::Statement(statement) => here.under(statement, state),
        _ => Ok(Items::new(here.around.alloc)),
    }
}

/// What the statements of a module become.
pub(crate) fn lower_items<
    E: Fn(Around, &Expression, &mut Lowerer) -> Result<Reached, AllocError>,
    P,
    S: Fn(Around, &Statement, &mut Lowerer) -> Result<Items<CoreStat>, AllocError>,
    F: Fn(Around, &Function, FunctionForm, &mut Lowerer) -> Result<FunctionId, AllocError>,
>(
    here: &Here<'_, E, P, S, F>,
    items: &[Item],
    state: &mut Lowerer,
) -> Result<Items<CoreStat>, AllocError>
    requires expressions { HasExpressions E.pre E.post here.now }
    requires statements { HasStatements S.pre S.post here.now }
    requires functions { HasFunctions F.pre F.post here.now }
    ensures { Lowers (done_at here.now.around (all_by (λ l. l.statements) (map item_listed items.now)) state.old) result state.new }
{
    let mut made = Items::new(here.around.alloc);
    for item in items {
        made.append(lower_item(here, item, state)?)?;
    }
    Ok(made)
}
