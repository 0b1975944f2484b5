//! The parts of modules (ECMA-262, 6th edition, 15.2).

ghost use Rattle.std.specs.Prelude.{◌≡◌, nat_eq};
ghost use Rattle.indexmap.specs.IndexSet.{contains};
ghost use Rattle.lower_modules.specs.Parts.{numbered_by, parts_by, parts_made};
ghost use Rattle.lower_walk.specs.Handed.{done_at, HasExpressions, HasFunctions, HasStatements, LowersAs, WalksExpressions, WalksFunctions, WalksStatements};
ghost use Rattle.module_lowering.specs.Lowering.{each, Lowers};
ghost use Rattle.module_lowering.specs.Modules.{in_module, module_listed, module_part, module_parts};

use crate::frames::{enter, leave};
use crate::scope::{Exporting, declarations_of, module_scope};
use crate::statements::lower_items;
use crate::walkers::Walkers;
use core_ast::{CorePart, CoreStat, FunctionId};
use es6_ast::{Expression, Function, LoadedModule, Module, Statement};
use indexmap::IndexSet;
use lower_bodies::lower_part;
use lower_walk::lower_names::{Bindings, behind};
use lower_walk::{Around, Here};
use lowering_rules::reference_rules::Reached;
use lowering_rules::statement_rules::ModuleScope;
use module_lowering::{Context, FunctionForm, Lowerer, NamespaceEntries, ThisKind};
use sqlite_items::Items;
use std::alloc::{AllocError, Global};

/// The scope of a module, and its statements.
#[derive(Drop)]
struct ModuleParts {
    scope: ModuleScope,
    statements: Items<CoreStat>,
}

#[tactic(auto, using(crate::proofs::Laws::parts_of))]
fn module_parts<
    E: Fn(Around, &Expression, &mut Lowerer) -> Result<Reached, AllocError>,
    P,
    S: Fn(Around, &Statement, &mut Lowerer) -> Result<Items<CoreStat>, AllocError>,
    F: Fn(Around, &Function, FunctionForm, &mut Lowerer) -> Result<FunctionId, AllocError>,
>(
    here: &Here<'_, E, P, S, F>,
    exporting: Exporting,
    tree: &Module,
    state: &mut Lowerer,
) -> Result<ModuleParts, AllocError>
    requires expressions { HasExpressions E.pre E.post here.now }
    requires statements { HasStatements S.pre S.post here.now }
    requires functions { HasFunctions F.pre F.post here.now }
    ensures { LowersAs parts_made (done_at here.now.around (module_parts exporting.entry.is_wanted exporting.entry.var exporting.entry.entries.now (module_listed tree.now)) state.old) result state.new }
{
    let items = tree.items.as_slice();
    let declared = declarations_of(here.around.alloc, items)?;
    let scope = module_scope(here, exporting, &declared, state)?;
    let statements = lower_items(here, items, state)?;
    Ok(ModuleParts { scope, statements })
}

/// The part of a module, whose code has temporaries of its own.
fn module_part<
    E: Fn(Around, &Expression, &mut Lowerer) -> Result<Reached, AllocError>,
    P,
    S: Fn(Around, &Statement, &mut Lowerer) -> Result<Items<CoreStat>, AllocError>,
    F: Fn(Around, &Function, FunctionForm, &mut Lowerer) -> Result<FunctionId, AllocError>,
>(
    here: &Here<'_, E, P, S, F>,
    is_entry: bool,
    exporting: Exporting,
    tree: &Module,
    state: &mut Lowerer,
) -> Result<CorePart, AllocError>
    requires expressions { HasExpressions E.pre E.post here.now }
    requires statements { HasStatements S.pre S.post here.now }
    requires functions { HasFunctions F.pre F.post here.now }
    ensures { Lowers (done_at here.now.around (module_part is_entry exporting.entry.is_wanted exporting.entry.var exporting.entry.entries.now (module_listed tree.now)) state.old) result state.new }
{
    let alloc = here.around.alloc;
    let outer = enter(alloc, state);
    let ModuleParts { scope, statements } = module_parts(here, exporting, tree, state)?;
    let locals = leave(outer, state);
    lower_part(alloc, is_entry, scope, statements, locals.as_slice())
}

/// In the module of a number, and in nothing else.
fn in_module(alloc: Global, home: u32) -> Context
    ensures { result ≡ in_module home }
{
    Context {
        home,
        this: ThisKind::OfModule,
        heads: Items::new(alloc),
        dead: Items::new(alloc),
        targets: Items::new(alloc),
    }
}

/// What all parts of a graph ask for: the walkers, what names stand for, the modules whose namespaces are imported, and how many
/// bindings there are.
pub(crate) struct Lowering<'a, E, P, S, F> {
    pub(crate) alloc: Global,
    pub(crate) walkers: Walkers<'a, E, P, S, F>,
    pub(crate) bindings: &'a Bindings<'a>,
    pub(crate) wanted: &'a IndexSet<u32>,
    pub(crate) count: u32,
}

impl<E, P, S, F> Clone for Lowering<'_, E, P, S, F> {
    fn clone(&self) -> Result<Self, AllocError> {
        Ok(*self)
    }
}

impl<E, P, S, F> Copy for Lowering<'_, E, P, S, F> {}

impl<
    E: Fn(Around, &Expression, &mut Lowerer) -> Result<Reached, AllocError>,
    P,
    S: Fn(Around, &Statement, &mut Lowerer) -> Result<Items<CoreStat>, AllocError>,
    F: Fn(Around, &Function, FunctionForm, &mut Lowerer) -> Result<FunctionId, AllocError>,
> Lowering<'_, E, P, S, F> {
    /// The part of the module of a number, whose namespace object has these names.
    fn part(
        &self,
        home: u32,
        loaded: &LoadedModule,
        names: &NamespaceEntries,
        state: &mut Lowerer,
    ) -> Result<CorePart, AllocError>
        requires expressions { WalksExpressions self.now.walkers.room (E.pre self.now.walkers.expression.now) (E.post self.now.walkers.expression.now) }
        requires statements { WalksStatements self.now.walkers.room (S.pre self.now.walkers.statement.now) (S.post self.now.walkers.statement.now) }
        requires functions { WalksFunctions self.now.walkers.room (F.pre self.now.walkers.function.now) (F.post self.now.walkers.function.now) }
        ensures { Lowers (numbered_by (contains nat_eq self.now.wanted.now) self.now.count home loaded.now names.now self.now.bindings.now (in_module 0) state.old) result state.new }
    {
        let context = in_module(self.alloc, home);
        let around = Around {
            room: self.walkers.room,
            alloc: self.alloc,
            bindings: self.bindings,
            context: &context,
        };
        let here = Here {
            around,
            expression: self.walkers.expression,
            pattern: self.walkers.pattern,
            statement: self.walkers.statement,
            function: self.walkers.function,
        };
        let exporting = Exporting {
            is_wanted: self.wanted.contains(&home),
            var: behind(self.count, home as usize)?,
            entries: names.entries.as_slice(),
        };
        module_part(&here, home == 0, exporting, &loaded.tree, state)
    }

    /// The parts of modules whose namespace objects have these names.
    #[tactic(auto, using(crate::proofs::Laws::parts_none))]
    pub(crate) fn parts(
        &self,
        modules: &[LoadedModule],
        namespaces: &[NamespaceEntries],
        state: &mut Lowerer,
    ) -> Result<Items<CorePart>, AllocError>
        requires expressions { WalksExpressions self.now.walkers.room (E.pre self.now.walkers.expression.now) (E.post self.now.walkers.expression.now) }
        requires statements { WalksStatements self.now.walkers.room (S.pre self.now.walkers.statement.now) (S.post self.now.walkers.statement.now) }
        requires functions { WalksFunctions self.now.walkers.room (F.pre self.now.walkers.function.now) (F.post self.now.walkers.function.now) }
        ensures { Lowers (each (parts_by (contains nat_eq self.now.wanted.now) self.now.count 0 modules.now namespaces.now) self.now.bindings.now (in_module 0) state.old) result state.new }
    {
        let mut made = Items::new(self.alloc);
        let mut home: u32 = 0;
        let mut rest = namespaces;
        for loaded in modules {
            let Some((names, more)) = rest.split_first() else {
                return Ok(made);
            };
            made.push(self.part(home, loaded, names, state)?)?;
            let Some(next) = home.checked_add(1) else {
                return Err(AllocError);
            };
            home = next;
            rest = more;
        }
        Ok(made)
    }
}
