//! The scopes of a graph.

ghost use Rattle.std.specs.Prelude.{◌≡◌, ◌<◌, Some, [], length, min, not, slice_get, IfOk, OnOk};
ghost use Rattle.std.specs.Option.{option_copied};
ghost use Rattle.scope_analysis.specs.Answers.{AreScopes, declared_ids, end_ids, ends_in, is_captured, is_in_loop, is_unsure, own_binding, referred_ids, uncertain_sum};
ghost use Rattle.binding_tables.specs.declared.ids.BindingId.TheVariants.{Own};
ghost use Rattle.scope_analysis.specs.Ends.{named_in};
ghost use Rattle.scope_analysis.specs.Scopes.{AreAllScopes, AreScopesOf, tree_references, with_globals};

use crate::ends::{all_ends, number_of};
use crate::globals::add_globals;
use crate::tables::{ModuleScopes, module_scopes};
use binding_tables::{BindingId, NumberedNames, RefId, Table};
use es6_ast::{Graph, LoadedModule, Module};
use scope_rules::scope_tables::{Binding, resolve_marks};
use scope_walk::module_marks;
use std::alloc::{AllocError, Global};

/// What the names of a graph's modules declare and find.
#[derive(Drop)]
pub struct Scopes<'a> {
    modules: Vec<ModuleScopes<'a>>,
    ends: Vec<Table>,
}

/// The scopes of a graph. It fails where memory runs out.
pub fn resolve<'a>(alloc: Global, graph: &'a Graph) -> Result<Scopes<'a>, AllocError>
    ensures { IfOk result (λ scopes. AreScopes graph.now scopes) }
{
    let loaded = graph.modules.as_slice();
    let modules = all_scopes(alloc, loaded)?;
    let ends = all_ends(alloc, modules.as_slice(), loaded)?;
    Ok(Scopes { modules, ends })
}

/// The scopes of each module.
fn all_scopes<'a>(
    alloc: Global,
    loaded: &'a [LoadedModule],
) -> Result<Vec<ModuleScopes<'a>>, AllocError>
    ensures { IfOk result (λ modules. AreAllScopes 0 [] loaded.now modules.items) }
{
    let mut modules = Vec::new(alloc);
    let mut globals = NumberedNames::new(alloc);
    for module in loaded {
        let scopes = scopes_of(alloc, modules.len(), &module.tree, &mut globals)?;
        modules.push(scopes)?;
    }
    Ok(modules)
}

/// The scopes of the module of a number, whose names that no scope declares are added to those before it.
fn scopes_of<'a>(
    alloc: Global,
    number: usize,
    tree: &'a Module,
    globals: &mut NumberedNames<'a>,
) -> Result<ModuleScopes<'a>, AllocError>
    ensures globals { OnOk result (globals.new ≡ with_globals globals.old (tree_references tree.now)) }
    ensures scopes { IfOk result (λ s. AreScopesOf number globals.new tree.now s) }
{
    let marks = module_marks(alloc, tree)?;
    let resolved = resolve_marks(alloc, marks.as_slice())?;
    add_globals(globals, resolved.references.as_slice())?;
    module_scopes(alloc, number, globals, resolved)
}

impl<'a> Scopes<'a> {
    /// The binding that a reference finds.
    pub fn binding(&self, reference: RefId) -> BindingId
        requires { 0 < length (referred_ids self.now reference.home reference.at) }
        ensures { slice_get (referred_ids self.now reference.home reference.at) 0 ≡ Some result }
    {
        self.referred(reference)[0]
    }

    /// What the references at a place find: at most one stands there.
    pub fn referred(&self, reference: RefId) -> &[BindingId]
        ensures { result.now ≡ referred_ids self.now reference.home reference.at }
    {
        match self.modules.get(reference.home) {
            None => &[],
            Some(module) => module.referred.at(reference.at as usize),
        }
    }

    /// The bindings that the name beginning at a place of a module declares, from the outside in.
    pub fn declared(&self, home: usize, at: u32) -> &[BindingId]
        ensures { result.now ≡ declared_ids self.now home at }
    {
        match self.modules.get(home) {
            None => &[],
            Some(module) => module.declared.at(at as usize),
        }
    }

    /// Whether the binding of a reference has its value wherever the reference is evaluated.
    pub fn is_certain(&self, reference: RefId) -> bool
        ensures { result ≡ not (is_unsure self.now reference.home reference.at) }
    {
        match self.modules.get(reference.home) {
            None => true,
            Some(module) => !module.unsure.has(reference.at as usize),
        }
    }

    /// Whether a function inside the binding's scope holds a reference to it. A name that no scope declares has no scope.
    pub fn captured(&self, binding: BindingId) -> bool
        ensures { result ≡ is_captured self.now binding }
    {
        match binding {
            BindingId::Own { home, number } => self.is_captured(home, number),
            BindingId::Global { .. } | BindingId::Host { .. } => false,
        }
    }

    fn is_captured(&self, home: usize, number: usize) -> bool
        ensures { result ≡ is_captured self.now (Own home number) }
    {
        match self.modules.get(home) {
            None => false,
            Some(module) => module.captured.has(number),
        }
    }

    /// The binding of a module: its name, what declares it, and where.
    pub fn own(&self, binding: BindingId) -> Option<&Binding>
        ensures { option_copied result ≡ own_binding self.now binding }
    {
        match binding {
            BindingId::Own { home, number } => self.modules.get(home)?.names.bindings().get(number),
            BindingId::Global { .. } | BindingId::Host { .. } => None,
        }
    }

    /// The number of the binding that a module's own scope has for a name.
    pub fn number_of(&self, home: usize, name: &'a [u8]) -> Option<usize>
        ensures { result ≡ named_in name.now (slice_get self.now.modules.items home) }
    {
        number_of(self.modules.as_slice(), home, name)
    }

    /// Whether the binding's scope stands in a loop of its function, the loop's head included.
    pub fn in_loop(&self, binding: BindingId) -> bool
        ensures { result ≡ is_in_loop (own_binding self.now binding) }
    {
        match self.own(binding) {
            None => false,
            Some(binding) => binding.in_loop,
        }
    }

    /// The binding where an import ends: of a module's own scope, or of the host. None where the binding isn't an import's.
    pub fn ends(&self, binding: BindingId) -> &[BindingId]
        ensures { result.now ≡ end_ids self.now binding }
    {
        match binding {
            BindingId::Own { home, .. } => self.ends_at(home, self.own(binding)),
            BindingId::Global { .. } | BindingId::Host { .. } => &[],
        }
    }

    fn ends_at(&self, home: usize, binding: Option<&Binding>) -> &[BindingId]
        ensures { result.now ≡ ends_in (option_copied binding.entry) (slice_get self.now.ends.items home) }
    {
        let (Some(binding), Some(table)) = (binding, self.ends.get(home)) else {
            return &[];
        };
        table.at(binding.at as usize)
    }

    /// How many references may be evaluated before a binding has its value that can be without one, or the greatest number.
    pub fn uncertain(&self) -> usize
        ensures { result ≡ min (uncertain_sum self.now) usize.MAX }
    {
        let mut sum: usize = 0;
        for module in &self.modules {
            sum = sum.saturating_add(module.uncertain);
        }
        sum
    }
}
