//! Bindings and their variables.

ghost use Rattle.std.specs.Prelude.{◌≡◌, ◌+◌, get_or, slice_get, IfOk};
ghost use Rattle.std.specs.Option.{option_copied};
ghost use Rattle.core_ast.specs.declared.parts.Var.{Var};
ghost use Rattle.module_lowering.specs.declared.meaning.Meaning.TheVariants.{Itself};
ghost use Rattle.module_lowering.specs.Bindings.{first_id, id_var, is_place_of, last_id, meaning, own_var, scoped_id, scoped_of, var_of};
ghost use Rattle.scope_analysis.specs.Ends.{named_in};
ghost use Rattle.scope_analysis.specs.Answers.{declared_ids, is_unsure, own_binding, referred_ids};

use crate::lower_names::kinds::is_mutable;
use core_ast::{ScopedName, Var};
use module_lowering::{Context, Meaning};
use scope_analysis::{BindingId, RefId, Scopes};
use scope_rules::scope_tables::Binding;
use sqlite_items::{Items, at};
use std::alloc::AllocError;
use std::marker::Model;

/// What names stand for: the scopes, of each module the variable of its first binding, and of each of these variables what the
/// binding stands for.
#[derive(Drop)]
pub struct Bindings<'a> {
    scopes: &'a Scopes<'a>,
    offsets: Items<u32>,
    meanings: Items<Meaning>,
}

impl<'a> Model for Bindings<'a> {
    ghost use Rattle.module_lowering.specs.declared.meaning.Meaning.TheVariants.{Itself};
    ghost use Rattle.module_lowering.specs.Bindings.{Bindings as Named};

    ghost Value = { Named };

    ghost view = { λ b. record { scopes = b.scopes.now; offsets = b.offsets; meanings = b.meanings } };
}

/// The variable that is so many places behind another.
pub fn behind(first: u32, number: usize) -> Result<Var, AllocError>
    ensures { IfOk result (λ x. x ≡ record { 0 = first + number }) }
{
    let Ok(number) = u32::try_from(number) else {
        return Err(AllocError);
    };
    let Some(place) = first.checked_add(number) else {
        return Err(AllocError);
    };
    Ok(Var(place))
}

/// The variable of the first binding of a module, in a list of these.
pub fn offset_at(offsets: &[u32], home: usize) -> u32
    ensures { result ≡ get_or offsets.now home 0 }
{
    match at(offsets, home) {
        None => 0,
        Some(offset) => *offset,
    }
}

fn meaning_at(meanings: &[Meaning], var: usize) -> Meaning
    ensures { result ≡ get_or meanings.now var Itself }
{
    match at(meanings, var) {
        None => Meaning::Itself,
        Some(meaning) => *meaning,
    }
}

/// The first that there is.
pub fn first_id(ids: &[BindingId]) -> Option<BindingId>
    ensures { result ≡ first_id ids.now }
{
    ids.first().copied()
}

#[tactic(auto, using(crate::proofs::lower_names::Ids::last_read))]
fn last_id(ids: &[BindingId]) -> Option<BindingId>
    ensures { result ≡ last_id ids.now }
{
    ids.last().copied()
}

/// Whether the binding is declared first at this place.
pub(crate) fn is_place_of(at: u32, binding: Option<&Binding>) -> bool
    ensures { result ≡ is_place_of at (option_copied binding.entry) }
{
    match binding {
        None => false,
        Some(binding) => binding.at == at,
    }
}

impl<'a> Bindings<'a> {
    /// What names stand for by the scopes of a graph, the variable of the first binding of each module, and what each variable
    /// stands for.
    pub fn new(
        scopes: &'a Scopes<'a>,
        offsets: Items<u32>,
        meanings: Items<Meaning>,
    ) -> Bindings<'a>
        ensures { result ≡ record { scopes = scopes.now; offsets = offsets; meanings = meanings } }
    {
        Bindings {
            scopes,
            offsets,
            meanings,
        }
    }

    /// The binding of this number, if it is one of a module.
    pub fn own(&self, id: BindingId) -> Option<&Binding>
        ensures { option_copied result ≡ own_binding self.now.scopes id }
    {
        self.scopes.own(id)
    }

    /// The number of the binding that a module's own scope has for a name.
    pub fn number_of(&self, home: usize, name: &'a [u8]) -> Option<usize>
        ensures { result ≡ named_in name.now (slice_get self.now.scopes.modules.items home) }
    {
        self.scopes.number_of(home, name)
    }

    /// Whether the reference at a place may find its binding without a value.
    pub(crate) fn is_unsure(&self, context: &Context, at: u32) -> bool
        ensures { result ≡ is_unsure self.now.scopes context.now.home at }
    {
        !self.scopes.is_certain(place(context, at))
    }

    /// The first binding that the name at a place declares.
    pub(crate) fn declared(&self, context: &Context, at: u32) -> Option<BindingId>
        ensures { result ≡ first_id (declared_ids self.now.scopes context.now.home at) }
    {
        first_id(self.scopes.declared(context.home as usize, at))
    }

    /// The last one.
    pub(crate) fn declared_last(&self, context: &Context, at: u32) -> Option<BindingId>
        ensures { result ≡ last_id (declared_ids self.now.scopes context.now.home at) }
    {
        last_id(self.scopes.declared(context.home as usize, at))
    }

    /// What the reference at a place finds.
    pub(crate) fn referred(&self, context: &Context, at: u32) -> Option<BindingId>
        ensures { result ≡ first_id (referred_ids self.now.scopes context.now.home at) }
    {
        first_id(self.scopes.referred(place(context, at)))
    }

    /// What the binding of a variable stands for.
    pub fn meaning(&self, var: Var) -> Meaning
        ensures { result ≡ meaning self.now var }
    {
        meaning_at(self.meanings.as_slice(), var.0 as usize)
    }

    /// The variable of a binding of a module.
    pub fn own_var(&self, home: usize, number: usize) -> Result<Var, AllocError>
        ensures { IfOk result (λ x. x ≡ own_var self.now home number) }
    {
        behind(offset_at(self.offsets.as_slice(), home), number)
    }

    fn id_var(&self, id: BindingId) -> Result<Var, AllocError>
        ensures { IfOk result (λ x. x ≡ id_var self.now id) }
    {
        match id {
            BindingId::Own { home, number } => self.own_var(home, number),
            BindingId::Global { .. } | BindingId::Host { .. } => Ok(Var(0)),
        }
    }

    pub(crate) fn var_of(&self, id: Option<BindingId>) -> Result<Var, AllocError>
        ensures { IfOk result (λ x. x ≡ var_of self.now id) }
    {
        match id {
            None => Ok(Var(0)),
            Some(id) => self.id_var(id),
        }
    }

    /// A name of a scope: it is shared where closures of several turns of a loop may capture it.
    fn scoped_id(&self, id: BindingId) -> Result<ScopedName, AllocError>
        ensures { IfOk result (λ n. n ≡ scoped_id self.now id) }
    {
        let var = self.id_var(id)?;
        Ok(ScopedName {
            var,
            shared: self.scopes.captured(id) & self.scopes.in_loop(id),
            mutable: is_mutable(self.own(id)),
        })
    }

    pub(crate) fn scoped_of(&self, id: Option<BindingId>) -> Result<ScopedName, AllocError>
        ensures { IfOk result (λ n. n ≡ scoped_of self.now id) }
    {
        match id {
            None => Ok(ScopedName {
                var: Var(0),
                shared: false,
                mutable: true,
            }),
            Some(id) => self.scoped_id(id),
        }
    }
}

/// A place in the module of a context.
fn place(context: &Context, at: u32) -> RefId
    ensures { result ≡ record { home = context.now.home; at = at } }
{
    RefId {
        home: context.home as usize,
        at,
    }
}
