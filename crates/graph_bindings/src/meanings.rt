//! What the bindings of modules stand for.

ghost use Rattle.std.specs.Prelude.{◌≡◌, ◌++◌, Some, length, slice_get, IfOk, OnOk};
ghost use Rattle.std.specs.Option.{option_copied};
ghost use Rattle.graph_bindings.specs.Meanings.{all_meanings_by, ended_by, meaning_by, meanings_by, name_meaning_by, namespace_meaning, own_meaning_by, var_by};
ghost use Rattle.lower_walk.specs.lower_names.Names.{names_in};
ghost use Rattle.module_lowering.specs.declared.meaning.Meaning.TheVariants.{OfHost};
ghost use Rattle.module_lowering.specs.Modules.{if_import, is_import, unless_itself};

use crate::numbering::Numbering;
use core_ast::Var;
use lower_walk::lower_names::first_id;
use module_lowering::Meaning;
use scope_analysis::BindingId;
use scope_rules::Kind;
use scope_rules::scope_tables::Binding;
use sqlite_items::Items;
use std::alloc::{AllocError, Global};

fn unless_itself(var: Var, meaning: Meaning) -> Meaning
    ensures { result ≡ unless_itself var meaning }
{
    match meaning {
        Meaning::Itself => Meaning::Elsewhere(var),
        Meaning::Elsewhere(end) => Meaning::Elsewhere(end),
        Meaning::NamespaceOf(object) => Meaning::NamespaceOf(object),
        Meaning::OfHost(host) => Meaning::OfHost(host),
    }
}

fn is_import(binding: &Binding) -> bool
    ensures { result ≡ is_import (Some binding.now) }
{
    match binding.kind {
        Kind::Import => true,
        _ => false,
    }
}

impl<'a, 'b> Numbering<'a, 'b> {
    fn namespace_meaning(&self, home: Option<u32>) -> Result<Meaning, AllocError>
        ensures { IfOk result (λ m. m ≡ namespace_meaning self.now home) }
    {
        match home {
            None => Ok(Meaning::Itself),
            Some(home) => Ok(Meaning::NamespaceOf(self.namespace(home)?)),
        }
    }

    /// What a binding stands for that is no import of a name: the namespace of a module, or itself.
    fn name_meaning(&self, home: usize, number: usize) -> Result<Meaning, AllocError>
        ensures { IfOk result (λ m. m ≡ name_meaning_by self.now home number) }
    {
        let Some(binding) = self.scopes.own(BindingId::Own { home, number }) else {
            return Ok(Meaning::Itself);
        };
        if !is_import(binding) {
            return Ok(Meaning::Itself);
        }
        self.namespace_meaning(self.space(home, binding.at))
    }

    fn other_meaning(&self, home: usize, number: usize) -> Result<Meaning, AllocError>
        ensures { IfOk result (λ m. m ≡ unless_itself (var_by self.now home number) (name_meaning_by self.now home number)) }
    {
        let meaning = self.name_meaning(home, number)?;
        Ok(unless_itself(self.var(home, number)?, meaning))
    }

    /// What a binding stands for whose import ends at another one.
    fn ended(
        &self,
        home: usize,
        number: usize,
        end: Option<BindingId>,
    ) -> Result<Meaning, AllocError>
        ensures { IfOk result (λ m. m ≡ ended_by self.now home number end) }
    {
        match end {
            None => self.name_meaning(home, number),
            Some(BindingId::Own { home, number }) => self.other_meaning(home, number),
            Some(BindingId::Global { .. }) => Ok(Meaning::Itself),
            Some(BindingId::Host { number }) => self.host_meaning(number),
        }
    }

    fn host_meaning(&self, host: usize) -> Result<Meaning, AllocError>
        ensures { IfOk result (λ m. m ≡ OfHost host) }
    {
        match u32::try_from(host) {
            Ok(host) => Ok(Meaning::OfHost(host)),
            Err(_) => Err(AllocError),
        }
    }

    fn meaning(&self, home: usize, number: usize) -> Result<Meaning, AllocError>
        ensures { IfOk result (λ m. m ≡ meaning_by self.now home number) }
    {
        let id = BindingId::Own { home, number };
        self.ended(home, number, first_id(self.scopes.ends(id)))
    }

    fn push_meanings(&self, home: usize, out: &mut Items<Meaning>) -> Result<(), AllocError>
        ensures { OnOk result (out.new ≡ out.old ++ meanings_by self.now home 0 (names_in (slice_get self.now.scopes.now.modules.items home))) }
    {
        let mut number: usize = 0;
        while let Some(_binding) = self.scopes.own(BindingId::Own { home, number }) {
            out.push(self.meaning(home, number)?)?;
            let Some(next) = number.checked_add(1) else {
                return Err(AllocError);
            };
            number = next;
        }
        Ok(())
    }

    /// What each binding of so many modules stands for.
    pub(crate) fn all_meanings(
        &self,
        alloc: Global,
        modules: usize,
    ) -> Result<Items<Meaning>, AllocError>
        requires { modules ≡ length self.now.scopes.now.modules.items }
        ensures { IfOk result (λ ms. ms ≡ all_meanings_by self.now 0 self.now.scopes.now.modules.items) }
    {
        let mut out = Items::new(alloc);
        for home in 0..modules {
            self.push_meanings(home, &mut out)?;
        }
        Ok(out)
    }
}
