//! What names declare.

ghost use Rattle.std.specs.Prelude.{◌≡◌, IfOk};
ghost use Rattle.module_lowering.specs.Bindings.{declared_var, declares_first, inner_name, is_first, scoped_name};
ghost use Rattle.module_lowering.specs.Names.{first_vars, scoped_names, vars_at};

use crate::lower_names::bindings::{Bindings, is_place_of};
use core_ast::{ScopedName, Var};
use module_lowering::Context;
use scope_analysis::BindingId;
use sqlite_items::Items;
use std::alloc::{AllocError, Global};

impl<'a> Bindings<'a> {
    /// The variable that the name at a place declares: of a class declaration that of the outer name.
    pub fn declared_var(&self, context: &Context, at: u32) -> Result<Var, AllocError>
        ensures { IfOk result (λ x. x ≡ declared_var self.now context.now at) }
    {
        self.var_of(self.declared(context, at))
    }

    fn is_first(&self, at: u32, id: Option<BindingId>) -> bool
        ensures { result ≡ is_first self.now at id }
    {
        match id {
            None => false,
            Some(id) => is_place_of(at, self.own(id)),
        }
    }

    /// Whether no declaration before the one at a place declares the name in the same scope.
    pub fn declares_first(&self, context: &Context, at: u32) -> bool
        ensures { result ≡ declares_first self.now context.now at }
    {
        self.is_first(at, self.declared(context, at))
    }

    /// The name of a scope that the name at a place declares.
    pub fn scoped_name(&self, context: &Context, at: u32) -> Result<ScopedName, AllocError>
        ensures { IfOk result (λ n. n ≡ scoped_name self.now context.now at) }
    {
        self.scoped_of(self.declared(context, at))
    }

    /// The name that a class has inside itself (ECMA-262, 6th edition, 14.5.14).
    pub fn inner_name(&self, context: &Context, at: u32) -> Result<ScopedName, AllocError>
        ensures { IfOk result (λ n. n ≡ inner_name self.now context.now at) }
    {
        self.scoped_of(self.declared_last(context, at))
    }

    /// The variables that the names at these places declare.
    pub fn vars_at(
        &self,
        alloc: Global,
        context: &Context,
        ats: &[u32],
    ) -> Result<Items<Var>, AllocError>
        ensures { IfOk result (λ xs. xs ≡ vars_at ats.now self.now context.now) }
    {
        let mut vars = Items::new(alloc);
        for at in ats {
            vars.push(self.declared_var(context, *at)?)?;
        }
        Ok(vars)
    }

    /// Those that no declaration before declares in the same scope.
    pub fn first_vars(
        &self,
        alloc: Global,
        context: &Context,
        ats: &[u32],
    ) -> Result<Items<Var>, AllocError>
        ensures { IfOk result (λ xs. xs ≡ first_vars ats.now self.now context.now) }
    {
        let mut vars = Items::new(alloc);
        for at in ats {
            if !self.declares_first(context, *at) {
                continue;
            }
            vars.push(self.declared_var(context, *at)?)?;
        }
        Ok(vars)
    }

    /// The names of a scope that the names at these places declare.
    pub fn scoped_names(
        &self,
        alloc: Global,
        context: &Context,
        ats: &[u32],
    ) -> Result<Items<ScopedName>, AllocError>
        ensures { IfOk result (λ ns. ns ≡ scoped_names ats.now self.now context.now) }
    {
        let mut names = Items::new(alloc);
        for at in ats {
            names.push(self.scoped_name(context, *at)?)?;
        }
        Ok(names)
    }
}
