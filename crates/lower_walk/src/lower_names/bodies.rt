//! What a body declares (ECMA-262, 6th edition, 9.2.12).

ghost use Rattle.std.specs.Prelude.{◌≡◌, ◌++◌, ◌<◌, Some, length, map, option_to_list, slice_get, IfOk, OnOk};
ghost use Rattle.std.specs.Option.{option_map};
ghost use Rattle.es6_ast.specs.declared.tree.Identifier.{Identifier};
ghost use Rattle.lower_walk.specs.lower_names.BodyVars.{body_var_at};
ghost use Rattle.lower_walk.specs.lower_names.Counting.{counting, last_ones_of};
ghost use Rattle.module_lowering.specs.Bindings.{declared_var};
ghost use Rattle.module_lowering.specs.Names.{body_var, body_vars, parameter_named};

use crate::lower_names::bindings::Bindings;
use core_ast::Var;
use indexmap::IndexSet;
use lowering_rules::BodyVar;
use module_lowering::Context;
use sqlite_items::Items;
use std::alloc::{AllocError, Global};

/// A name at its place, as a list of names borrows it from a tree.
pub trait ListsName {
    ghost identifier: { Self → Identifier };

    /// Where the name begins, an offset in bytes.
    fn begin(&self) -> u32
        ensures { result ≡ (identifier self.now).span.begin };

    /// The bytes of the name in UTF-8.
    fn bytes(&self) -> &[u8]
        ensures { result.now ≡ (identifier self.now).name };
}

/// Where the parameter of this name begins.
fn parameter_named<N: ListsName>(name: &[u8], parameters: &[N]) -> Option<u32>
    ensures { result ≡ option_map (λ p. p.span.begin) (parameter_named name.now (map N.identifier parameters.now)) }
{
    for parameter in parameters {
        if parameter.bytes() == name {
            return Some(parameter.begin());
        }
    }
    None
}

fn var_at(vars: &[Var], at: usize) -> Var
    requires { at < length vars.now }
    ensures { slice_get vars.now at ≡ Some result }
{
    vars[at]
}

/// Of each variable whether no later one is the same.
fn last_ones(alloc: Global, vars: &[Var]) -> Result<Items<bool>, AllocError>
    ensures { IfOk result (λ bs. bs ≡ last_ones_of vars.now) }
{
    let mut seen = IndexSet::new(alloc);
    let mut flags = Vec::new(alloc);
    let mut left = vars.len();
    while left > 0 {
        left -= 1;
        let var = var_at(vars, left);
        flags.push(seen.insert(var.0)?)?;
    }
    flags.reverse();
    Ok(Items::from_vec(flags))
}

impl<'a> Bindings<'a> {
    /// The variable of the body at a place that is named as this parameter.
    fn body_var_at(
        &self,
        context: &Context,
        at: u32,
        parameter: Option<u32>,
    ) -> Result<Option<BodyVar>, AllocError>
        ensures { IfOk result (λ v. v ≡ body_var_at self.now context.now at parameter) }
    {
        match parameter {
            None => Ok(None),
            Some(parameter) => {
                let var = self.declared_var(context, at)?;
                let parameter = self.declared_var(context, parameter)?;
                Ok(Some(BodyVar { var, parameter }))
            }
        }
    }

    fn push_body_var<N: ListsName>(
        &self,
        context: &Context,
        parameters: &[N],
        variable: &N,
        out: &mut Items<BodyVar>,
    ) -> Result<(), AllocError>
        ensures { OnOk result (out.new ≡ out.old ++ option_to_list (body_var self.now context.now (map N.identifier parameters.now) (N.identifier variable.now))) }
    {
        let parameter = parameter_named(variable.bytes(), parameters);
        match self.body_var_at(context, variable.begin(), parameter)? {
            None => Ok(()),
            Some(var) => out.push(var),
        }
    }

    /// The variables of a body that are named as parameters, where these are names of another scope (step 28).
    #[tactic(auto, using(crate::proofs::lower_names::Lists::cons_option_list))]
    pub fn body_vars<N: ListsName>(
        &self,
        alloc: Global,
        context: &Context,
        parameters: &[N],
        variables: &[N],
    ) -> Result<Items<BodyVar>, AllocError>
        ensures { IfOk result (λ vs. vs ≡ body_vars (map N.identifier parameters.now) (map N.identifier variables.now) self.now context.now) }
    {
        let mut vars = Items::new(alloc);
        for variable in variables {
            if !self.declares_first(context, variable.begin()) {
                continue;
            }
            self.push_body_var(context, parameters, variable, &mut vars)?;
        }
        Ok(vars)
    }

    /// Of the functions that a body declares at these places, whether each is the last under its name, which counts (step 10).
    #[tactic(auto, using(crate::proofs::lower_names::Counted::counting_by))]
    pub fn counting(
        &self,
        alloc: Global,
        context: &Context,
        ats: &[u32],
    ) -> Result<Items<bool>, AllocError>
        ensures { IfOk result (λ bs. bs ≡ counting self.now context.now ats.now) }
    {
        let vars = self.vars_at(alloc, context, ats)?;
        last_ones(alloc, vars.as_slice())
    }
}
