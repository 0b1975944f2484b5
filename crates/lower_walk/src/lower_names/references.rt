//! What references stand for (ECMA-262, 6th edition, 12.1.6 and 8.1.1.1).

ghost use Rattle.std.specs.Prelude.{◌≡◌, IfOk};
ghost use Rattle.std.specs.List.{list_any};
ghost use Rattle.std.specs.Prelude.{nat_eq};
ghost use Rattle.binding_tables.specs.declared.ids.BindingId.TheVariants.{Own};
ghost use Rattle.scope_analysis.specs.Answers.{own_binding};
ghost use Rattle.lower_walk.specs.lower_names.Reached.{name_reached};
ghost use Rattle.module_lowering.specs.Bindings.{finds_arguments, finds_none, found, found_by, found_value, imported_value, is_checked, is_head, meaning, name_value, own_value, own_var, stand_in, target_of, value_found, with_binding};
ghost use Rattle.module_lowering.specs.Lowering.{Lowers, marking, sees_arguments};

use crate::lower_names::bindings::Bindings;
use crate::lower_names::globals::global_value;
use crate::lower_names::kinds::{can_be_unready, is_arguments, is_constant};
use crate::lower_names::sites::sees_arguments;
use core_ast::Var;
use lower_references::{lower_found, plain_target};
use lowering_rules::VariableTarget;
use lowering_rules::reference_rules::{NamedValue, Reached};
use module_lowering::{Context, Dead, Lowerer, Meaning};
use scope_analysis::BindingId;
use scope_rules::scope_tables::Binding;
use std::alloc::{AllocError, Global};

/// Whether the parameter list or the catch parameter that declares a name at this place stands round the node.
fn is_head(context: &Context, at: u32) -> bool
    ensures { result ≡ is_head context.now at }
{
    context.heads.as_slice().iter().any(|head| at == *head)
}

/// The variable that stands for another in the subject of a for-of.
fn stand_in(var: Var, dead: &[Dead]) -> Var
    ensures { result ≡ stand_in var dead.now }
{
    for one in dead {
        if one.name.0 == var.0 {
            return one.stand_in;
        }
    }
    var
}

/// What a variable of another module stands for, which is constant.
pub fn imported_value(var: Var, checked: bool) -> NamedValue
    ensures { result ≡ imported_value var checked }
{
    NamedValue::VariableName {
        target: VariableTarget {
            var,
            checked,
            constant: true,
        },
        imported: true,
    }
}

/// The target of a name that a pattern writes (8.1.1.1.5).
pub fn target_of(value: NamedValue) -> VariableTarget
    ensures { result ≡ target_of value }
{
    match value {
        NamedValue::VariableName { target, imported } => plain_target(target, imported),
        NamedValue::UndefinedName | NamedValue::GlobalName(_) | NamedValue::HostName(_) => {
            VariableTarget {
                var: Var(0),
                checked: false,
                constant: true,
            }
        }
    }
}

impl<'a> Bindings<'a> {
    fn is_checked(&self, context: &Context, at: u32, binding: &Binding) -> bool
        ensures { result ≡ is_checked self.now context.now at binding.now }
    {
        can_be_unready(binding.kind, is_head(context, binding.at)) & self.is_unsure(context, at)
    }

    fn own_value(&self, context: &Context, at: u32, var: Var, binding: &Binding) -> NamedValue
        ensures { result ≡ own_value self.now context.now at (record { var = var; binding = binding.now }) }
    {
        NamedValue::VariableName {
            target: VariableTarget {
                var: stand_in(var, context.dead.as_slice()),
                checked: self.is_checked(context, at, binding),
                constant: is_constant(binding.kind),
            },
            imported: false,
        }
    }

    /// What the reference at a place stands for that finds the binding of a variable.
    fn found_value(&self, context: &Context, at: u32, var: Var, binding: &Binding) -> NamedValue
        ensures { result ≡ found_value self.now context.now at (record { var = var; binding = binding.now }) (meaning self.now var) }
    {
        match self.meaning(var) {
            Meaning::Itself => self.own_value(context, at, var, binding),
            Meaning::Elsewhere(end) => imported_value(end, self.is_unsure(context, at)),
            Meaning::NamespaceOf(object) => imported_value(object, false),
            Meaning::OfHost(host) => NamedValue::HostName(host),
        }
    }

    /// The same for the binding of a number in a module.
    fn numbered_value(
        &self,
        context: &Context,
        at: u32,
        name: &[u8],
        home: usize,
        number: usize,
    ) -> Result<NamedValue, AllocError>
        ensures { IfOk result (λ v. v ≡ value_found self.now context.now at name.now (found_by self.now (Some (Own home number)))) }
    {
        match self.own(BindingId::Own { home, number }) {
            None => Ok(global_value(name)),
            Some(binding) => {
                let var = self.own_var(home, number)?;
                Ok(self.found_value(context, at, var, binding))
            }
        }
    }

    /// What the name at a place stands for.
    pub fn name_value(
        &self,
        context: &Context,
        at: u32,
        name: &[u8],
    ) -> Result<NamedValue, AllocError>
        ensures { IfOk result (λ v. v ≡ name_value self.now context.now at name.now) }
    {
        match self.referred(context, at) {
            Some(BindingId::Own { home, number }) => {
                self.numbered_value(context, at, name, home, number)
            }
            _ => Ok(global_value(name)),
        }
    }

    /// The target of the name at a place, which a pattern writes.
    pub fn name_target(
        &self,
        context: &Context,
        at: u32,
        name: &[u8],
    ) -> Result<VariableTarget, AllocError>
        ensures { IfOk result (λ t. t ≡ target_of (name_value self.now context.now at name.now)) }
    {
        let value = self.name_value(context, at, name)?;
        Ok(target_of(value))
    }

    /// Whether no scope declares the name at a place.
    pub fn is_global(&self, context: &Context, at: u32) -> bool
        ensures { result ≡ finds_none (found self.now context.now at) }
    {
        match self.referred(context, at) {
            Some(BindingId::Own { home, number }) => {
                self.own(BindingId::Own { home, number }).is_none()
            }
            _ => true,
        }
    }

    fn is_arguments(&self, home: usize, number: usize) -> bool
        ensures { result ≡ finds_arguments (found_by self.now (Some (Own home number))) }
    {
        match self.own(BindingId::Own { home, number }) {
            None => false,
            Some(binding) => is_arguments(binding.kind),
        }
    }

    /// Whether the name at a place finds the arguments object of a function.
    pub fn finds_arguments(&self, context: &Context, at: u32) -> bool
        ensures { result ≡ finds_arguments (found self.now context.now at) }
    {
        match self.referred(context, at) {
            Some(BindingId::Own { home, number }) => self.is_arguments(home, number),
            _ => false,
        }
    }

    /// What a name at a place comes to. A function in which its arguments object is met has one.
    pub fn lower_name(
        &self,
        alloc: Global,
        context: &Context,
        at: u32,
        name: &[u8],
        state: &mut Lowerer,
    ) -> Result<Reached, AllocError>
        ensures { Lowers (name_reached at name.now self.now context.now state.old) result state.new }
    {
        let value = self.name_value(context, at, name)?;
        if self.finds_arguments(context, at) {
            sees_arguments(state);
        }
        Ok(lower_found(alloc, value))
    }
}
