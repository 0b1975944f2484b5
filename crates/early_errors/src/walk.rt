//! A walk through a module that meets its early errors, and the rules that it meets at a part by itself.

ghost use Rattle.std.specs.Prelude.{◌≡◌, ◌++◌, [], map, OnOk};
ghost use Rattle.es6_static_semantics.specs.Findings.{joined, repeated};
ghost use Rattle.es6_static_semantics.specs.Early.{bound, deleted, expression_found, misfits, no_simple, parameter_found, parameter_names, restricted, some_name, target_name};
ghost use Rattle.early_errors.specs.Walked.{met};

use crate::labels::Labels;
use early_findings::Finder;
use early_names::{
    PlacedName, add_parameter_names, begin_of, bound, is_simple, name_of, repeated, restricted,
    target_misfit,
};
use es_text::Span;
use es6_ast::{Expression, Identifier, Parameter, UnaryOperator};
use std::alloc::{AllocError, Global};

/// The first of what was met, and the labels round the part that is next.
#[derive(Drop)]
pub(crate) struct Walk {
    pub(crate) finder: Finder,
    pub(crate) labels: Labels,
}

impl Walk {
    pub(crate) fn alloc(&self) -> Global {
        self.finder.alloc()
    }

    /// E8 and E10, at what is updated (12.4.1, 12.14.1).
    pub(crate) fn updated(&mut self, target: &Expression)
        ensures { self.new ≡ met (no_simple (expression_found target.now).target ++ restricted (expression_found target.now).target) self.old }
    {
        self.finder.when(!is_simple(target), 10, begin_of(target));
        restricted(&mut self.finder, &name_of(target));
    }

    /// E8 and E10, at what is assigned (12.14.1, 12.14.5.1, 13.7.5.1).
    pub(crate) fn assigned(&mut self, target: &Expression)
        ensures { self.new ≡ met (misfits (expression_found target.now).target.target_misfit ++ restricted (expression_found target.now).target) self.old }
    {
        if let Some(at) = target_misfit(target) {
            self.finder.when(true, 10, at);
        }
        restricted(&mut self.finder, &name_of(target));
    }

    /// E9, at an operand of `delete` (12.5.4.1).
    pub(crate) fn deleted(&mut self, operator: UnaryOperator, operand: &Expression, span: Span)
        ensures { self.new ≡ met (deleted operator (expression_found operand.now).target span) self.old }
    {
        match operator {
            UnaryOperator::Delete => {
                self.finder.when(name_of(operand).is_some(), 9, span.begin);
            }
            _ => (),
        }
    }

    /// E7, at the name of a function or a class, if there is one (12.1.1).
    pub(crate) fn bound_name(&mut self, name: &Option<Identifier>)
        ensures { self.new ≡ met (joined bound (some_name name.now)) self.old }
    {
        if let Some(name) = name {
            bound(&mut self.finder, &PlacedName::of(name));
        }
    }

    /// E7, at a target that is bound (12.1.1, 13.3.1.1, 14.1.2, 14.2.1).
    pub(crate) fn bound_target(&mut self, target: &Expression)
        ensures { self.new ≡ met (joined bound (target_name (expression_found target.now).target)) self.old }
    {
        if let Some(name) = name_of(target) {
            bound(&mut self.finder, &name);
        }
    }

    /// E4, at a parameter whose name another one has (14.1.2, 14.2.1).
    pub(crate) fn repeated_parameters(&mut self, parameters: &[Parameter]) -> Result<(), AllocError>
        ensures { OnOk result (self.new ≡ met (repeated 4 [] (parameter_names (map parameter_found parameters.now))) self.old) }
    {
        let mut names = Vec::new(self.alloc());
        add_parameter_names(&mut names, parameters)?;
        repeated(&mut self.finder, 4, names.as_slice())
    }
}
