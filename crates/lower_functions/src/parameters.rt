//! Parameters (ECMA-262, 6th edition, 14.1).

ghost use Rattle.std.specs.Prelude.{◌&&◌, ◌≡◌, map, IfOk, OnOk};
ghost use Rattle.lower_functions.specs.Parameters.{bound_parameter, bound_rest, Changes, parted};
ghost use Rattle.lower_walk.specs.Handed.{done_at, HasExpressions, HasPatterns};
ghost use Rattle.module_lowering.specs.Functions.{bound_added, in_parameters, is_name, is_plain, no_parameters, parameter_added, parameter_names, plain_parameter, rest_added, rest_named, single_added, with_parameter, with_rest};
ghost use Rattle.module_lowering.specs.Lowered.{parameter_lowered, part_lowered, pattern_lowered};
ghost use Rattle.module_lowering.specs.Lowering.{along_by, Lowers, within};
ghost use Rattle.module_lowering.specs.Names.{places, vars_at};
ghost use Rattle.module_lowering.specs.Nodes.{PartsForm};

use crate::walk::Walk;
use core_ast::{CoreExpr, CoreStat, Var, variable};
use es6_ast::{Expression, Parameter as ParameterNode, Part, Pattern};
use lower_listed::{expression_name, name_places, parameters_names};
use lower_walk::{Around, Here, in_places};
use lowering_rules::reference_rules::Reached;
use lowering_rules::{Parameter, RestParameter};
use module_lowering::{Context, Lowerer, Role};
use sqlite_items::Items;
use std::alloc::{AllocError, Global};
use std::marker::Model;

/// What is made of the parameters of a function so far: those of the core, the rest, the variables of the names that are no
/// parameters of the core themselves, and whether a further plain name may be one.
#[derive(Drop)]
pub(crate) struct Parameters {
    pub list: Vec<Parameter>,
    pub rest: Option<RestParameter>,
    pub names: Items<Var>,
    pub direct: bool,
}

impl Model for Parameters {
    ghost use Rattle.std.specs.Coded.{codes};
    ghost use Rattle.core_ast.specs.contracts.tree.CoreExpr as expression;
    ghost use Rattle.core_ast.specs.contracts.tree.CoreStat as statement;
    ghost use Rattle.module_lowering.specs.Functions.{Parameters as ParametersMade};

    ghost Value = { ParametersMade };

    ghost coded = { Prim.hlevel (codes, expression.the_row.coded, statement.the_row.coded) };

    ghost view = { λ ps. record { list = ps.list.items; rest = ps.rest; names = ps.names; direct = ps.direct } };
}

impl Parameters {
    fn new(alloc: Global) -> Parameters
        ensures { result ≡ no_parameters }
    {
        Parameters {
            list: Vec::new(alloc),
            rest: None,
            names: Items::new(alloc),
            direct: true,
        }
    }

    fn is_direct(&self) -> bool
        ensures { result ≡ self.now.direct }
    {
        self.direct
    }

    fn push(
        &mut self,
        direct: bool,
        names: Items<Var>,
        parameter: Parameter,
    ) -> Result<(), AllocError>
        ensures { OnOk result (self.new ≡ with_parameter self.old direct names parameter) }
    {
        self.list.push(parameter)?;
        self.names.append(names)?;
        self.direct = direct;
        Ok(())
    }

    /// A plain name is the variable of its name.
    #[tactic(auto, using(crate::proofs::Firsts::plain_none, crate::proofs::Firsts::plain_some))]
    fn push_plain(&mut self, alloc: Global, vars: &[Var]) -> Result<(), AllocError>
        ensures { OnOk result (self.new ≡ plain_parameter self.old vars.now) }
    {
        match vars.first() {
            None => Ok(()),
            Some(var) => {
                let parameter = Parameter {
                    formal: *var,
                    default: None,
                    bound: Items::new(alloc),
                };
                self.push(true, Items::new(alloc), parameter)
            }
        }
    }

    fn set_rest(&mut self, names: Items<Var>, rest: RestParameter) -> Result<(), AllocError>
        ensures { OnOk result (self.new ≡ with_rest self.old names rest) }
    {
        self.names.append(names)?;
        self.rest = Some(rest);
        self.direct = false;
        Ok(())
    }

    /// A rest that is a name takes the list itself.
    #[tactic(auto, using(crate::proofs::Firsts::rest_none, crate::proofs::Firsts::rest_some))]
    fn set_named_rest(&mut self, alloc: Global, vars: Items<Var>) -> Result<(), AllocError>
        ensures { OnOk result (self.new ≡ rest_named self.old vars) }
    {
        match vars.as_slice().first().copied() {
            None => Ok(()),
            Some(list) => {
                let bound = Items::new(alloc);
                self.set_rest(vars, RestParameter { list, bound })
            }
        }
    }
}

/// Whether the pattern is a name.
#[tactic(auto, unfolding(module_lowering::specs::Lowered::expression_lowered, module_lowering::specs::Lowered::pattern_lowered))]
fn is_name(pattern: &Pattern) -> bool
    ensures { result ≡ is_name (pattern_lowered pattern.now).form }
{
    match pattern {
        Pattern::Target(target) => expression_name(target.get()).is_some(),
        Pattern::ArrayPattern { .. } | Pattern::ObjectPattern { .. } => false,
    }
}

/// Whether a parameter is a name with no default.
#[tactic(auto, using(lower_walk::proofs::Layers::part_out))]
fn is_plain(part: &Part) -> bool
    ensures { result ≡ is_plain (part_lowered part.now) }
{
    part.default.is_none() & is_name(&part.pattern)
}

impl<E, P, S, F> Walk<'_, E, P, S, F> {
    /// A parameter that is a name with no default.
    fn add_plain(&self, pattern: &Pattern, made: &mut Parameters) -> Result<(), AllocError>
        ensures { OnOk result (made.new ≡ plain_parameter made.old (vars_at (places (pattern_lowered pattern.now).names) self.now.here.around.bindings.now self.now.here.around.context.now)) }
    {
        let vars = self.names_vars(pattern)?;
        made.push_plain(self.here.around.alloc, vars.as_slice())
    }

    /// A rest that is a name.
    fn add_named_rest(&self, pattern: &Pattern, made: &mut Parameters) -> Result<(), AllocError>
        ensures { OnOk result (made.new ≡ rest_named made.old (vars_at (places (pattern_lowered pattern.now).names) self.now.here.around.bindings.now self.now.here.around.context.now)) }
    {
        let vars = self.names_vars(pattern)?;
        made.set_named_rest(self.here.around.alloc, vars)
    }

    /// The places of the names of the parameters.
    fn parameter_places(&self, parameters: &[ParameterNode]) -> Result<Items<u32>, AllocError>
        ensures { IfOk result (λ xs. xs ≡ places (parameter_names (map parameter_lowered parameters.now))) }
    {
        let alloc = self.here.around.alloc;
        let names = parameters_names(alloc, parameters)?;
        name_places(alloc, names.as_slice())
    }

    /// Among the parameters their names may be uninitialized.
    fn in_parameters(&self, parameters: &[ParameterNode]) -> Result<Context, AllocError>
        ensures { IfOk result (λ c. c ≡ in_parameters (map parameter_lowered parameters.now) self.now.here.around.context.now) }
    {
        let places = self.parameter_places(parameters)?;
        let around = self.here.around;
        in_places(around.alloc, places.as_slice(), around.context)
    }
}

impl<
    E,
    P: Fn(Around, &Pattern, Role, CoreExpr, &mut Lowerer) -> Result<Items<CoreStat>, AllocError>,
    S,
    F,
> Walk<'_, E, P, S, F> {
    /// What a rest that is a pattern becomes: a variable takes the list, and the names take their values of it.
    fn bound_rest(
        &self,
        pattern: &Pattern,
        state: &mut Lowerer,
    ) -> Result<RestParameter, AllocError>
        requires patterns { HasPatterns P.pre P.post self.now.here }
        ensures { Lowers (done_at self.now.here.around (bound_rest (pattern_lowered pattern.now)) state.old) result state.new }
    {
        let list = self.here.temporary(state)?;
        let value = variable(self.here.around.alloc, list);
        let bound = self.here.bound(pattern, Role::Initializes, value, state)?;
        Ok(RestParameter { list, bound })
    }

    fn add_bound_rest(
        &self,
        pattern: &Pattern,
        made: &mut Parameters,
        state: &mut Lowerer,
    ) -> Result<(), AllocError>
        requires patterns { HasPatterns P.pre P.post self.now.here }
        ensures { Changes (done_at self.now.here.around (rest_added (pattern_lowered pattern.now) made.old PartsForm) state.old) result made.new state.new }
    {
        let rest = self.bound_rest(pattern, state)?;
        let vars = self.names_vars(pattern)?;
        made.set_rest(vars, rest)
    }

    /// A rest.
    #[tactic(auto, unfolding(module_lowering::specs::Lowered::expression_lowered, module_lowering::specs::Lowered::pattern_lowered))]
    fn add_rest(
        &self,
        pattern: &Pattern,
        made: &mut Parameters,
        state: &mut Lowerer,
    ) -> Result<(), AllocError>
        requires patterns { HasPatterns P.pre P.post self.now.here }
        ensures { Changes (done_at self.now.here.around (rest_added (pattern_lowered pattern.now) made.old (pattern_lowered pattern.now).form) state.old) result made.new state.new }
    {
        match pattern {
            Pattern::Target(target) => match expression_name(target.get()) {
                None => Ok(()),
                Some(_) => self.add_named_rest(pattern, made),
            },
            Pattern::ArrayPattern { .. } | Pattern::ObjectPattern { .. } => {
                self.add_bound_rest(pattern, made, state)
            }
        }
    }
}

impl<
    E: Fn(Around, &Expression, &mut Lowerer) -> Result<Reached, AllocError>,
    P: Fn(Around, &Pattern, Role, CoreExpr, &mut Lowerer) -> Result<Items<CoreStat>, AllocError>,
    S,
    F,
> Walk<'_, E, P, S, F> {
    /// What another parameter becomes: a variable of its own, of which the names take the value.
    fn bound_parameter(
        &self,
        pattern: &Pattern,
        default: &Option<Expression>,
        state: &mut Lowerer,
    ) -> Result<Parameter, AllocError>
        requires expressions { HasExpressions E.pre E.post self.now.here }
        requires patterns { HasPatterns P.pre P.post self.now.here }
        ensures { Lowers (done_at self.now.here.around (bound_parameter (parted pattern.now default.now)) state.old) result state.new }
    {
        let formal = self.here.raw(state)?;
        let default = self.here.default(default, state)?;
        let value = variable(self.here.around.alloc, formal);
        let bound = self.here.bound(pattern, Role::Initializes, value, state)?;
        Ok(Parameter {
            formal,
            default,
            bound,
        })
    }

    fn add_bound(
        &self,
        pattern: &Pattern,
        default: &Option<Expression>,
        made: &mut Parameters,
        state: &mut Lowerer,
    ) -> Result<(), AllocError>
        requires expressions { HasExpressions E.pre E.post self.now.here }
        requires patterns { HasPatterns P.pre P.post self.now.here }
        ensures { Changes (done_at self.now.here.around (bound_added (parted pattern.now default.now) made.old) state.old) result made.new state.new }
    {
        let parameter = self.bound_parameter(pattern, default, state)?;
        let vars = self.names_vars(pattern)?;
        made.push(false, vars, parameter)
    }

    fn add_plain_or_bound(
        &self,
        is_plain: bool,
        pattern: &Pattern,
        default: &Option<Expression>,
        made: &mut Parameters,
        state: &mut Lowerer,
    ) -> Result<(), AllocError>
        requires expressions { HasExpressions E.pre E.post self.now.here }
        requires patterns { HasPatterns P.pre P.post self.now.here }
        ensures { Changes (done_at self.now.here.around (single_added (parted pattern.now default.now) is_plain made.old) state.old) result made.new state.new }
    {
        if is_plain {
            self.add_plain(pattern, made)?;
            return Ok(());
        }
        self.add_bound(pattern, default, made, state)
    }

    /// A parameter that is no rest.
    #[tactic(auto, using(lower_walk::proofs::Layers::part_out))]
    fn add_single(
        &self,
        part: &Part,
        made: &mut Parameters,
        state: &mut Lowerer,
    ) -> Result<(), AllocError>
        requires expressions { HasExpressions E.pre E.post self.now.here }
        requires patterns { HasPatterns P.pre P.post self.now.here }
        ensures { Changes (done_at self.now.here.around (single_added (part_lowered part.now) (made.old.direct && is_plain (part_lowered part.now)) made.old) state.old) result made.new state.new }
    {
        let is_plain = made.is_direct() & is_plain(part);
        self.add_plain_or_bound(is_plain, &part.pattern, &part.default, made, state)
    }

    #[tactic(auto, unfolding(module_lowering::specs::Lowered::parameter_lowered, module_lowering::specs::Lowered::part_lowered, module_lowering::specs::Lowered::pattern_lowered))]
    fn add_parameter(
        &self,
        parameter: &ParameterNode,
        made: &mut Parameters,
        state: &mut Lowerer,
    ) -> Result<(), AllocError>
        requires expressions { HasExpressions E.pre E.post self.now.here }
        requires patterns { HasPatterns P.pre P.post self.now.here }
        ensures { Changes (done_at self.now.here.around (parameter_added (parameter_lowered parameter.now) made.old) state.old) result made.new state.new }
    {
        match parameter {
            ParameterNode::SingleParameter(part) => self.add_single(part, made, state),
            ParameterNode::RestParameter { pattern, .. } => self.add_rest(pattern, made, state),
        }
    }

    /// What the parameters become, from left to right.
    fn parameters(
        &self,
        parameters: &[ParameterNode],
        state: &mut Lowerer,
    ) -> Result<Parameters, AllocError>
        requires expressions { HasExpressions E.pre E.post self.now.here }
        requires patterns { HasPatterns P.pre P.post self.now.here }
        ensures { Lowers (done_at self.now.here.around (along_by parameter_added (map parameter_lowered parameters.now) no_parameters) state.old) result state.new }
    {
        let mut made = Parameters::new(self.here.around.alloc);
        for parameter in parameters {
            self.add_parameter(parameter, &mut made, state)?;
        }
        Ok(made)
    }

    /// The same where their names may be uninitialized.
    pub fn lower_parameters(
        &self,
        parameters: &[ParameterNode],
        state: &mut Lowerer,
    ) -> Result<Parameters, AllocError>
        requires expressions { HasExpressions E.pre E.post self.now.here }
        requires patterns { HasPatterns P.pre P.post self.now.here }
        ensures { Lowers (done_at self.now.here.around (within (in_parameters (map parameter_lowered parameters.now)) (along_by parameter_added (map parameter_lowered parameters.now) no_parameters)) state.old) result state.new }
    {
        let context = self.in_parameters(parameters)?;
        let around = Around {
            context: &context,
            ..self.here.around
        };
        let here = Here {
            around,
            ..self.here
        };
        Walk { here }.parameters(parameters, state)
    }
}
