//! What is gathered on the way through a script.

ghost use Rattle.std.specs.Prelude.{◌≡◌, [], codes, OnOk};
ghost use Rattle.script_lowering.specs.Gathering.{Gathers, inside_of, jumped, left, outside_of};
ghost use Rattle.script_lowering.specs.Reading.{declares, first_turn, label_named, named, nothing_gathered, variable_named};
ghost use Rattle.script_lowering.specs.Statements.{declares_function, perhaps_label};

use crate::functions::{Head, Outside, function, number};
use crate::names::ScriptNames;
use crate::read::StatRead;
use crate::statements::{plain, single};
use core_ast::{CoreFunction, CoreStat, Declared, FunctionId, Label, Var};
use es5_ast::Identifier5;
use sqlite_items::Items;
use std::alloc::{AllocError, Global};
use std::mem;

/// The names of a script so far, its functions, which stand in front of those that hold them, and what the function at hand
/// declares (ECMA-262, 5.1 edition, 10.5).
#[derive(Drop)]
pub struct Gathered<'a> {
    pub names: ScriptNames<'a>,
    pub functions: Items<CoreFunction>,
    pub vars: Items<Var>,
    pub declared: Items<Declared>,
}

impl<'a> Gathered<'a> {
    /// Nothing yet.
    pub(crate) fn new(alloc: Global) -> Gathered<'a>
        ensures { result ≡ nothing_gathered }
    {
        Gathered {
            names: ScriptNames::new(alloc),
            functions: Items::new(alloc),
            vars: Items::new(alloc),
            declared: Items::new(alloc),
        }
    }

    /// The variable of a name.
    pub(crate) fn named(&mut self, name: &'a [u8]) -> Result<Var, AllocError>
        ensures { Gathers result self.new (named name.now self.old) }
    {
        self.names.named(name)
    }

    /// The label of a name.
    pub(crate) fn label_named(&mut self, name: &'a [u8]) -> Result<Label, AllocError>
        ensures { Gathers result self.new (label_named name.now self.old) }
    {
        let var = self.named(name)?;
        Ok(Label(var.0))
    }

    /// The variable of a name that a `var` declares (12.2).
    pub(crate) fn variable_named(&mut self, name: &'a [u8]) -> Result<Var, AllocError>
        ensures { Gathers result self.new (variable_named name.now self.old) }
    {
        let var = self.named(name)?;
        self.vars.push(var)?;
        Ok(var)
    }

    /// The variable that keeps whether the body of a do-while was run yet.
    pub(crate) fn first_turn(&mut self) -> Result<Var, AllocError>
        ensures { Gathers result self.new (first_turn self.old) }
    {
        self.variable_named(b"")
    }

    /// A name that is a function from the start of the function round it on.
    fn declares(&mut self, var: Var, function: FunctionId) -> Result<(), AllocError>
        ensures { OnOk result (self.new ≡ declares var function self.old) }
    {
        self.declared.push(Declared { var, function })
    }

    /// A declaration of a function, which does nothing where it stands (13).
    pub(crate) fn declared_function(
        &mut self,
        alloc: Global,
        var: Var,
        function: FunctionId,
    ) -> Result<StatRead, AllocError>
        ensures { Gathers result self.new (declares_function var function self.old) }
    {
        self.declares(var, function)?;
        Ok(plain(Items::new(alloc)))
    }

    /// Begins a function: what was declared round it.
    pub(crate) fn enter(&mut self, alloc: Global) -> Outside
        ensures outside { result ≡ outside_of self.old }
        ensures inside { self.new ≡ inside_of self.old }
    {
        let vars = mem::replace(&mut self.vars, Items::new(alloc));
        let declared = mem::replace(&mut self.declared, Items::new(alloc));
        Outside { vars, declared }
    }

    /// Ends a function, which goes into the table; what was declared round it counts again.
    pub(crate) fn leave(
        &mut self,
        alloc: Global,
        outside: Outside,
        head: Head,
        body: Items<CoreStat>,
    ) -> Result<FunctionId, AllocError>
        ensures { Gathers result self.new (left outside head body self.old) }
    {
        let place = number(self.functions.len())?;
        let Outside { vars, declared } = outside;
        let vars = mem::replace(&mut self.vars, vars);
        let declared = mem::replace(&mut self.declared, declared);
        let made = function(alloc, head, body, Outside { vars, declared })?;
        self.functions.push(made)?;
        Ok(FunctionId(place))
    }

    /// `continue` or `break`, with its label if it has one (12.7, 12.8).
    pub(crate) fn jumped(
        &mut self,
        alloc: Global,
        goes_on: bool,
        label: &'a Option<Identifier5>,
    ) -> Result<StatRead, AllocError>
        ensures { Gathers result self.new (jumped goes_on label.now self.old) }
    {
        let label = self.perhaps_label(label)?;
        single(alloc, CoreStat::Jump { goes_on, label })
    }

    fn perhaps_label(&mut self, label: &'a Option<Identifier5>) -> Result<Option<Label>, AllocError>
        ensures { Gathers result self.new (perhaps_label label.now self.old) }
    {
        match label {
            None => Ok(None),
            Some(label) => Ok(Some(self.label_named(label.name.bytes())?)),
        }
    }
}
