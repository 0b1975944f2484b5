//! The walk through statements (ECMA-262, 5.1 edition, 12).

ghost use Rattle.std.specs.Prelude.{◌≡◌, ◌++◌, map, OnOk};
ghost use Rattle.std.specs.Option.{option_map};
ghost use Rattle.es5_ast.specs.Early.{F, when, joined, jump_pairs, option_pairs, stat_pairs, under_label, under_loop};
ghost use Rattle.es5_ast.specs.Lexical.{is_one_of};
ghost use Rattle.es5_early.specs.Pairs.{least_with};
ghost use Rattle.es5_early.specs.Parts.{block_pairs, case_pairs, catch_pairs, condition_pairs, declared_pairs, for_first_pairs, found};
ghost use Rattle.es5_early.specs.Rounds.{round};

use crate::finder::Finder;
use crate::labels::{Labels, Place};
use crate::names::{Names, name_units};
use crate::pair::Rule;
use es_text::Span;
use es5_ast::{Block5, Case5, Catch5, Condition5, Declared5, Expr5, ForFirst5, Identifier5, Stat5};
use sqlite_items::Boxed;
use std::alloc::AllocError;

impl Finder {
    #[cycle(walk)]
    pub(crate) fn statements(
        &mut self,
        statements: &[Stat5],
        labels: &mut Labels,
        place: Place,
    ) -> Result<(), AllocError>
        ensures pairs { OnOk result (self.new ≡ least_with self.old (joined (λ s. s (round labels.old place)) (map stat_pairs statements.now))) }
        ensures labels { OnOk result (labels.new ≡ labels.old) }
    {
        for statement in statements {
            self.statement(statement, labels, place)?;
        }
        Ok(())
    }

    #[cycle(walk)]
    fn statement(
        &mut self,
        statement: &Stat5,
        labels: &mut Labels,
        place: Place,
    ) -> Result<(), AllocError>
        ensures pairs { OnOk result (self.new ≡ least_with self.old (stat_pairs statement.now (round labels.old place))) }
        ensures labels { OnOk result (labels.new ≡ labels.old) }
    {
        match statement {
            Stat5::Var { declared, .. } => self.declarations(declared.as_slice(), place.inside),
            Stat5::FunctionDeclaration(function) => self.function(function.get()),
            Stat5::Block(block) => self.block(block, labels, place.under()),
            Stat5::Empty { .. } | Stat5::Debugger { .. } => Ok(()),
            Stat5::Expression { expression, .. } => self.expression(expression, place.inside),
            Stat5::If {
                first,
                more,
                otherwise,
                ..
            } => {
                self.condition(first, labels, place.under())?;
                self.conditions(more.as_slice(), labels, place.under())?;
                self.otherwise(otherwise, labels, place.under())
            }
            Stat5::DoWhile { body, test, .. } => {
                self.loop_body(body.get(), labels, place)?;
                self.expression(test, place.inside)
            }
            Stat5::While { test, body, .. } => {
                self.expression(test, place.inside)?;
                self.loop_body(body.get(), labels, place)
            }
            Stat5::For {
                first,
                test,
                update,
                body,
                ..
            } => {
                self.for_first(first, labels, place)?;
                self.optional(test, place.inside)?;
                self.optional(update, place.inside)?;
                self.loop_body(body.get(), labels, place)
            }
            Stat5::Continue { span, label } => {
                self.jump(label, &labels.loops, place.in_loop, *span)
            }
            Stat5::Break { span, label } => {
                self.jump(label, &labels.all, place.in_loop || place.in_switch, *span)
            }
            Stat5::Return { value, .. } => self.optional(value, place.inside),
            Stat5::Switch { subject, cases, .. } => {
                self.expression(subject, place.inside)?;
                self.cases(cases.as_slice(), labels, place.under_switch())
            }
            Stat5::Labelled { label, body, .. } => {
                self.labelled(label, body.get(), labels, place)
            }
            Stat5::Throw { value, .. } => self.expression(value, place.inside),
            Stat5::Try {
                block,
                catch,
                finally,
                ..
            } => {
                self.block(block, labels, place.under())?;
                self.catch(catch, labels, place.under())?;
                self.finally(finally, labels, place.under())
            }
        }
    }

    /// The statement under a loop, whose labels are those directly before it (12.6, 12.12).
    #[cycle(walk)]
    #[inline(never)]
    fn loop_body(
        &mut self,
        body: &Stat5,
        labels: &mut Labels,
        place: Place,
    ) -> Result<(), AllocError>
        ensures pairs { OnOk result (self.new ≡ least_with self.old (stat_pairs body.now (under_loop (round labels.old place)))) }
        ensures labels { OnOk result (labels.new ≡ labels.old) }
    {
        let count = labels.enter_loop(place.before)?;
        self.statement(body, labels, place.under_loop())?;
        labels.leave_loop(count);
        Ok(())
    }

    /// A statement behind a label, with F6 where the label is round it already (12.12).
    #[cycle(walk)]
    #[inline(never)]
    fn labelled(
        &mut self,
        label: &Identifier5,
        body: &Stat5,
        labels: &mut Labels,
        place: Place,
    ) -> Result<(), AllocError>
        ensures pairs { OnOk result (self.new ≡ least_with self.old (when (is_one_of label.now.name labels.old.all) (F 6) label.now.span.begin ++ stat_pairs body.now (under_label label.now.name (round labels.old place)))) }
        ensures labels { OnOk result (labels.new ≡ labels.old) }
    {
        let name = name_units(self.alloc(), &label.name)?;
        self.when(
            labels.all.contains(name.as_slice()),
            Rule::Early(6),
            label.span.begin,
        );
        labels.all.push(name)?;
        let count = labels.all.len();
        self.statement(body, labels, place.under_label(count))?;
        labels.all.pop();
        Ok(())
    }

    /// F7 at a `break` or `continue`, of which these are the labels, or which may stand there without one (12.7, 12.8).
    #[inline(never)]
    fn jump(
        &mut self,
        label: &Option<Identifier5>,
        labels: &Names,
        allowed: bool,
        span: Span,
    ) -> Result<(), AllocError>
        ensures { OnOk result (self.new ≡ least_with self.old (jump_pairs label.now labels.now allowed span)) }
    {
        match label {
            None => self.when(!allowed, Rule::Early(7), span.begin),
            Some(label) => {
                let name = name_units(self.alloc(), &label.name)?;
                self.when(
                    !labels.contains(name.as_slice()),
                    Rule::Early(7),
                    label.span.begin,
                );
            }
        }
        Ok(())
    }

    #[cycle(walk)]
    fn block(&mut self, block: &Block5, labels: &mut Labels, place: Place) -> Result<(), AllocError>
        ensures pairs { OnOk result (self.new ≡ least_with self.old (block_pairs block.now (round labels.old place))) }
        ensures labels { OnOk result (labels.new ≡ labels.old) }
    {
        self.statements(block.statements.as_slice(), labels, place)
    }

    #[cycle(walk)]
    #[inline(never)]
    fn conditions(
        &mut self,
        conditions: &[Condition5],
        labels: &mut Labels,
        place: Place,
    ) -> Result<(), AllocError>
        ensures pairs { OnOk result (self.new ≡ least_with self.old (joined (λ c. c (round labels.old place)) (map condition_pairs conditions.now))) }
        ensures labels { OnOk result (labels.new ≡ labels.old) }
    {
        for condition in conditions {
            self.condition(condition, labels, place)?;
        }
        Ok(())
    }

    #[cycle(walk)]
    #[inline(never)]
    fn condition(
        &mut self,
        condition: &Condition5,
        labels: &mut Labels,
        place: Place,
    ) -> Result<(), AllocError>
        ensures pairs { OnOk result (self.new ≡ least_with self.old (condition_pairs condition.now (round labels.old place))) }
        ensures labels { OnOk result (labels.new ≡ labels.old) }
    {
        self.expression(&condition.test, place.inside)?;
        self.statement(condition.body.get(), labels, place)
    }

    #[cycle(walk)]
    #[inline(never)]
    fn cases(
        &mut self,
        cases: &[Case5],
        labels: &mut Labels,
        place: Place,
    ) -> Result<(), AllocError>
        ensures pairs { OnOk result (self.new ≡ least_with self.old (joined (λ c. c (round labels.old place)) (map case_pairs cases.now))) }
        ensures labels { OnOk result (labels.new ≡ labels.old) }
    {
        for case in cases {
            self.case(case, labels, place)?;
        }
        Ok(())
    }

    #[cycle(walk)]
    fn case(&mut self, case: &Case5, labels: &mut Labels, place: Place) -> Result<(), AllocError>
        ensures pairs { OnOk result (self.new ≡ least_with self.old (case_pairs case.now (round labels.old place))) }
        ensures labels { OnOk result (labels.new ≡ labels.old) }
    {
        self.optional(&case.test, place.inside)?;
        self.statements(case.body.as_slice(), labels, place)
    }

    #[cycle(walk)]
    fn otherwise(
        &mut self,
        statement: &Option<Boxed<Stat5>>,
        labels: &mut Labels,
        place: Place,
    ) -> Result<(), AllocError>
        ensures pairs { OnOk result (self.new ≡ least_with self.old (option_pairs (λ s. s (round labels.old place)) (option_map stat_pairs statement.now))) }
        ensures labels { OnOk result (labels.new ≡ labels.old) }
    {
        match statement {
            None => Ok(()),
            Some(statement) => self.statement(statement.get(), labels, place),
        }
    }

    #[cycle(walk)]
    fn catch(
        &mut self,
        catch: &Option<Catch5>,
        labels: &mut Labels,
        place: Place,
    ) -> Result<(), AllocError>
        ensures pairs { OnOk result (self.new ≡ least_with self.old (option_pairs (λ c. c (round labels.old place)) (option_map catch_pairs catch.now))) }
        ensures labels { OnOk result (labels.new ≡ labels.old) }
    {
        match catch {
            None => Ok(()),
            Some(catch) => {
                self.bound(&catch.parameter);
                self.block(&catch.body, labels, place)
            }
        }
    }

    #[cycle(walk)]
    fn finally(
        &mut self,
        block: &Option<Block5>,
        labels: &mut Labels,
        place: Place,
    ) -> Result<(), AllocError>
        ensures pairs { OnOk result (self.new ≡ least_with self.old (option_pairs (λ b. b (round labels.old place)) (option_map block_pairs block.now))) }
        ensures labels { OnOk result (labels.new ≡ labels.old) }
    {
        match block {
            None => Ok(()),
            Some(block) => self.block(block, labels, place),
        }
    }

    #[cycle(walk)]
    #[inline(never)]
    fn for_first(
        &mut self,
        first: &ForFirst5,
        labels: &Labels,
        place: Place,
    ) -> Result<(), AllocError>
        ensures { OnOk result (self.new ≡ least_with self.old (for_first_pairs first.now (round labels.now place))) }
    {
        match first {
            ForFirst5::NoFirst => Ok(()),
            ForFirst5::FirstVar(declared) => self.declarations(declared.as_slice(), place.inside),
            ForFirst5::FirstExpression(expression) => self.expression(expression, place.inside),
        }
    }

    #[cycle(walk)]
    #[inline(never)]
    fn declarations(&mut self, declared: &[Declared5], inside: bool) -> Result<(), AllocError>
        ensures { OnOk result (self.new ≡ least_with self.old (joined (λ d. d inside) (map declared_pairs declared.now))) }
    {
        for variable in declared {
            self.bound(&variable.name);
            self.optional(&variable.init, inside)?;
        }
        Ok(())
    }

    #[cycle(walk)]
    fn optional(&mut self, expression: &Option<Expr5>, inside: bool) -> Result<(), AllocError>
        ensures { OnOk result (self.new ≡ least_with self.old (option_pairs (λ x. x.pairs inside) (option_map found expression.now))) }
    {
        match expression {
            None => Ok(()),
            Some(expression) => self.expression(expression, inside),
        }
    }
}
