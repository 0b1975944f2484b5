//! Laws of the model that reads modules, beyond those of `es6_reading`. Each is the contract of a function that does nothing.
#![tactic(auto)]

pub mod es6_outside_laws;
pub mod es6_viability;

ghost use Rattle.es6_reading_laws.specs.Breaks.{AreReadAtBreaks, BreaksAreInsertions, FaultsAreDeadAtBreaks};
ghost use Rattle.es6_reading_laws.specs.Fronts.{ExpressionsAreRead, IsOneExpression, MisfitsAreNoParameters, MisfitsAreNoPatterns, StatementsAreRead};

/// A module is read of tokens among which semicolons are missing only at the ends of lines, before `}` and at the end, where the next
/// token goes on with nothing, if loops have turns enough and constructs enough may open.
pub fn what_is_spelled_at_breaks_is_read()
    ensures { AreReadAtBreaks }
{}

/// What is spelled so is spelled by the standard's rule, which puts a semicolon only where no module goes on.
pub fn breaks_are_where_semicolons_are_inserted()
    ensures { BreaksAreInsertions }
{}

/// A fault stands at a token with which no such module goes on after the tokens before it, unless it is for want of constructs that
/// may open, or of turns.
pub fn faults_stand_where_no_module_at_breaks_goes_on()
    ensures { FaultsAreDeadAtBreaks }
{}

/// An expression that tokens begin with, if semicolons are put in at breaks, is what is read of them, where nothing goes on behind it:
/// no shorter front of them is read, and no longer one.
pub fn expressions_at_breaks_are_read()
    ensures { ExpressionsAreRead }
{}

/// The same of a statement or declaration, behind which no `finally` stands.
pub fn statements_at_breaks_are_read()
    ensures { StatementsAreRead }
{}

/// No tokens by themselves spell two expressions.
pub fn derivations_give_one_expression()
    ensures { IsOneExpression }
{}

/// The tokens that spell an expression with a misfit spell no pattern.
pub fn misfits_are_no_patterns()
    ensures { MisfitsAreNoPatterns }
{}

/// The tokens of an expression, or of parentheses that only an arrow's parameters have, spell no parameters of an arrow, where no
/// depth makes parameters of it.
pub fn misfits_are_no_parameters()
    ensures { MisfitsAreNoParameters }
{}
