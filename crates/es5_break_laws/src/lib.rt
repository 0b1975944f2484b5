//! Laws of the model that reads scripts, where semicolons are left out. Each is the contract of a function that does nothing.
#![tactic(auto)]

ghost use Rattle.es5_break_laws.specs.Breaks.{AreReadAtBreaks, BreaksAreInsertions, FaultsAreDeadAtBreaks, ScriptFaultsAreDeadAtBreaks, ScriptsAreReadAtBreaks};

/// The statements of a program are read of tokens among which semicolons are missing only at the ends of lines, before `}` and at the
/// end, where the next token goes on with nothing, if loops have turns enough and no more constructs are open than may.
pub fn scripts_at_breaks_are_read()
    ensures { AreReadAtBreaks }
{}

/// What is spelled so is spelled by the standard's rule, which puts a semicolon only where no program goes on.
pub fn breaks_are_where_semicolons_are_inserted()
    ensures { BreaksAreInsertions }
{}

/// A fault stands at a token with which no such program goes on after the tokens before it, unless it is for want of constructs that
/// may open, or of turns.
pub fn faults_stand_where_no_script_at_breaks_goes_on()
    ensures { FaultsAreDeadAtBreaks }
{}

/// A whole script that tokens spell so is read exactly so, where at most 2,048 constructs are open, if loops have turns enough.
pub fn whole_scripts_at_breaks_are_read()
    ensures { ScriptsAreReadAtBreaks }
{}

/// A fault of a whole script stands where none that is spelled so goes on, the directive of strict code included.
pub fn faults_of_whole_scripts_stand_where_none_goes_on()
    ensures { ScriptFaultsAreDeadAtBreaks }
{}
