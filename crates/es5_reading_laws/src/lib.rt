//! Laws of the model that reads scripts, beyond those of `es5_reading`. Each is the contract of a function that does nothing.
#![tactic(auto)]

ghost use Rattle.es5_reading_laws.specs.Laws.{AnswersLast, AreWithin, FaultsAreDead, FaultsSayWhatStandsThere, FaultsStay, ShallowScriptsAreRead, TextsAreInOrder};

/// The tokens of a text stand one behind the other.
pub fn tokens_of_a_text_stand_in_order()
    ensures { TextsAreInOrder }
{}

/// Where at no token of a script more than so many constructs are open, no more are open at once in its derivation.
pub fn open_constructs_bound_derivations()
    ensures { AreWithin }
{}

/// A script among whose tokens every semicolon stands is read exactly so, if at no token more than 2,048 constructs are open.
pub fn shallow_scripts_are_read()
    ensures { ShallowScriptsAreRead }
{}

/// A fault, but one for want of constructs that may open or of turns, stays where more may open and loops have more turns, whatever
/// follows the token that it stands at.
pub fn faults_stay_with_more_room()
    ensures { FaultsStay }
{}

/// What is answered stays where loops have more turns, unless it is that they had too few.
pub fn answers_stay_with_more_turns()
    ensures { AnswersLast }
{}

/// A fault, but one for want of constructs that may open or of turns, stands at a token with which no script goes on after the
/// tokens before it, where every semicolon stands among the tokens.
pub fn faults_stand_where_no_script_goes_on()
    ensures { FaultsAreDead }
{}

/// A fault for what the profile leaves out says what stands there: no directive, `with`, the `in` of a for-in statement, or a
/// regular expression.
pub fn faults_say_what_stands_there()
    ensures { FaultsSayWhatStandsThere }
{}
