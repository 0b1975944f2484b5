//! How modules of ECMAScript 2015 are read: a model of the parser over lists of tokens, and its laws.
//!
//! `specs/` has the model, one reader for each that the parser has. Nobody has to believe it: the laws say what is read in the
//! terms of the grammar of `es6_ast`. The functions here carry the laws as their contracts; they do nothing when they run.
#![tactic(auto)]

ghost use Rattle.es6_reading.specs.Examples.{AreRead, AreStopped, IsDeepest};
ghost use Rattle.es6_reading.specs.Laws.{AreShallow, AreSpelled, FaultsAreDead, FaultsAreInside, FaultsAreLocal, FaultsSayWhatStandsThere, FaultsStay, IsComplete, IsInserted, IsReadInFull, IsSound, IsUnambiguous, IsUnique, LinksAreRead, ReadingsStay, ReadingsStayInserting, StandInOrder};
ghost use Rattle.es6_reading.specs.Program.{IsProgramRead};
ghost use Rattle.es6_reading.specs.Refinements.{AreRefined, ComeFromExpressions};

/// What is read without inserted semicolons is derived from all of the tokens, with exact spans.
pub fn what_is_read_is_derived()
    ensures { IsSound }
{}

/// A module that the grammar derives is read exactly so without inserted semicolons, if loops have turns enough and constructs
/// enough may open.
pub fn what_is_derived_is_read()
    ensures { IsComplete }
{}

/// No tokens derive two modules, where every semicolon stands among them.
pub fn derivations_give_one_module()
    ensures { IsUnambiguous }
{}

/// A module that is read is spelled by the tokens: it is derived from them with semicolons put in (11.9), each of them only where
/// the grammar allows one and before a token with which it has nothing to go on.
pub fn modules_are_spelled()
    ensures { AreSpelled }
{}

/// The tokens of a text stand one behind the other, and none but the last is empty.
pub fn tokens_of_a_text_stand_in_order()
    ensures { StandInOrder }
{}

/// At each token of a module that is read at most 256 of its constructs are open, where the tokens stand one behind another.
pub fn modules_are_shallow()
    ensures { AreShallow }
{}

/// No tokens spell two modules, whatever semicolons are put in among them.
pub fn tokens_spell_one_module()
    ensures { IsUnique }
{}

/// A semicolon is inserted only before a token with which no module goes on that is read without inserting any, and what is read
/// so is derived from the tokens with the semicolons put in.
pub fn semicolons_are_inserted_where_nothing_goes_on()
    ensures { IsInserted }
{}

/// A fault of a module stands at one of its tokens, or at the end.
pub fn faults_stand_at_tokens()
    ensures { FaultsAreInside }
{}

/// A fault of a module says what stands at it: that it is a lexical one, and of which kind, exactly where a lexical fault stands
/// (unless too many constructs are open there, or a loop's turns are used up), and a rule of the profile only at a token that the
/// rule speaks of.
pub fn faults_say_what_stands_there()
    ensures { FaultsSayWhatStandsThere }
{}

/// A fault rests on the tokens up to the one that it stands at, whatever follows.
pub fn faults_rest_on_no_later_token()
    ensures { FaultsAreLocal }
{}

/// A fault stays where more constructs may open and loops have more turns, whatever follows the token that it stands at, unless it
/// is for want of these: no tokens that begin so are read.
pub fn faults_stay_with_more_room()
    ensures { FaultsStay }
{}

/// What is read is read so where more constructs may open and loops have more turns.
pub fn readings_stay_with_more_room()
    ensures { ReadingsStay }
{}

/// What is read without inserted semicolons is read so where semicolons are inserted.
pub fn readings_stay_where_semicolons_are_inserted()
    ensures { ReadingsStayInserting }
{}

/// A module that the grammar derives from tokens among which every semicolon stands is read exactly so where semicolons are inserted,
/// if loops have turns enough and constructs enough may open.
pub fn what_is_spelled_in_full_is_read()
    ensures { IsReadInFull }
{}

/// Without inserted semicolons a fault stands at a token with which no module goes on after the tokens before it, unless it is for
/// want of constructs that may open, or of turns.
pub fn faults_stand_where_no_module_goes_on()
    ensures { FaultsAreDead }
{}

/// Small modules are read to their end.
pub fn small_modules_are_read()
    ensures { AreRead }
{}

/// Texts that are no module stop at their first dead token, with the reason that the profile has for it.
pub fn other_texts_stop_where_no_module_goes_on()
    ensures { AreStopped }
{}

/// The 257th construct that is open at a token stops the reader there.
pub fn one_construct_too_many_stops()
    ensures { IsDeepest }
{}

/// A program of four modules, with classes, generators, patterns and templates, is read.
pub fn a_program_is_read()
    ensures { IsProgramRead }
{}

/// What an expression is refined to, as a pattern or as parameters, is spelled by the tokens that spell the expression.
pub fn derived_expressions_are_refined()
    ensures { AreRefined }
{}

/// What tokens spell as a pattern or as parameters, they spell as an expression that is refined to it.
pub fn derived_patterns_come_from_expressions()
    ensures { ComeFromExpressions }
{}

/// Imports and exports of names that are derived are read exactly so.
pub fn derived_imports_and_exports_of_names_are_read()
    ensures { LinksAreRead }
{}
