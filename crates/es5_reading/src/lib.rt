//! How scripts of ECMAScript 5.1 are read: a model of the parser over lists of tokens, and its laws.
//!
//! `specs/` has the model, one reader for each that the parser has. Nobody has to believe it: the laws say what is read in the
//! terms of the grammar of `es5_ast`. The functions here carry the laws as their contracts; they do nothing when they run.
#![tactic(auto)]

ghost use Rattle.es5_reading.specs.Examples.{AreRead};
ghost use Rattle.es5_reading.specs.Laws.{AreAccepted, AreAlike, AreFilledOnce, FaultsAreInside, IsComplete, IsFilled, IsReadExactly, IsReadInFull, IsScript, IsSound, IsUnambiguous, IsUnique, ReadingsStay, ReadingsStayInserting};
ghost use Rattle.std.specs.Prelude.{false, true};

/// What is read without inserted semicolons is derived, with exact spans and with no more constructs open than may open.
pub fn what_is_read_is_derived()
    ensures { IsSound }
{}

/// What the grammar derives is read to its end, as its own tree but for spans and sites, if constructs enough may open; with exact
/// spans it is read exactly so, if as many may open as are open in the derivation.
pub fn what_is_derived_is_read()
    ensures every { IsComplete }
    ensures exact { IsReadExactly false }
{}

/// No tokens derive two programs, where every semicolon stands among them.
pub fn derivations_give_one_script()
    ensures exact { IsUnambiguous }
    // The trees are the same but for spans and sites, where these may be any.
    ensures aside { AreAlike }
{}

/// No tokens spell two scripts, whatever semicolons are inserted among them.
pub fn tokens_spell_one_script()
    ensures exact { IsUnique }
    // The semicolons stand at the same places, and the trees are the same but for spans and sites, where these may be any.
    ensures aside { AreFilledOnce }
{}

/// What is read is read so where more constructs may open and loops have more turns.
pub fn readings_stay_with_more_room()
    ensures { ReadingsStay }
{}

/// What is read without inserted semicolons is read so where semicolons are inserted.
pub fn readings_stay_where_semicolons_are_inserted()
    ensures { ReadingsStayInserting }
{}

/// What the grammar derives from tokens among which every semicolon stands is read so where semicolons are inserted, too.
pub fn what_is_spelled_in_full_is_read()
    ensures every { IsReadInFull }
    ensures exact { IsReadExactly true }
{}

/// A script among whose tokens every semicolon stands is read exactly so, if at most 2,048 constructs are open at once in it.
pub fn scripts_within_the_limit_are_read()
    ensures { AreAccepted }
{}

/// A semicolon is inserted only where no program goes on, and what is read so is derived from the filled tokens.
pub fn semicolons_are_inserted_where_nothing_goes_on()
    ensures { IsFilled }
{}

/// The statements of a script are spelled by its tokens, of which the first is the directive of strict code.
pub fn scripts_are_spelled()
    ensures { IsScript }
{}

/// A fault of a script stands at one of its tokens, or at the end.
pub fn faults_stand_at_tokens()
    ensures { FaultsAreInside }
{}

/// Small scripts are read, and texts that are none stop where they should.
pub fn small_scripts_are_read()
    ensures { AreRead }
{}
