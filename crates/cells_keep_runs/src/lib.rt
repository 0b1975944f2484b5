//! That a core does behind the flattening of scopes what it did before: the laws on the way to that. Each law is the contract of a function
//! that does nothing.
#![tactic(auto)]

ghost use Rattle.cells_keep_runs.specs.Acted.{OperationsActAlike};
ghost use Rattle.cells_keep_runs.specs.Alike.{UntouchedAreAlike};
ghost use Rattle.cells_keep_runs.specs.Apart.{FunctionsAreApart, ModulesAreApart, NoneDeclared, OthersAreKept};
ghost use Rattle.cells_keep_runs.specs.Outset.{ModulesAreRound};
ghost use Rattle.cells_keep_runs.specs.Passed.{CopiesAreTaken, PlacesAreKept, ScopesAreEntered, ScopesAreLeft, ScopesEnd};
ghost use Rattle.cells_keep_runs.specs.Begun.{UntouchedHeadsKeepRelated};
ghost use Rattle.cells_keep_runs.specs.Called.{CallsEnterAlike};
ghost use Rattle.cells_keep_runs.specs.Callings.{CallsGoOn};
ghost use Rattle.cells_keep_runs.specs.Carried.{UntouchedKeepRelated};
ghost use Rattle.cells_keep_runs.specs.Classed.{ClassesAreMadeAlike, HeritagesAreTakenAlike, MembersArePutAlike};
ghost use Rattle.cells_keep_runs.specs.Closed.{ClosuresAreMadeAlike};
ghost use Rattle.cells_keep_runs.specs.Copied.{CopiesBeginAlike};
ghost use Rattle.cells_keep_runs.specs.Copying.{CopiesMayBeCopied, CopyableStays, ScopesMayBeCopied};
ghost use Rattle.cells_keep_runs.specs.Counted.{StepsFit};
ghost use Rattle.cells_keep_runs.specs.Course.{StepsAreMatched};
ghost use Rattle.cells_keep_runs.specs.Declares.{DeclaresMeasures};
ghost use Rattle.cells_keep_runs.specs.Ended.{AbruptEndsAlike, CellsArePassed, ScopesArePassed, StatementsEndAlike};
ghost use Rattle.cells_keep_runs.specs.Entered.{ScopesAreEnteredAlike};
ghost use Rattle.cells_keep_runs.specs.Entering.{NamesComeOnce};
ghost use Rattle.cells_keep_runs.specs.Entries.{CallsAreRemembered};
ghost use Rattle.cells_keep_runs.specs.Found.{NamesAreFoundOn};
ghost use Rattle.cells_keep_runs.specs.Owed.{FittingIsReady};
ghost use Rattle.cells_keep_runs.specs.Given.{LinksTakeValues, PlainFramesTakeValues, StatementsTakeValues};
ghost use Rattle.cells_keep_runs.specs.Going.{OperationsGoOnAlike, PrimitivesBeginAlike};
ghost use Rattle.cells_keep_runs.specs.Grown.{CellsStay, EnvironmentsStay, FramesStay};
ghost use Rattle.cells_keep_runs.specs.Handled.{HandlersTakeThrows, ParametersAreRemembered};
ghost use Rattle.cells_keep_runs.specs.Kept.{FunctionsAreFlattened, KindsStay, RunsAreKept};
ghost use Rattle.cells_keep_runs.specs.KeptFound.{CodeGoesOnToFit, RunsAreKeptWhereFound};
ghost use Rattle.cells_keep_runs.specs.Linked.{CellsTakeReads, CopiesAreDropped, CopiesGoOnAlike, LinksEndAlike, ReferencesAreReadAlike};
ghost use Rattle.cells_keep_runs.specs.Links.{UntouchedLinksKeepRelated};
ghost use Rattle.cells_keep_runs.specs.Named.{CallsHaveTheirNames};
ghost use Rattle.cells_keep_runs.specs.Opened.{BeginsOpenCells, CopiesAreMade};
ghost use Rattle.cells_keep_runs.specs.Placing.{CodeStays};
ghost use Rattle.cells_keep_runs.specs.Places.{NewRecordsComeFirst, NewRecordsHideNothing, WritesAreSeen};
ghost use Rattle.cells_keep_runs.specs.Recorded.{CodeStaysInRecords};
ghost use Rattle.cells_keep_runs.specs.Recounted.{RecordsAreCounted};
ghost use Rattle.cells_keep_runs.specs.Renewed.{ScopesAreRemembered};
ghost use Rattle.cells_keep_runs.specs.Rounds.{RoundsGoOn};
ghost use Rattle.cells_keep_runs.specs.Seen.{NamesAreRead, NamesAreWritten};
ghost use Rattle.cells_keep_runs.specs.Standings.{NewRecordsAreAway};
ghost use Rattle.cells_keep_runs.specs.Started.{BeginningsAreRelated};
ghost use Rattle.cells_keep_runs.specs.Stays.{CallsNamesAreSeen, CopiesNamesAreSeen, KeptNamesAreSeen, ParametersAreSeen, PatternsAreSeen, ScopesNamesAreSeen, SeenNamesStay, SeenOutside, SeenWithin, SharedNamesAreHeld};
ghost use Rattle.cells_keep_runs.specs.Taken.{ValuesAreTakenAlike};
ghost use Rattle.cells_keep_runs.specs.Turned.{ContextsEndAlike, ListsRunOut, OtherCallsAreAlike, TurnsAreAlike};
ghost use Rattle.cells_keep_runs.specs.Writes.{SharedAreWritten, UnsharedAreWritten};
ghost use Rattle.cells_keep_runs.specs.Ways.{CopiesHaveTheirOwn, ReadsOpenCells, ResetsAreMade, WritesAreLeft, WritesBeginAtCells, WritesFillCells};
ghost use Rattle.cells_keep_runs.specs.Statements.{UntouchedStatementsKeepRelated};
ghost use Rattle.cells_keep_runs.specs.Shapes.{ExpressionsAreBegunAndLinked, ListsAreFlattenedByParts, StatementsBecome};

/// A list of statements is flattened statement by statement: a scope gives the resets of its names and what its body gives, each other
/// statement gives one.
pub fn lists_are_flattened_by_parts()
    ensures parts { ListsAreFlattenedByParts }
    ensures one { StatementsBecome }
{}

/// An expression is flattened link by link, from its head on.
pub fn expressions_are_begun_and_linked()
    ensures { ExpressionsAreBegunAndLinked }
{}

/// A write changes what is found of this name in this record and nothing else, and a record more hides nothing of what stands further out.
pub fn writes_are_seen<M>()
    ensures write { WritesAreSeen M }
    ensures more { NewRecordsHideNothing M }
    ensures first { NewRecordsComeFirst M }
{}

/// A shared name is read from its cell.
pub fn reads_open_cells()
    ensures { ReadsOpenCells }
{}

/// A shared name that is written is read first; its cell waits for the value, takes it, and is dropped where there comes none.
pub fn writes_fill_cells()
    ensures begin { WritesBeginAtCells }
    ensures fill { WritesFillCells }
    ensures leave { WritesAreLeft }
{}

/// The statements that a scope begins with reset its names: an unshared one is uninitialized, a shared one holds a new cell that is.
pub fn resets_are_made()
    ensures { ResetsAreMade }
{}

/// A shared name that is copied holds a cell of its own with the value of now.
pub fn copies_have_their_own()
    ensures { CopiesHaveTheirOwn }
{}

/// A flattened expression that begins reads the shared names that its links write, the last one first, and their cells wait.
pub fn begins_open_cells()
    ensures { BeginsOpenCells }
{}

/// The links that a copy becomes give each shared name a cell of its own with the value that it had.
pub fn copies_are_made()
    ensures { CopiesAreMade }
{}

/// An operation that names no variable does the same on two cores, at the same values and with the same heap, and goes on along related
/// links. The relations are given as the values that stand for their pairs, and may be any that carry what an operation leaves.
pub fn untouched_operations_are_alike<V, W, X>()
    ensures { UntouchedAreAlike V W X }
{}

/// A scope is entered in a step and ends in two; what ends statements early passes each scope in two; a copy takes one.
pub fn scopes_are_passed()
    ensures entered { ScopesAreEntered }
    ensures ended { ScopesEnd }
    ensures left { ScopesAreLeft }
    ensures copied { CopiesAreTaken }
{}

/// Related frames stand at the same place, so that an event carries the same.
pub fn places_are_kept()
    ensures { PlacesAreKept }
{}

/// What belongs together belongs together where there are more records: images of environments, the cells along them, and frames.
pub fn frames_stay_related()
    ensures environments { EnvironmentsStay }
    ensures cells { CellsStay }
    ensures frames { FramesStay }
{}

/// An operation that names no variable comes from related states to related states.
pub fn untouched_operations_keep_the_relation()
    ensures { UntouchedKeepRelated }
{}

/// An expression whose head names nothing begins in related states, and comes to related ones: the source in a step, the target behind the
/// cells that it reads first.
pub fn untouched_heads_keep_the_relation()
    ensures { UntouchedHeadsKeepRelated }
{}

/// A link that names nothing is taken from related states to related ones, from the same current value, a step each.
pub fn untouched_links_keep_the_relation()
    ensures { UntouchedLinksKeepRelated }
{}

/// A statement that is no scope and no yield begins in related states, and comes to related ones, in a step each.
pub fn untouched_statements_keep_the_relation()
    ensures { UntouchedStatementsKeepRelated }
{}

/// A value that is handed to the top frame of related states does the same in both: to one that waits with links, to one that holds no part
/// of a core, and to a choice, a loop, a return or a throw.
pub fn values_keep_the_relation()
    ensures links { LinksTakeValues }
    ensures plain { PlainFramesTakeValues }
    ensures statements { StatementsTakeValues }
{}

/// Writes, the records of scopes and their copies, of calls and of handlers leave each name of the source where it should be in the target.
pub fn names_are_where_they_should_be()
    ensures unshared { UnsharedAreWritten }
    ensures shared { SharedAreWritten }
    ensures scopes { ScopesAreRemembered }
    ensures calls { CallsAreRemembered }
    ensures handlers { ParametersAreRemembered }
{}

/// A name that both machines find is read and written alike, an unshared one where it stands, a shared one in its cell.
pub fn names_are_read_and_written_alike()
    ensures read { NamesAreRead }
    ensures written { NamesAreWritten }
{}

/// The source enters a scope in a step, and the target resets its names: what they come to is related, with the scope's record more.
pub fn scopes_are_entered_alike()
    ensures { ScopesAreEnteredAlike }
{}

/// A copy begins in both machines, and comes to related states, with the new record more.
pub fn copies_begin_alike()
    ensures { CopiesBeginAlike }
{}

/// A call of a closure begins alike, and comes to related states, with its record more.
pub fn calls_enter_alike()
    ensures { CallsEnterAlike }
{}

/// A call of a function of the library or of a host does the same in both, and so does one of what is no function.
pub fn other_calls_are_alike()
    ensures { OtherCallsAreAlike }
{}

/// A closure is made alike, with the cells of the names that it keeps.
pub fn closures_are_made_alike()
    ensures { ClosuresAreMadeAlike }
{}

/// A class is made alike, whether or not it has a heritage, and so are its members.
pub fn classes_are_made_alike()
    ensures classes { ClassesAreMadeAlike }
    ensures heritages { HeritagesAreTakenAlike }
    ensures members { MembersArePutAlike }
{}

/// A handler takes a throw in both: the target makes a record for the parameter and resets the names of the pattern, and there is the new
/// record more.
pub fn handlers_take_throws_alike()
    ensures { HandlersTakeThrows }
{}

/// An expression that begins with a primitive begins alike.
pub fn primitives_begin_alike()
    ensures { PrimitivesBeginAlike }
{}

/// An operation on no name and no cell, which makes no cell, class or member, does the same in both, and a value goes on to it alike.
pub fn operations_act_alike()
    ensures acted { OperationsActAlike }
    ensures gone { OperationsGoOnAlike }
{}

/// At the end of links both machines hand the value on. What a copy gives is dropped. A reference is read alike for a name, and a shared
/// name takes what was read.
pub fn links_end_alike()
    ensures ended { LinksEndAlike }
    ensures dropped { CopiesAreDropped }
    ensures followed { CopiesGoOnAlike }
    ensures read { ReferencesAreReadAlike }
    ensures taken { CellsTakeReads }
{}

/// The top frame takes a value alike, but where a shared name waits for it or a class or a generator's states are made.
pub fn values_are_taken_alike()
    ensures { ValuesAreTakenAlike }
{}

/// A turn of an operation does the same in both, with what it asks of namespaces and generators.
pub fn turns_are_alike()
    ensures { TurnsAreAlike }
{}

/// A context ends alike: a call gives what it returns, and behind the outermost context the next body runs, or the run ends. A list of
/// statements that has run out ends in both, or the source comes to what stands behind its scope.
pub fn contexts_end_alike()
    ensures contexts { ContextsEndAlike }
    ensures lists { ListsRunOut }
{}

/// The end of statements does the same in both, and so does a throw, a return or a jump, but for a throw at a handler and the end of a
/// context. In the target these go past the cells that wait, and in the source past the scopes round them.
pub fn statements_end_alike()
    ensures ended { StatementsEndAlike }
    ensures abrupt { AbruptEndsAlike }
    ensures cells { CellsArePassed }
    ensures scopes { ScopesArePassed }
{}

/// The beginnings of a core's run and of that behind the flattening are related, if no name of a module's scopes is one of its own.
pub fn beginnings_are_related()
    ensures { BeginningsAreRelated }
{}

/// The record of a call has behind the flattening what it has before, if the names of the function's scopes aren't its own name, and those
/// whose cells its closures keep are others.
pub fn calls_have_their_names()
    ensures { CallsHaveTheirNames }
{}

/// In a lawful core no name of a module's scopes is one of its own, none of a function's scopes is its own name, the names whose cells it keeps
/// are shared ones of others, of which none is one of its own, and no function is declared in another as in scripts.
pub fn lawful_names_are_apart()
    ensures modules { ModulesAreApart }
    ensures functions { FunctionsAreApart }
    ensures declared { NoneDeclared }
    ensures kept { OthersAreKept }
{}

/// Both machines find the names of a scope that is entered, and of its copy, of a handler, and of a call with the names whose cells its
/// closure keeps. They go on to find a name where there is a record more, and within a record that hasn't the name, and out of it.
/// A shared name has a value of programs, or none.
pub fn names_stay_seen()
    ensures scopes { ScopesNamesAreSeen }
    ensures calls { CallsNamesAreSeen }
    ensures kept { KeptNamesAreSeen }
    ensures patterns { PatternsAreSeen }
    ensures parameters { ParametersAreSeen }
    ensures copies { CopiesNamesAreSeen }
    ensures more { SeenNamesStay }
    ensures within { SeenWithin }
    ensures outside { SeenOutside }
    ensures held { SharedNamesAreHeld }
{}

/// A scope that is entered may be copied, and so may its copy, also where there is a record more, if that isn't one of the same home with one of
/// its names.
pub fn scopes_may_be_copied()
    ensures entered { ScopesMayBeCopied }
    ensures copied { CopiesMayBeCopied }
    ensures more { CopyableStays }
{}

/// Each step of the source from related configurations that are ready for it is matched: the target takes some steps too, or the source goes
/// on alone out of scopes, or both ask or end alike, and they come to related configurations.
pub fn steps_are_matched()
    ensures { StepsAreMatched }
{}

/// The pass flattens each function, and a function is that of a derived class behind it, or of none, as before.
pub fn functions_are_flattened()
    ensures flattened { FunctionsAreFlattened }
    ensures kinds { KindsStay }
{}

/// A core does behind the flattening what it did before: the same events, and the same ending, if each pair of configurations that the two
/// runs come to is ready.
pub fn runs_are_kept_where_ready()
    ensures { RunsAreKept }
{}

/// A step that makes no record leaves all code of a state where it may stand, by the environment along which it runs. Where it may is given by
/// the values that stand for the places, and is any relation that holds of the parts of code where it holds of the code.
pub fn code_stays_where_it_may_stand<V, W, X, Y>()
    ensures { CodeStays V W X Y }
{}

/// So does what makes a record, if what runs along the new environment may stand there: a scope, a handler, a copy and a call, and the next
/// body of a module.
pub fn code_stays_in_new_records<V, W, X, Y>()
    ensures { CodeStaysInRecords V W X Y }
{}

/// A step leaves as much of something in each context as code there had, at most, where that is at most one and code runs once where it stands,
/// and as many contexts. A scope and a handler use up what their names have themselves, and a call is one context more. So it is with how often
/// code declares a name.
pub fn code_runs_once()
    ensures others { StepsFit }
    ensures records { RecordsAreCounted }
    ensures declares { DeclaresMeasures }
{}

/// The code of a core that fits does so wherever its run comes to. There each configuration is ready, or its step leaves, if both machines find
/// the names and what makes a record may make it.
pub fn fitting_code_is_ready()
    ensures course { CodeGoesOnToFit }
    ensures ready { FittingIsReady }
{}

/// A core whose code fits does behind the flattening what it did before, if both machines find the names wherever the two runs come to, and what
/// makes a record may make it.
pub fn runs_are_kept_where_found()
    ensures { RunsAreKeptWhereFound }
{}

/// A name that is found along an environment goes on to be found where there is a record more, if that isn't a newer one of the same home with the
/// name, and within a record that hasn't it; and what closures mention of names further out is found from wherever they are called.
pub fn names_are_found_on()
    ensures { NamesAreFoundOn }
{}

/// What is round code along an environment stays so where there is a record more, has a scope ready to be entered, and is round what stands in it
/// and in a handler; and it is round the same code along a copy of the innermost record, which may be made.
pub fn rounds_go_on()
    ensures { RoundsGoOn }
{}

/// A closure may be made of what is round it, and when it is called there is round its statements what they mention.
pub fn calls_go_on()
    ensures { CallsGoOn }
{}

/// At the beginning of a run the names of all modules are round the code of each.
pub fn modules_are_round()
    ensures { ModulesAreRound }
{}

/// Where a scope or a handler is entered, no record of the activation has a name of it that comes once, and what is left to declare is right with the
/// new record, and with one that has no such name. All other contexts are of other activations than the present one, and a call's is another than all.
pub fn names_come_once()
    ensures { NamesComeOnce }
{}

/// A record whose names are bound nowhere along the present environment, and come once, leaves alone what is found along it and further out, and along
/// environments of other activations.
pub fn new_records_are_away()
    ensures { NewRecordsAreAway }
{}
