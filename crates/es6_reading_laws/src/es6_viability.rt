//! Laws of the model that reads modules: it reads what the standard's rule for semicolons spells, and each fault stands at the first
//! token with which no module goes on, or where too many constructs are open. Each is the contract of a function that does nothing.

ghost use Rattle.es6_reading_laws.specs.es6_viability.Alive.{DepthFaultsAreAlive, DepthFaultsBeginExpressions, DepthFaultsBeginStatements};
ghost use Rattle.es6_reading_laws.specs.es6_viability.Alive.{NoDeadTokenIsPassed, TokensBeforeFaultsAreAlive};
ghost use Rattle.es6_reading_laws.specs.es6_viability.Alive.{TokensBeforeFaultsBeginExpressions, TokensBeforeFaultsBeginStatements};
ghost use Rattle.es6_reading_laws.specs.es6_viability.Fronts.{NoExpressionGoesOn, NoStatementGoesOn, SpelledExpressionsAreRead, SpelledStatementsAreRead};
ghost use Rattle.es6_reading_laws.specs.es6_viability.Spelled.{FaultsAreDead, LexicalFaultsAreReported, NoneIsSpelledPastFaults, ReadModulesAreSpelled, SpelledModulesAreRead, SpelledModulesAreReadOrLimited};
ghost use Rattle.es6_reading_laws.specs.es6_viability.TooDeep.{ExpressionsAreShallow, ExpressionsAreTooDeep, ModulesAreTooDeep};
ghost use Rattle.es6_reading_laws.specs.es6_viability.TooDeep.{ExpressionsPassNoDeepToken, NoDeepTokenIsPassed, StatementsPassNoDeepToken};
ghost use Rattle.es6_reading_laws.specs.es6_viability.TooDeep.{DepthFaultsAreStops, DepthFaultsStandBeforeTheEnd, FaultsStandAtStops};
ghost use Rattle.es6_reading_laws.specs.es6_viability.TooDeep.{LexicalFaultsAreStops, NoStopIsPassed, ReadModulesHaveNoStop};
ghost use Rattle.es6_reading_laws.specs.es6_viability.TooDeep.{StatementsAreShallow, StatementsAreTooDeep, SyntaxFaultsAreStops};

/// Some module begins with the tokens that stand before a fault, unless that is for want of turns.
pub fn tokens_before_faults_are_alive()
    ensures { TokensBeforeFaultsAreAlive }
{}

/// Some module begins with the tokens up to that at which a reader stops for depth.
pub fn depth_faults_are_alive()
    ensures { DepthFaultsAreAlive }
{}

/// A reader stops no later than at the first token with which no module goes on.
pub fn no_dead_token_is_passed()
    ensures { NoDeadTokenIsPassed }
{}

/// A module is read of tokens that spell it by the standard's rule for semicolons, if loops have turns enough and constructs enough
/// may open.
pub fn spelled_modules_are_read()
    ensures { SpelledModulesAreRead }
{}

/// Tokens spell, by the standard's rule for semicolons, what is read of them.
pub fn read_modules_are_spelled()
    ensures { ReadModulesAreSpelled }
{}

/// Whatever turns loops have, a module that tokens spell is read, or the reader stops for want of constructs that may open or of turns.
pub fn spelled_modules_are_read_or_limited()
    ensures { SpelledModulesAreReadOrLimited }
{}

/// No tokens that are the same up to a fault spell a module, unless it is for want of constructs that may open, or of turns.
pub fn none_is_spelled_past_faults()
    ensures { NoneIsSpelledPastFaults }
{}

/// A fault stands at a token with which no module goes on after the tokens before it, unless it is for want of constructs that may
/// open, or of turns.
pub fn faults_are_dead()
    ensures { FaultsAreDead }
{}

/// A lexical fault is reported at a token that is one, and with which no module goes on.
pub fn lexical_faults_are_reported()
    ensures { LexicalFaultsAreReported }
{}

/// An expression that tokens begin with by the standard's rule for semicolons, before what goes on with none, is what is read of them,
/// neither a shorter nor a longer one, or the reader stops for want of constructs that may open or of turns.
pub fn spelled_expressions_are_read()
    ensures { SpelledExpressionsAreRead }
{}

/// The same of a statement or declaration, if no `finally` follows it.
pub fn spelled_statements_are_read()
    ensures { SpelledStatementsAreRead }
{}

/// A reader of an expression stops for depth only at a token at which more constructs are open than may be, in whatever expression tokens
/// of a text spell that begin with those up to it.
pub fn depth_faults_of_expressions_stand_where_too_many_are_open()
    ensures { ExpressionsAreTooDeep }
{}

/// The same of a reader of a statement or declaration.
pub fn depth_faults_of_statements_stand_where_too_many_are_open()
    ensures { StatementsAreTooDeep }
{}

/// The same of a reader of a module.
pub fn depth_faults_of_modules_stand_where_too_many_are_open()
    ensures { ModulesAreTooDeep }
{}

/// At each token of an expression that is read, no more constructs are open in it than may be.
pub fn expressions_are_shallow()
    ensures { ExpressionsAreShallow }
{}

/// At each token of a statement or declaration that is read, no more constructs are open in it than may be.
pub fn statements_are_shallow()
    ensures { StatementsAreShallow }
{}

/// At each token that a reader of expressions passes, no more constructs are open than may be, in whatever expression tokens of a text
/// spell that begin with those up to it.
pub fn expressions_pass_no_deep_token()
    ensures { ExpressionsPassNoDeepToken }
{}

/// The same of a reader of a statement or declaration.
pub fn statements_pass_no_deep_token()
    ensures { StatementsPassNoDeepToken }
{}

/// No token that a reader of a module passes is too deep.
pub fn no_deep_token_is_passed()
    ensures { NoDeepTokenIsPassed }
{}

/// A reader of a module stops no later than at the first token that is dead or too deep.
pub fn no_stop_is_passed()
    ensures { NoStopIsPassed }
{}

/// A fault, unless it is for want of constructs that may open or of turns, stands at the first token that is dead or too deep.
pub fn faults_stand_at_stops()
    ensures { FaultsStandAtStops }
{}

/// A lexical fault stands where the definition has a reader stop, and is what it reports there.
pub fn lexical_faults_are_stops()
    ensures { LexicalFaultsAreStops }
{}

/// So does a syntax fault at a token that tells of nothing outside the profile, and it is what the definition has a reader report there.
pub fn syntax_faults_are_stops()
    ensures { SyntaxFaultsAreStops }
{}

/// A fault for depth doesn't stand at the end of the text.
pub fn depth_faults_stand_before_the_end()
    ensures { DepthFaultsStandBeforeTheEnd }
{}

/// A fault for depth, at a token of tokens in order that isn't empty, stands where the definition has a reader stop, and is what it reports
/// there.
pub fn depth_faults_are_stops()
    ensures { DepthFaultsAreStops }
{}

/// No token of a module that is read is dead or too deep.
pub fn read_modules_have_no_stop()
    ensures { ReadModulesHaveNoStop }
{}

/// Some expression begins with the tokens that stand before a fault of a reader of expressions.
pub fn tokens_before_faults_begin_expressions()
    ensures { TokensBeforeFaultsBeginExpressions }
{}

/// Some statement or declaration begins with the tokens that stand before a fault of a reader of statements.
pub fn tokens_before_faults_begin_statements()
    ensures { TokensBeforeFaultsBeginStatements }
{}

/// Some expression begins with the tokens up to that at which a reader of expressions stops for depth.
pub fn depth_faults_begin_expressions()
    ensures { DepthFaultsBeginExpressions }
{}

/// Some statement or declaration begins with the tokens up to that at which a reader of statements stops for depth.
pub fn depth_faults_begin_statements()
    ensures { DepthFaultsBeginStatements }
{}

/// No expression goes on with the token at which a reader of it stops, unless it is for want of constructs that may open or of turns.
pub fn no_expression_goes_on_with_a_fault()
    ensures { NoExpressionGoesOn }
{}

/// No statement or declaration goes on with the token at which a reader of it stops, unless it is for want of these.
pub fn no_statement_goes_on_with_a_fault()
    ensures { NoStatementGoesOn }
{}
