//! Laws of the model that reads modules: what a fault reports is what the definition has a reader report there, also of what is outside
//! the profile. Each is the contract of a function that does nothing.

ghost use Rattle.es6_reading_laws.specs.es6_outside_laws.Reported.{ExpressionFaultsAreReported, FaultsAreReported, StatementFaultsAreReported};

/// A fault at a token, unless it is for want of constructs that may open or of turns, is what the definition has a reader report there.
pub fn faults_are_reported()
    ensures { FaultsAreReported }
{}

/// Where a reader of an expression reports a construct outside the profile, an expression would go on with the token of another kind, and
/// where it reports a syntax fault, none would.
pub fn expression_faults_are_reported()
    ensures { ExpressionFaultsAreReported }
{}

/// The same of a reader of a statement or declaration.
pub fn statement_faults_are_reported()
    ensures { StatementFaultsAreReported }
{}
