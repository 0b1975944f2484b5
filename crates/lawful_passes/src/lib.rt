//! Laws of what the passes make of lawful cores. Each is the contract of a function that does nothing.
#![tactic(auto)]

ghost use Rattle.lawful_passes.specs.Laws.{AllKeepLaw, BothKeepLaw, MachinesKeepLaw, ScopesKeepLabels, StatesStayFew, YieldsKeepLaw};

/// A lawful core is lawful behind the flattening of yields, for as many hosts, if its labels differ.
pub fn lawful_cores_stay_lawful_without_yields()
    ensures { YieldsKeepLaw }
{}

/// Labels that differ do so behind the flattening of scopes, so a lawful core is lawful behind both flattenings.
pub fn lawful_cores_stay_lawful_without_scopes_and_yields()
    ensures labels { ScopesKeepLabels }
    ensures both { BothKeepLaw }
{}

/// What these leave of a lawful core is lawful where generators become machines, if their states can be numbered: they can, if few nodes
/// become states. So a lawful core is lawful behind all three passes.
pub fn lawful_cores_stay_lawful_with_machines()
    ensures machines { MachinesKeepLaw }
    ensures few { StatesStayFew }
    ensures all { AllKeepLaw }
{}
