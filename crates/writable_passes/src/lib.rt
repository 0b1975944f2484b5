//! Laws of what the passes make of cores that can be written. Each is the contract of a function that does nothing.
#![tactic(auto)]

ghost use Rattle.writable_passes.specs.Laws.{AllKeepWritable, MachinesKeepWritable, NamesWillFit, ScopesKeepRoom, ScopesKeepWritable, YieldsKeepWritable, YieldsLeaveRoom};
ghost use Rattle.writable_passes.specs.Ready.{ReadyMayBeEmitted};

/// A core that can be written can be so behind the flattening of scopes, and labels have as much room.
pub fn cores_stay_writable_without_scopes()
    ensures writable { ScopesKeepWritable }
    ensures room { ScopesKeepRoom }
{}

/// And behind that of yields, if labels have room, and so many names; the labels of turns have theirs then.
pub fn cores_stay_writable_without_yields()
    ensures writable { YieldsKeepWritable }
    ensures room { YieldsLeaveRoom }
{}

/// And behind the states of generators; so behind all three passes.
pub fn cores_stay_writable_with_machines()
    ensures machines { MachinesKeepWritable }
    ensures all { AllKeepWritable }
    ensures ready { ReadyMayBeEmitted }
{}

/// No more names are drawn than are counted before the passes.
pub fn names_fit_behind_passes()
    ensures { NamesWillFit }
{}
