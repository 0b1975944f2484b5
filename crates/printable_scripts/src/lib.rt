//! Laws of the scripts that cores become. Each is the contract of a function that does nothing.
#![tactic(auto)]

ghost use Rattle.printable_scripts.specs.Laws.{HelpedArePrintable, HelpersMayStandInside, HostNamesAreHosts, ReadyArePrintable, StatementsMayStandInside};

/// Statements of a script that may be printed may stand in the body of a function, and so may helpers of the text.
pub fn helpers_may_stand_inside()
    ensures statements { StatementsMayStandInside }
    ensures helpers { HelpersMayStandInside }
{}

/// The names that hosts are given may be names in a script, each once.
pub fn host_names_may_stand_in_scripts()
    ensures { HostNamesAreHosts }
{}

/// The script of a core that is ready for the passes may be printed behind them, with helpers of the text.
pub fn scripts_behind_passes_may_be_printed()
    ensures ready { ReadyArePrintable }
    ensures helped { HelpedArePrintable }
{}
