//! What is seen of two runs.

use es_outside::Seen;
use es_text::Place;
use run_lines::ScriptFault;
use shared_text::Name;

/// What is seen of the run of a graph beside that of a script, each for at most 2^40 steps and with undefined as every answer.
#[derive(Debug, Drop)]
pub enum Comparison {
    /// Both ended, and had so many events, the same ones.
    Same { events: usize },
    /// The graph's run ended by a throw.
    Threw(Seen),
    /// The graph's run left its profile, at this place of the module with this path.
    Left { exit: u8, path: Name, place: Place },
    /// The graph's run didn't end within its steps, or it ended and the script's didn't.
    Spent,
    /// Both ended, and their events differ, or the script has no map.
    Unlike,
    /// The bytes are no script of the profile.
    Unread(ScriptFault),
}
