//! The faults of graphs of modules.

ghost use Rattle.std.specs.Prelude.{◌≡◌};
ghost use Rattle.graph_refusals.specs.Lines.{is_limit, is_placed_limit};

use es_text::Place;
use es6_lexer::LexicalKind;
use shared_text::{Name, Units};
use std::alloc::AllocError;

/// Why no graph is answered.
#[derive(Debug, Drop)]
pub enum GraphFault {
    Refused(Refusal),
    OutOfMemory,
}

impl From<AllocError> for GraphFault {
    ghost use Rattle.graph_refusals.specs.declared.fault.GraphFault.TheVariants.{OutOfMemory};

    ghost from_gives = { λ _ fault. fault ≡ OutOfMemory };

    fn from(_error: AllocError) -> GraphFault {
        GraphFault::OutOfMemory
    }
}

/// A fault, and the path of the module that has it.
#[derive(Debug, Drop)]
pub struct Refusal {
    pub path: Name,
    pub fault: FileFault,
}

/// What is wrong with a module.
#[derive(Debug, Drop)]
pub enum FileFault {
    /// No file has the path of the entry.
    Missing,
    /// The file couldn't be read.
    ReadFailed,
    /// The file is longer than a module may be.
    FileTooLong,
    /// With this module all modules are longer together than they may be.
    GraphTooLong,
    /// The text isn't UTF-8 from this byte on.
    NotUtf8 { at: u32 },
    /// Something at this place.
    At { place: Place, fault: PlacedFault },
}

/// What is wrong at a place of a module.
#[derive(Debug, Drop)]
pub enum PlacedFault {
    Lexical(LexicalKind),
    Syntax,
    /// More constructs are open than may be.
    TooDeep,
    /// A rule of the table of early errors.
    Early(u8),
    /// A rule of the table of constructs outside the profile.
    Outside(u8),
    /// The specifier names one module more than there may be.
    TooManyModules,
    /// The specifier names no path.
    BadSpecifier(Units),
    /// No file has the path that the specifier names.
    MissingModule(Units),
    /// The name ends nowhere.
    Unresolved(Name),
    /// The name ends in more than one place.
    Ambiguous(Name),
}

impl FileFault {
    /// Whether the module is beyond a limit.
    pub fn is_limit(&self) -> bool
        ensures { result ≡ is_limit self.now }
    {
        match self {
            FileFault::FileTooLong | FileFault::GraphTooLong => true,
            FileFault::At { fault, .. } => fault.is_limit(),
            FileFault::Missing | FileFault::ReadFailed | FileFault::NotUtf8 { .. } => false,
        }
    }
}

impl PlacedFault {
    fn is_limit(&self) -> bool
        ensures { result ≡ is_placed_limit self.now }
    {
        matches!(self, PlacedFault::TooDeep | PlacedFault::TooManyModules)
    }
}
