//! Names of modules.

ghost use Rattle.std.specs.Prelude.{◌≡◌};
ghost use Rattle.source_exports.specs.Known.{pair};
ghost use Rattle.source_meaning.specs.Modules.{is_pair};

use source_state::BorrowedName;
use std::marker::Model;

/// A name of the module with this number.
#[derive(Drop)]
pub struct Pair<'a> {
    home: u32,
    name: BorrowedName<'a>,
}

impl<'a> Model for Pair<'a> {
    ghost use Rattle.source_meaning.specs.Modules.{Pair};
    ghost use Rattle.source_exports.specs.Known.{pair};

    ghost Value = { Pair };

    ghost view = { λ p. pair p.home p.name };
}

impl<'a> Pair<'a> {
    pub fn of(home: u32, name: BorrowedName<'a>) -> Pair<'a>
        ensures { result ≡ pair home name.entry }
    {
        Pair { home, name }
    }

    pub fn home(&self) -> u32
        ensures { result ≡ self.now.home }
    {
        self.home
    }

    pub fn name(&self) -> BorrowedName<'a>
        ensures { result ≡ self.now.name }
    {
        self.name.share()
    }

    pub fn share(&self) -> Pair<'a>
        ensures { result ≡ self.now }
    {
        Pair {
            home: self.home,
            name: self.name.share(),
        }
    }

    /// Whether both are the same.
    pub fn is(&self, other: &Pair<'a>) -> bool
        ensures { result ≡ is_pair self.now other.now }
    {
        (self.home == other.home) & (self.name.bytes() == other.name.bytes())
    }
}
