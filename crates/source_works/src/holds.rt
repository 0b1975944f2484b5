//! What holds pending work. It is three traits of a method each, since the impl of several for a type that reaches all kinds of work is more
//! than the prover compares in one step.

ghost use Rattle.std.specs.Prelude.{◌≡◌};

use source_takers::Taker;

/// What is made of pending work, by what the work takes.
pub trait Holding<'a>: Drop {
    ghost use Rattle.source_takers.specs.declared.takers.Taker.{Taker};

    /// What is held.
    ghost held: { Self → Taker };

    fn holding(taker: Taker<'a>) -> Self
        ensures { held result ≡ taker.entry };
}

/// What shows what it holds.
pub trait Showing<'a>: Holding<'a> {
    fn taker(&self) -> &Taker<'a>
        ensures { result.now ≡ Self.held self.now };
}

/// What holds pending work. What makes work knows it by this alone, since a function whose types reach all kinds of work is dear to check.
pub trait Holds<'a>: Showing<'a> {
    fn into_taker(self) -> Taker<'a>
        ensures { result ≡ Self.held self };
}

impl<'a> Holding<'a> for Taker<'a> {
    ghost held = { λ taker. taker };

    fn holding(taker: Taker<'a>) -> Taker<'a> {
        taker
    }
}

impl<'a> Showing<'a> for Taker<'a> {
    fn taker(&self) -> &Taker<'a> {
        self
    }
}

impl<'a> Holds<'a> for Taker<'a> {
    fn into_taker(self) -> Taker<'a> {
        self
    }
}
