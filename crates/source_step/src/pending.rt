//! Pending work, by what makes it and by what it takes.

ghost use Rattle.std.specs.Prelude.{◌≡◌};

use es_calls::BuiltinCall;
use source_begins::BeginWork;
use source_entering::EntryWork;
use source_takers::Taker;
use source_values::ValueWork;

/// What is pending in a run of modules: all that the areas push, what a turn pushes besides, and what it takes.
pub trait StepWork<'a>: BeginWork<'a> + EntryWork<'a> + ValueWork<'a> {
    ghost use Rattle.source_state.specs.declared.work.Work.TheVariants as work;
    ghost use Rattle.source_takers.specs.Takers.{work_of};

    /// An operation or a function of the library calls a function.
    fn operation(call: BuiltinCall) -> Self
        ensures { Self.seen result ≡ work.Operation call };

    /// The same work, by what it takes.
    fn taken_apart(self) -> Taker<'a>
        ensures { work_of result ≡ Self.seen self };
}
