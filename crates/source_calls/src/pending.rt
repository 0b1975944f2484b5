//! The pending work of calls and generators, by what makes it.

ghost use Rattle.std.specs.Prelude.{◌≡◌};

use es_calls::Resumption;
use es_value::Value;
use source_moves::PendingWork;
use source_state::Statements;
use sqlite_items::Items;

/// What is pending of calls and generators.
pub trait CallWork<'a>: PendingWork<'a> {
    ghost use Rattle.source_state.specs.declared.work.Work.TheVariants as work;
    ghost use Rattle.source_calls.specs.Yields.{generator_in};

    /// The prototype of what a function constructs.
    fn making(function: Value, args: Items<Value>, target: Value) -> Self
        ensures { Self.seen result ≡ work.Making function args target };

    /// What a construction of this object gives.
    fn made(object: Value) -> Self
        ensures { Self.seen result ≡ work.Made object };

    /// What a derived constructor gives, with its `this` in the record of this number.
    fn derived(number: usize) -> Self
        ensures { Self.seen result ≡ work.Derived number };

    /// What the parent of a derived constructor makes.
    fn super_made() -> Self
        ensures { Self.seen result ≡ work.SuperMade };

    /// The start of a generator.
    fn generator_start(body: Statements<'a>) -> Self
        ensures { Self.seen result ≡ work.GeneratorStart body.entry };

    /// The generator of this number runs above this context.
    fn generates(number: usize) -> Self
        ensures { Self.seen result ≡ work.Generates number };

    /// The number of the generator that runs above this context, if it is work of that kind.
    fn generator(&self) -> Option<usize>
        ensures { result ≡ generator_in (Self.seen self.now) };

    /// The iterator of a `yield*`.
    fn delegate_iterator() -> Self
        ensures { Self.seen result ≡ work.DelegateIterator };

    /// A `yield*` that waits for a resumption.
    fn delegated(iterator: Value) -> Self
        ensures { Self.seen result ≡ work.Delegated iterator };

    /// What the iterator answers to this resumption.
    fn delegate_result(iterator: Value, kind: Resumption, value: Value) -> Self
        ensures { Self.seen result ≡ work.DelegateResult iterator kind value };

    /// Whether the iterator is done, by this result.
    fn delegate_done(iterator: Value, kind: Resumption, given: Value) -> Self
        ensures { Self.seen result ≡ work.DelegateDone iterator kind given };

    /// The value of the last result.
    fn delegate_value(kind: Resumption) -> Self
        ensures { Self.seen result ≡ work.DelegateValue kind };
}
