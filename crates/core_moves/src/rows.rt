//! What the machine is handed for what scripts don't have.

ghost use Rattle.std.specs.Prelude.{◌≡◌, ◌++◌, IfOk, IfSome, OnOk, slice_get};

use crate::moves::{Entered, Moved};
use core_ast::{Core, CoreFunction, CoreHead, CoreStat, FunctionId, ScopedName, Var};
use core_state::{Binding, Call, Completion, CoreValue, Current, Links, State, Strict};
use es_calls::Resumption;
use es_heap::Key;
use es_realm::Edition;
use es_value::{ObjId, Str, Value};
use sqlite_items::Items;
use std::alloc::{AllocError, Global};

/// A state of what has these rows.
pub type StateOf<'a, R> = State<
    'a,
    <R as CoreRows<'a>>::Mark,
    <R as CoreRows<'a>>::Own,
    <R as CoreRows<'a>>::Work,
    <R as CoreRows<'a>>::Store,
>;

/// A core, and the rows of what scripts don't have: one method a field of the definitions' record. Where a method gives an error
/// there was no memory, and nothing is said of the state.
pub trait CoreRows<'a>: Sized {
    ghost use Rattle.core_ast.specs.declared.whole.Core.{Core};
    ghost use Rattle.core_meaning.specs.Rows.{Rows};
    ghost use Rattle.core_moves.specs.Moves.{Enters, Makes, Steps, sorts};

    /// Values that no program sees.
    type Mark: Drop;

    /// What contexts and closures keep besides.
    type Own: Drop;

    /// What is pending besides.
    type Work: Drop;

    /// What is stored beside the heap.
    type Store;

    ghost core: { Self → Core };

    ghost rows: { Self → Rows (sorts Self.Mark Self.Own Self.Work) Self.Store };

    /// The core that is run.
    fn core(&self) -> &'a Core
        ensures { result.now ≡ core self.now };

    fn alloc(&self) -> Global;

    /// An equal mark.
    fn share(&self, mark: &Self::Mark) -> Result<Self::Mark, AllocError>
        ensures { IfOk result (λ shared. shared ≡ mark.now) };

    fn edition(&self) -> Edition
        ensures { result ≡ (rows self.now).edition };

    /// What `this` is.
    fn this(&self, st: &StateOf<'a, Self>) -> Result<CoreValue<Self::Mark>, AllocError>
        ensures { IfOk result (λ value. value ≡ (rows self.now).this st.now) };

    /// What a written name of a property refers to.
    fn named(&self, base: Value, units: Str) -> Result<Current<Self::Mark>, AllocError>
        ensures { IfOk result (λ current. current ≡ (rows self.now).named base units) };

    /// The closure of a function.
    fn closure(
        &self,
        function: FunctionId,
        code: &'a CoreFunction,
        st: &mut StateOf<'a, Self>,
    ) -> Result<CoreValue<Self::Mark>, AllocError>
        ensures { Makes result st.new ((rows self.now).closure function code.now st.old) };

    /// What the context and the record of a call have besides; the closure has this number.
    fn entered(
        &self,
        number: usize,
        code: &'a CoreFunction,
        call: &Call,
        st: &mut StateOf<'a, Self>,
    ) -> Result<Entered<Self::Mark, Self::Own>, AllocError>
        ensures { IfSome (slice_get st.old.closures number) (λ closure. Enters result st.new ((rows self.now).entered closure code.now call.now st.old)) };

    /// Runs a function once its record is there.
    fn body(&self, code: &'a CoreFunction, st: &mut StateOf<'a, Self>) -> Moved<'a, Self::Mark>
        ensures { Steps result st.new ((rows self.now).body code.now st.old) };

    /// The bindings of names at the entry of their scope, behind those that are there.
    fn scoped(
        &self,
        names: &[ScopedName],
        bindings: &mut Items<Binding<Self::Mark>>,
    ) -> Result<(), AllocError>
        ensures { OnOk result (bindings.new ≡ bindings.old ++ (rows self.now).scoped names.now) };

    /// The exit at a name that nothing binds; where there is none it is a ReferenceError.
    fn unbound(&self, var: Var) -> Option<u8>
        ensures { result ≡ (rows self.now).unbound var };

    /// A head that scripts don't have.
    fn head(
        &self,
        head: &'a CoreHead,
        links: Links<'a>,
        st: &mut StateOf<'a, Self>,
    ) -> Moved<'a, Self::Mark>
        ensures { Steps result st.new ((rows self.now).head head.now links.entry st.old) };

    /// An operation that scripts don't have.
    fn act(
        &self,
        strict: Strict<'a, Self::Mark>,
        st: &mut StateOf<'a, Self>,
    ) -> Moved<'a, Self::Mark>
        ensures { Steps result st.new ((rows self.now).act strict.entry st.old) };

    /// A statement that scripts don't have.
    fn stat(&self, stat: &'a CoreStat, st: &mut StateOf<'a, Self>) -> Moved<'a, Self::Mark>
        ensures { Steps result st.new ((rows self.now).stat stat.now st.old) };

    /// What is handed to pending work.
    fn work(
        &self,
        work: Self::Work,
        completion: Completion<Self::Mark>,
        st: &mut StateOf<'a, Self>,
    ) -> Moved<'a, Self::Mark>
        ensures { Steps result st.new ((rows self.now).work work completion st.old) };

    /// A method of generators is called.
    fn resume(
        &self,
        kind: Resumption,
        receiver: Value,
        given: Value,
        st: &mut StateOf<'a, Self>,
    ) -> Moved<'a, Self::Mark>
        ensures { Steps result st.new ((rows self.now).resume kind receiver given st.old) };

    /// A namespace object is asked for a name, or where `presence` is true only whether it has it.
    fn read_out(
        &self,
        presence: bool,
        object: ObjId,
        key: &Key,
        st: &mut StateOf<'a, Self>,
    ) -> Moved<'a, Self::Mark>
        ensures { Steps result st.new ((rows self.now).read_out presence object key.now st.old) };
}
