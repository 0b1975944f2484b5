//! What the machine is handed for scripts (ECMA-262, 5.1 edition): nothing besides what scripts have.

ghost use Rattle.std.specs.Prelude.{◌≡◌};
ghost use Rattle.std.specs.Option.{option_copied};
ghost use Rattle.script_core.specs.Meaning.{exit_of, unbound_by};

use core_ast::{Core, CoreFunction, CoreHead, CoreStat, FunctionId, ScopedName, Var};
use core_moves::{CoreRows, Entered, Move, Moved, unlawful};
use core_state::{
    Binding, Call, Closure, Completion, Control, CoreValue, Current, Links, State, Stats, Strict,
};
use es_calls::Resumption;
use es_heap::Key;
use es_operation_steps::plain_function;
use es_realm::{Edition, Global as GlobalName, global_of};
use es_value::{ObjId, Str, Value};
use script_core::Nothing;
use shared_text::Name;
use sqlite_items::Items;
use std::alloc::{AllocError, Global};

/// A state of a script's run, without what its next step does.
pub type ScriptState<'a> = State<'a, Nothing, (), Nothing, ()>;

/// The core of a script, with the rows of scripts.
#[derive(Clone, Copy)]
pub struct ScriptRows<'a> {
    pub core: &'a Core,
    pub alloc: Global,
}

/// The exit at a global name that is left out.
fn exit_of(global: GlobalName) -> Option<u8>
    ensures { result ≡ exit_of global }
{
    match global {
        GlobalName::LeftOut => Some(7),
        GlobalName::Undefined | GlobalName::Object(_) | GlobalName::Unknown => None,
    }
}

/// The exit at a name that nothing binds, by its hint.
fn unbound_by(hint: Option<&Option<Name>>) -> Option<u8>
    ensures { result ≡ unbound_by (option_copied hint.entry) }
{
    match hint {
        Some(Some(name)) => exit_of(global_of(name.bytes())),
        _ => None,
    }
}

impl<'a> CoreRows<'a> for ScriptRows<'a> {
    ghost use Rattle.core_meaning.specs.Rows.{unlawful};
    ghost use Rattle.core_moves.specs.Moves.{Steps};
    ghost use Rattle.script_core.specs.Meaning.{script_rows};

    type Mark = Nothing;

    type Own = ();

    type Work = Nothing;

    type Store = ();

    ghost core = { λ r. r.core.now };

    ghost rows = { λ r. script_rows r.core.now };

    fn core(&self) -> &'a Core {
        self.core
    }

    fn alloc(&self) -> Global {
        self.alloc
    }

    fn share(&self, _mark: &Nothing) -> Result<Nothing, AllocError> {
        Ok(Nothing)
    }

    fn edition(&self) -> Edition {
        Edition::Fifth
    }

    /// The receiver, as strict code has it (10.4.3).
    fn this(&self, st: &ScriptState<'a>) -> Result<CoreValue<Nothing>, AllocError> {
        Ok(CoreValue::User(st.context.receiver.share()?))
    }

    fn named(&self, base: Value, units: Str) -> Result<Current<Nothing>, AllocError> {
        Ok(Current::Reference(base, Key::Text(units)))
    }

    /// A function that can be constructed (13.2).
    fn closure(
        &self,
        function: FunctionId,
        code: &'a CoreFunction,
        st: &mut ScriptState<'a>,
    ) -> Result<CoreValue<Nothing>, AllocError> {
        let number = st.closures.len();
        let environment = st.context.environment.share()?;
        let id = plain_function(
            self.alloc,
            Edition::Fifth,
            &mut st.heap,
            number,
            code.length,
        )?;
        st.closures.push(Closure {
            function,
            environment,
            own: (),
        })?;
        Ok(CoreValue::User(Value::Object(id)))
    }

    fn entered(
        &self,
        _number: usize,
        _code: &'a CoreFunction,
        _call: &Call,
        _st: &mut ScriptState<'a>,
    ) -> Result<Entered<Nothing, ()>, AllocError> {
        Ok(Entered {
            own: (),
            names: Items::new(self.alloc),
        })
    }

    fn body(&self, code: &'a CoreFunction, _st: &mut ScriptState<'a>) -> Moved<'a, Nothing> {
        Ok(Move::Goes(Control::Run(Stats::of(code.body.as_slice()))))
    }

    fn scoped(
        &self,
        _names: &[ScopedName],
        _bindings: &mut Items<Binding<Nothing>>,
    ) -> Result<(), AllocError> {
        Ok(())
    }

    fn unbound(&self, var: Var) -> Option<u8> {
        unbound_by(self.core.fresh.hints.get(var.0 as usize))
    }

    fn head(
        &self,
        _head: &'a CoreHead,
        _links: Links<'a>,
        st: &mut ScriptState<'a>,
    ) -> Moved<'a, Nothing> {
        unlawful(st)
    }

    fn act(&self, _strict: Strict<'a, Nothing>, st: &mut ScriptState<'a>) -> Moved<'a, Nothing>
        ensures { Steps result st.new (unlawful st.old) }
    {
        unlawful(st)
    }

    fn stat(&self, _stat: &'a CoreStat, st: &mut ScriptState<'a>) -> Moved<'a, Nothing> {
        unlawful(st)
    }

    fn work(
        &self,
        _work: Nothing,
        _completion: Completion<Nothing>,
        st: &mut ScriptState<'a>,
    ) -> Moved<'a, Nothing>
        ensures { Steps result st.new (unlawful st.old) }
    {
        unlawful(st)
    }

    fn resume(
        &self,
        _kind: Resumption,
        _receiver: Value,
        _given: Value,
        st: &mut ScriptState<'a>,
    ) -> Moved<'a, Nothing> {
        unlawful(st)
    }

    fn read_out(
        &self,
        _presence: bool,
        _object: ObjId,
        _key: &Key,
        st: &mut ScriptState<'a>,
    ) -> Moved<'a, Nothing> {
        unlawful(st)
    }
}
