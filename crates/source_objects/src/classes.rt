//! A class from its beginning: its scope and heritage, the function and its prototype object (14.5.14, steps 2 to 18).

ghost use Rattle.std.specs.Prelude.{◌≡◌, ◌∷◌, [], IfOk, OnOk, true};
ghost use Rattle.std.specs.Option.{option_copied};
ghost use Rattle.es_heap.specs.Heaps.{next_id};
ghost use Rattle.es_operations.specs.Making.{class_prototype};
ghost use Rattle.source_objects.specs.Made.{class_objects, own_binding};
ghost use Rattle.source_meaning.specs.Classes.{begin_class, class_begun, class_by, class_entered, class_made, heritage_given, heritage_valued};
ghost use Rattle.source_meaning.specs.Functions.{closure_in, with_closure};
ghost use Rattle.source_moves.specs.Moves.{Steps};
ghost use Rattle.source_moves.specs.Seen.{state_of};

use crate::inherited::recorded_for;
use crate::members::members_on;
use crate::pending::ClassWork;
use es_heap::{Heap, Key};
use es_operation_steps::{ClassObjects, Operation, class_function, with_recorded};
use es_realm::Edition;
use es_realm::names::{FUNCTION_PROTOTYPE, OBJECT_PROTOTYPE};
use es_value::{ObjId, Value};
use es6_ast::{Class, Expression, Function, Identifier};
use source_functions::{closure_in, constructor_count};
use source_moves::{Moved, PendingWork, begin, enter_bindings, impossible, operate, push};
use source_state::{Binding, BorrowedName, Code, Defining, Held, Members, Node, State};
use source_trees::{constructor_in, optional_name};
use sqlite_items::{Boxed, Items};
use std::alloc::{AllocError, Global};

/// What a class is made of besides its code: its parent, what is above its prototype object, and what is recorded for it.
#[derive(Drop)]
struct Lineage {
    parent: ObjId,
    above: Option<ObjId>,
    recorded: Items<Key>,
}

/// The function and its prototype object.
fn make_objects<'a>(
    alloc: Global,
    constructor: &Option<Node<'a, Function>>,
    lineage: &Lineage,
    number: usize,
    heap: &mut Heap,
) -> Result<ClassObjects, AllocError>
    ensures { IfOk result (λ made. (made.function ≡ next_id heap.old) × (made.prototype ≡ class_prototype heap.old) × (heap.new ≡ class_objects constructor.now lineage.now number heap.old)) }
{
    let count = constructor_count(constructor)?;
    let edition = Edition::Sixth;
    let parent = lineage.parent;
    let made = class_function(alloc, edition, heap, number, count, parent, lineage.above)?;
    with_recorded(alloc, heap, made.function, lineage.recorded.as_slice())?;
    Ok(made)
}

/// The closure of a class, whose home object is its prototype object.
fn push_closure<'a, W: PendingWork<'a>>(
    code: Code<'a>,
    home: ObjId,
    st: &mut State<'a, W>,
) -> Result<(), AllocError>
    ensures { OnOk result (state_of W.seen st.new ≡ with_closure (closure_in st.old.context.environment code.entry (Value.Object home) (state_of W.seen st.old)) (state_of W.seen st.old)) }
{
    let environment = st.context.environment.share()?;
    let closure = closure_in(environment, code, Value::Object(home), st)?;
    st.closures.push(closure)
}

/// The function of a class, its prototype object and its closure.
fn class_begun<'a, W: PendingWork<'a>>(
    alloc: Global,
    class: &'a Class,
    derived: bool,
    heritage: &Value,
    parent: ObjId,
    above: Option<ObjId>,
    st: &mut State<'a, W>,
) -> Result<ClassObjects, AllocError>
    ensures { IfOk result (λ made. (made.function ≡ next_id st.old.heap) × (made.prototype ≡ class_prototype st.old.heap) × (state_of W.seen st.new ≡ class_begun class.now derived heritage.now parent above (state_of W.seen st.old))) }
{
    let recorded = recorded_for(alloc, heritage, st)?;
    let lineage = Lineage {
        parent,
        above,
        recorded,
    };
    let constructor = constructor_in(class.members.as_slice());
    let number = st.closures.len();
    let made = make_objects(alloc, &constructor, &lineage, number, &mut st.heap)?;
    push_closure(
        Code::ConstructorCode(derived, constructor),
        made.prototype,
        st,
    )?;
    Ok(made)
}

/// The class is made, and its members are defined.
fn class_made<'a, W: PendingWork<'a>>(
    alloc: Global,
    class: &'a Class,
    derived: bool,
    heritage: &Value,
    parent: ObjId,
    above: Option<ObjId>,
    st: &mut State<'a, W>,
) -> Moved<'a>
    ensures { Steps W.seen result st.new (class_made class.now derived heritage.now parent above (state_of W.seen st.old)) }
{
    let made = class_begun(alloc, class, derived, heritage, parent, above, st)?;
    let defining = Defining {
        name: optional_name(&class.name),
        function: made.function,
        prototype: made.prototype,
    };
    members_on(alloc, &defining, Members::of(&class.members), st)
}

/// The heritage is there, whose prototype is read.
pub fn heritage_valued<'a, W: ClassWork<'a>>(
    alloc: Global,
    class: Node<'a, Class>,
    heritage: Value,
    st: &mut State<'a, W>,
) -> Moved<'a>
    ensures { Steps W.seen result st.new (heritage_valued class.entry (state_of W.seen st.old) heritage) }
{
    let base = heritage.share()?;
    let operands = Items::new(alloc);
    let work = W::heritage_prototype(class, heritage);
    operate(
        alloc,
        work,
        Operation::HeritagePrototype,
        base,
        operands,
        st,
    )
}

/// A class with a parent, whose prototype is there.
fn class_above<'a, W: PendingWork<'a>>(
    alloc: Global,
    class: &'a Class,
    parent: ObjId,
    prototype: Value,
    st: &mut State<'a, W>,
) -> Moved<'a>
    ensures { Steps W.seen result st.new (heritage_given class.now (Value.Object parent) (state_of W.seen st.old) prototype) }
{
    let heritage = Value::Object(parent);
    match prototype {
        Value::Object(above) => {
            class_made(alloc, class, true, &heritage, parent, Some(above), st)
        }
        Value::Null => class_made(alloc, class, true, &heritage, parent, None, st),
        _ => impossible(st),
    }
}

/// The prototype of the heritage is there.
pub fn heritage_given<'a, W: PendingWork<'a>>(
    alloc: Global,
    class: Node<'a, Class>,
    heritage: Value,
    prototype: Value,
    st: &mut State<'a, W>,
) -> Moved<'a>
    ensures { Steps W.seen result st.new (heritage_given class.entry heritage (state_of W.seen st.old) prototype) }
{
    match heritage {
        Value::Object(parent) => class_above(alloc, class.get(), parent, prototype, st),
        _ => impossible(st),
    }
}

/// A class without a heritage is made, and a heritage is evaluated.
fn class_by<'a, W: ClassWork<'a>>(
    alloc: Global,
    class: Node<'a, Class>,
    heritage: &'a Option<Boxed<Expression>>,
    st: &mut State<'a, W>,
) -> Moved<'a>
    ensures { Steps W.seen result st.new (class_by class.entry (state_of W.seen st.old) heritage.now) }
{
    match heritage {
        None => {
            let parent = FUNCTION_PROTOTYPE;
            let above = Some(OBJECT_PROTOTYPE);
            class_made(
                alloc,
                class.get(),
                false,
                &Value::Undefined,
                parent,
                above,
                st,
            )
        }
        Some(x) => begin(W::heritage(class), Node::of(x.get()), st),
    }
}

/// The inner name of a class, which can't be written.
fn own_binding<'a>(alloc: Global, name: &'a Identifier) -> Result<Items<Binding<'a>>, AllocError>
    ensures { IfOk result (λ bindings. bindings ≡ own_binding name.now ∷ []) }
{
    let mut bindings = Items::new(alloc);
    bindings.push(Binding {
        name: BorrowedName::of(name.name.bytes()),
        mutable: false,
        held: Held::Uninitialized,
    })?;
    Ok(bindings)
}

/// A class with a name has a record with it.
fn class_entered<'a, W: ClassWork<'a>>(
    alloc: Global,
    name: &'a Option<Identifier>,
    st: &mut State<'a, W>,
) -> Result<(), AllocError>
    ensures { OnOk result (state_of W.seen st.new ≡ class_entered name.now (state_of W.seen st.old)) }
{
    match name {
        None => Ok(()),
        Some(name) => {
            let environment = st.context.environment.share()?;
            push(st, W::restore(environment))?;
            let bindings = own_binding(alloc, name)?;
            enter_bindings(alloc, bindings, st)
        }
    }
}

/// ClassDefinitionEvaluation begins.
pub fn begin_class<'a, W: ClassWork<'a>>(
    alloc: Global,
    class: Node<'a, Class>,
    st: &mut State<'a, W>,
) -> Moved<'a>
    ensures { Steps W.seen result st.new (begin_class class.entry (state_of W.seen st.old)) }
{
    let tree = class.get();
    class_entered(alloc, &tree.name, st)?;
    class_by(alloc, class, &tree.heritage, st)
}
