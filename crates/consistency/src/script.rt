ghost use Rattle.std.specs.Prelude.{◌≡◌, [], ◌∷◌, IfOk, IfErr, IsOkUnless, Ok};
ghost use Rattle.mono_syntax.specs.declared.refusal.LoadFault.TheVariants as LoadFault;
ghost use Rattle.mono_syntax.specs.declared.refusal.Refusal.{Refusal};
ghost use Rattle.mono_syntax.specs.declared.script.Typed.{Typed};
ghost use Rattle.mono_syntax.specs.declared.tree.Item.TheVariants as item;
ghost use Rattle.script_rules.specs.Scoping.{IsScope};
ghost use Rattle.script_rules.specs.LoadFaults.{IsFault, Refuses};
ghost use Rattle.static_types.specs.Typing.{IsTyping};
ghost use Rattle.static_types.specs.Scripts.{IsTypeFault};
ghost use Rattle.known_names.specs.computed.Gives.{Gives};
ghost use Rattle.consistency.specs.computed.Scripted.{end_at, function_end, body_typed, function_typed, item_typed, items_typed, no_exprs_yet, begun, typed_script, checked};

use crate::lines::{State, block_typed, line_typed, shared_type};
use crate::trace::Trace;
use known_names::{Known, KnownScript, Local, is_consistent, known_in, new_type};
use mono_list::{Shared, Stack};
use mono_syntax::{FuncDef, Item, LoadFault, Reason, Scoped, Stmt, Ty, TyKind, Typed};
use rule_choice::{may_end, refused};
use sqlite_items::Items;
use std::alloc::{AllocError, Global};
use type_list::TypeList;

/// The main block so far, and what the bodies of the functions to come may name.
#[derive(Drop)]
pub struct Done {
    pub state: State,
    pub bodies: Stack<Local>,
}

/// A function's end, which gives `None`.
fn end_at(alloc: Global, ty: &Ty, function: &FuncDef, trace: Trace) -> Result<Trace, LoadFault>
    ensures { Gives result (end_at ty.now function.now trace) }
{
    let none = new_type(alloc, TyKind::Nil)?;
    if is_consistent(alloc, none.get(), ty)? {
        return Ok(trace);
    }
    Err(refused(function.name.place, Reason::Inconsistent))
}

fn function_end(
    alloc: Global,
    declared: Option<Shared<Ty>>,
    function: &FuncDef,
    trace: Trace,
) -> Result<Trace, LoadFault>
    ensures { Gives result (function_end declared function.now trace) }
{
    match declared {
        Some(ty) if may_end(function.body.as_slice()) => end_at(alloc, ty.get(), function, trace),
        _ => Ok(trace),
    }
}

/// The body of a function, and its end, where its names are these.
fn body_typed(
    alloc: Global,
    known: &Known,
    local: Local,
    function: &FuncDef,
    trace: Trace,
) -> Result<Trace, LoadFault>
    ensures { Gives result (body_typed known.now local function.now trace) }
{
    let declared = shared_type(&local.result)?;
    let state = State { local, trace };
    match block_typed(alloc, known, state, function.body.as_slice()) {
        Ok(state) => function_end(alloc, declared, function, state.trace),
        Err(fault) => Err(fault),
    }
}

/// One more function.
fn function_typed(
    alloc: Global,
    known: &Known,
    done: Done,
    function: &FuncDef,
) -> Result<Done, LoadFault>
    ensures { Gives result (function_typed known.now done.state done.bodies function.now) }
{
    let Done { state, mut bodies } = done;
    match bodies.pop() {
        Some(names) => function_behind(alloc, known, state, names, bodies, function),
        // There is one for each function.
        None => Ok(Done { state, bodies }),
    }
}

/// A function whose body may name this.
fn function_behind(
    alloc: Global,
    known: &Known,
    state: State,
    names: Local,
    bodies: Stack<Local>,
    function: &FuncDef,
) -> Result<Done, LoadFault>
    ensures { Gives result (function_typed known.now state (names ∷ bodies) function.now) }
{
    let State { local, trace } = state;
    let trace = body_typed(alloc, known, names, function, trace)?;
    let state = State { local, trace };
    Ok(Done { state, bodies })
}

fn statement_typed(alloc: Global, known: &Known, done: Done, s: &Stmt) -> Result<Done, LoadFault>
    ensures { Gives result (item_typed known.now done (item.Stmt s.now)) }
{
    let Done { state, bodies } = done;
    let state = line_typed(alloc, known, state, s)?;
    Ok(Done { state, bodies })
}

fn item_typed(alloc: Global, known: &Known, done: Done, item: &Item) -> Result<Done, LoadFault>
    ensures { Gives result (item_typed known.now done item.now) }
{
    match item {
        Item::Class(_) => Ok(done),
        Item::Def(function) => function_typed(alloc, known, done, function),
        Item::Stmt(s) => statement_typed(alloc, known, done, s),
    }
}

/// The items of a script in source order.
fn items_typed(alloc: Global, known: &Known, start: Done, items: &[Item]) -> Result<Done, LoadFault>
    ensures { Gives result (items_typed known.now start items.now) }
{
    let mut done = start;
    for item in items {
        done = item_typed(alloc, known, done, item)?;
    }
    Ok(done)
}

fn no_exprs_yet(alloc: Global) -> Trace
    ensures { result ≡ no_exprs_yet }
{
    let types = TypeList::new(alloc);
    let exprs = Items::new(alloc);
    Trace { types, exprs }
}

fn begun(alloc: Global, main: Local, bodies: Items<Local>) -> Result<Done, AllocError>
    ensures { IfOk result (λ done. done ≡ begun main bodies) }
{
    let trace = no_exprs_yet(alloc);
    let state = State { local: main, trace };
    let bodies = Stack::from_items(alloc, bodies)?;
    Ok(Done { state, bodies })
}

fn all_typed(alloc: Global, scoped: &Scoped, known: KnownScript) -> Result<Done, LoadFault>
    ensures { Gives result (items_typed known.names (begun known.main known.bodies) scoped.now.script.items) }
{
    let KnownScript {
        names,
        bodies,
        main,
    } = known;
    let start = begun(alloc, main, bodies)?;
    let items = scoped.script.get().items.get().as_slice();
    items_typed(alloc, &names, start, items)
}

/// The script with the types of its expressions.
fn typed_script(alloc: Global, scoped: &Shared<Scoped>, done: Done) -> Result<Typed, AllocError>
    ensures { IfOk result (λ typed. typed ≡ typed_script scoped.now done) }
{
    let Done { state, .. } = done;
    let State { trace, .. } = state;
    let Trace { types, exprs } = trace;
    let types = types.shared(alloc)?;
    let scoped = scoped.share()?;
    Ok(Typed {
        scoped,
        types,
        exprs,
    })
}

/// The script whose names are known so.
fn checked(alloc: Global, scoped: &Shared<Scoped>, known: KnownScript) -> Result<Typed, LoadFault>
    ensures { Gives result (checked scoped.now known) }
{
    let done = all_typed(alloc, scoped.get(), known)?;
    Ok(typed_script(alloc, scoped, done)?)
}

/// The script with the type of each expression, or its first fault of typing: a value used at a type that has no meet with its
/// own, a field that isn't there, a call with too many or too few arguments, or a call of what is no function.
///
/// Parts are looked at in source order and before their whole, and of the faults of one construct the first by place counts. The
/// list of types has each in the order in which expressions first have it. A bare return counts as `return None`, so its `None` is
/// among the expressions.
pub fn check(alloc: Global, scoped: &Shared<Scoped>) -> Result<Typed, LoadFault>
    requires scope { IsScope scoped.now.script scoped.now }
    ensures accepted { IfOk result (IsTyping scoped.now) }
    ensures refused { IfErr result (IsFault (IsTypeFault scoped.now.script)) }

    // What the rules accept is accepted, and what they refuse is refused so, unless there is no memory.
    ensures accepts { (p : Typed) → IsTyping scoped.now p → IsOkUnless result LoadFault.Memory }
    ensures refuses { (r : Refusal) → IsTypeFault scoped.now.script r → Refuses result r }
{
    let known = known_in(alloc, scoped.get())?;
    checked(alloc, scoped, known)
}
