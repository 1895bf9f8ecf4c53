ghost use Rattle.std.specs.Prelude.{◌≡◌, [], ◌∷◌, ◌++◌, length, IfOk, OnOk, slice_get, None, is_some, nat_le};
ghost use Rattle.std.specs.Option.{option_map, option_copied};
ghost use Rattle.mono_syntax.specs.TyView.{tys, fields};
ghost use Rattle.mono_tree.specs.CastScripts.{fields_of, result_of};
ghost use Rattle.cast_machine.specs.Heap.{size, heap_size};
ghost use Rattle.cast_machine.specs.Rows.{goes, puts, leaving};
ghost use Rattle.cast_machine.specs.Calls.{take_args, named, cells_of, new_object, new_args, new_at, count_of, arg_items, call_test, call_row, unbound, bind, called, enter_at, fall, begin_at, value_in, finished, join_of, all_finished, leave_to, leave_with, leave};
ghost use Rattle.calculus_data.specs.computed.Entries.{entering, call_of, function_call, arg_item};

use calculus_data::{Heap, blames, copy_val, fails, goes, members_of, push_leaving, puts, size};
use cast_machine::{Cell, Change, End, Frame, NameMap, Object, Outcome, State, Thread, Work};
use mono_list::{Shared, Stack};
use mono_syntax::{
    CastFunction, CastScript, Field, MOST_THREADS, Name, NamedType, Ty, TyKind, Val,
};
use sqlite_items::Items;
use std::alloc::{AllocError, Global};

/// Takes the n topmost values off, the lowest first, where there are as many.
#[tactic(auto, using(calculus_data::proofs::Taken::taken))]
pub fn take_args(values: &mut Stack<Val>, n: u64) -> Result<Option<Items<Val>>, AllocError>
    ensures { IfOk result (λ o. option_map (λ args. (args, values.new)) o ≡ take_args n values.old []) }
{
    if (values.len() as u64) < n {
        return Ok(None);
    }
    let taken = values.pop_many(n as usize)?;
    Ok(Some(taken))
}

/// The arguments by the names of their fields.
fn named(alloc: Global, params: &[Name], args: &[Val]) -> Result<NameMap<Val>, AllocError>
    ensures { IfOk result (λ m. m ≡ named params.now args.now) }
{
    let mut given = NameMap::new(alloc);
    for (param, arg) in params.iter().zip(args) {
        let name = param.share()?;
        let value = copy_val(arg)?;
        given.push(name, value)?;
    }
    Ok(given)
}

/// A cell for each field, with its declared type and its argument.
#[tactic(auto, using(calculus_data::proofs::Taken::cells_step))]
fn cells_of(
    alloc: Global,
    members: &[Field],
    given: &NameMap<Val>,
) -> Result<Option<NameMap<Cell>>, AllocError>
    ensures { IfOk result (λ o. o ≡ cells_of (fields members.now) given.now) }
{
    let mut cells = NameMap::new(alloc);
    for field in members {
        let Some(value) = given.get(field.name.as_slice()) else {
            return Ok(None);
        };
        let value = copy_val(value)?;
        let name = field.name.share()?;
        let ty = field.ty.share()?;
        cells.push(name, Cell { ty, value })?;
    }
    Ok(Some(cells))
}

/// The object at the end of the heap, where the setting has room for it.
fn put_object(
    room: u32,
    heap: &Heap,
    class: u32,
    cells: NameMap<Cell>,
    mut frame: Frame,
    below: Stack<Frame>,
) -> Result<Outcome, AllocError>
    ensures { IfOk result (λ o. o ≡ new_object room heap.now class (Some cells) frame below) }
{
    let object = Object {
        class,
        cells,
        waits: 0,
        maker: 0,
    };
    let used = heap.size();
    let room = room as u64;
    if used <= room && size(&object) <= room - used {
        frame.values.push(Val::Obj {
            class,
            base: used as u32,
        })?;
        Ok(Outcome::Moves(Change::Adds(object), State::Running(frame, below)))
    } else {
        Ok(fails(End::HeapFull))
    }
}

/// The row of a new object.
pub fn new_object(
    alloc: Global,
    script: &CastScript,
    room: u32,
    heap: &Heap,
    class: u32,
    mut frame: Frame,
    below: Stack<Frame>,
) -> Result<Outcome, AllocError>
    ensures { IfOk result (λ o. o ≡ new_at room heap.now class (slice_get script.now.classes class) frame below) }
{
    let Some(definition) = script.classes.get(class as usize) else {
        return Ok(Outcome::NoRow);
    };
    let params = definition.params.as_slice();
    let Some(args) = take_args(&mut frame.values, params.len() as u64)? else {
        return Ok(Outcome::NoRow);
    };
    let given = named(alloc, params, args.as_slice())?;
    match cells_of(alloc, members_of(definition.ty.get()), &given)? {
        None => Ok(Outcome::NoRow),
        Some(cells) => put_object(room, heap, class, cells, frame, below),
    }
}

/// An Arg for one argument, where its Argument site stands.
fn push_arg_item(
    work: &mut Stack<Work>,
    site: Option<u32>,
    to: &Shared<Ty>,
    at: u64,
) -> Result<(), AllocError>
    ensures { OnOk result (work.new ≡ arg_item site to.now at ++ work.old) }
{
    if let Some(site) = site {
        let to = to.share()?;
        work.push(Work::Arg { site, to, at })?;
    }
    Ok(())
}

/// An Arg for each Argument site, the first argument's on top.
#[tactic(auto, using(calculus_data::proofs::Pushed::arguments))]
fn push_arg_items(
    work: &mut Stack<Work>,
    sites: &[Option<u32>],
    params: &[Shared<Ty>],
) -> Result<(), AllocError>
    ensures { OnOk result (work.new ≡ arg_items sites.now (tys params.now) ++ work.old) }
{
    let Some((site, other_sites)) = sites.split_first() else {
        return Ok(());
    };
    let Some((to, other_params)) = params.split_first() else {
        return Ok(());
    };
    push_arg_items(work, other_sites, other_params)?;
    push_arg_item(work, *site, to, other_params.len() as u64)
}

/// The call that the arguments are made for: of a frame, or of a thread with this name.
fn entering(begins: Option<Name>, func: u32, merged: Shared<Ty>, count: u64) -> Work
    ensures { result ≡ entering begins count func merged }
{
    match begins {
        None => Work::Enter {
            func,
            merged,
            count,
        },
        Some(name) => Work::Begin {
            name,
            func,
            merged,
            count,
        },
    }
}

/// The call of a function of these parameters.
#[tactic(auto, using(calculus_data::proofs::Pushed::pushed))]
fn call_function(
    item: Work,
    site: Option<u32>,
    sites: &[Option<u32>],
    params: &[Shared<Ty>],
    mut frame: Frame,
    below: Stack<Frame>,
) -> Result<Outcome, AllocError>
    ensures { IfOk result (λ o. o ≡ function_call site sites.now item params.now frame below) }
{
    if params.len() != sites.len() {
        return Ok(blames(site));
    }
    frame.work.push(item)?;
    push_arg_items(&mut frame.work, sites, params)?;
    Ok(goes(frame, below))
}

/// The callee is a function of as many parameters, and else the Call site is blamed.
#[tactic(auto, using(calculus_data::proofs::Taken::called))]
fn call_of(
    begins: Option<Name>,
    site: Option<u32>,
    sites: &[Option<u32>],
    callee: Val,
    frame: Frame,
    below: Stack<Frame>,
) -> Result<Outcome, AllocError>
    ensures { IfOk result (λ o. o ≡ call_of site sites.now (entering begins (length sites.now)) callee frame below) }
{
    let Val::Fun { func, merged } = callee else {
        return Ok(blames(site));
    };
    let whole = merged.share()?;
    match &whole.get().kind {
        TyKind::Fun(params, _) => {
            let item = entering(begins, func, merged, sites.len() as u64);
            call_function(item, site, sites, params.as_slice(), frame, below)
        }
        _ => Ok(blames(site)),
    }
}

/// The row of a call or a start: the callee stands below the arguments.
#[tactic(auto, using(calculus_data::proofs::Taken::looked))]
pub fn call(
    begins: Option<Name>,
    site: Option<u32>,
    sites: &[Option<u32>],
    frame: Frame,
    below: Stack<Frame>,
) -> Result<Outcome, AllocError>
    ensures { IfOk result (λ o. o ≡ call_row site sites.now (entering begins (length sites.now)) frame below) }
{
    match frame.values.peek(sites.len() as u64) {
        None => Ok(Outcome::NoRow),
        Some(callee) => {
            let callee = copy_val(callee)?;
            call_of(begins, site, sites, callee, frame, below)
        }
    }
}

pub fn unbound<A: Drop>(
    alloc: Global,
    names: &[NamedType],
) -> Result<NameMap<Option<A>>, AllocError>
    ensures { IfOk result (λ m. m ≡ unbound names.now) }
{
    let mut map = NameMap::new(alloc);
    for named in names {
        let name = named.name.share()?;
        map.push(name, None)?;
    }
    Ok(map)
}

/// The parameters are bound to the arguments.
fn bind(names: &mut NameMap<Option<Val>>, params: &[Name], args: &[Val]) -> Result<(), AllocError>
    ensures { OnOk result (names.new ≡ bind params.now args.now names.old) }
{
    for (param, arg) in params.iter().zip(args) {
        let value = copy_val(arg)?;
        names.set(param.as_slice(), Some(value));
    }
    Ok(())
}

fn result_of(alloc: Global, merged: &Ty) -> Result<Shared<Ty>, AllocError>
    ensures { IfOk result (λ t. t ≡ result_of merged.now) }
{
    match &merged.kind {
        TyKind::Fun(_, out) => out.share(),
        _ => Shared::new(alloc, Ty { kind: TyKind::Dyn }),
    }
}

/// The first frame of a call at a merged type.
fn called(
    alloc: Global,
    definition: &CastFunction,
    merged: &Ty,
    args: &[Val],
) -> Result<Frame, AllocError>
    ensures { IfOk result (λ f. f ≡ called definition.now merged.now args.now) }
{
    let mut names = unbound(alloc, definition.block.names.as_slice())?;
    bind(&mut names, definition.params.as_slice(), args)?;
    let handles = unbound(alloc, definition.block.threads.as_slice())?;
    let asked = result_of(alloc, merged)?;
    let mut work = Stack::new(alloc);
    work.push(Work::Fall(definition.falls))?;
    let body = definition.block.body.share()?;
    work.push(Work::Block(body, 0))?;
    Ok(Frame {
        names,
        handles,
        started: Items::new(alloc),
        asked: Some(asked),
        work,
        values: Stack::new(alloc),
    })
}

/// A call enters its frame.
pub fn enter(
    alloc: Global,
    script: &CastScript,
    func: u32,
    merged: &Ty,
    count: u64,
    mut frame: Frame,
    mut below: Stack<Frame>,
) -> Result<Outcome, AllocError>
    ensures { IfOk result (λ o. o ≡ enter_at merged.now (slice_get script.now.functions func) (take_args count frame.values []) frame below) }
{
    let Some(definition) = script.functions.get(func as usize) else {
        return Ok(Outcome::NoRow);
    };
    let Some(args) = take_args(&mut frame.values, count)? else {
        return Ok(Outcome::NoRow);
    };
    if frame.values.pop().is_none() {
        return Ok(Outcome::NoRow);
    }
    let first = called(alloc, definition, merged, args.as_slice())?;
    below.push(frame)?;
    Ok(goes(first, below))
}

/// The end of a function's body gives None.
pub fn fall(site: Option<u32>, mut frame: Frame, below: Stack<Frame>) -> Result<Outcome, AllocError>
    ensures { IfOk result (λ o. o ≡ fall site frame below) }
{
    push_leaving(&mut frame.work, site)?;
    puts(Val::Nil, frame, below)
}

/// A thread begins with the call.
pub fn begin(
    alloc: Global,
    script: &CastScript,
    made: usize,
    name: Name,
    func: u32,
    merged: &Ty,
    count: u64,
    mut frame: Frame,
    below: Stack<Frame>,
) -> Result<Outcome, AllocError>
    ensures { IfOk result (λ o. o ≡ begin_at made name merged.now (slice_get script.now.functions func) (take_args count frame.values []) frame below) }
{
    let Some(definition) = script.functions.get(func as usize) else {
        return Ok(Outcome::NoRow);
    };
    let Some(args) = take_args(&mut frame.values, count)? else {
        return Ok(Outcome::NoRow);
    };
    if frame.values.pop().is_none() {
        return Ok(Outcome::NoRow);
    }
    if made >= MOST_THREADS {
        return Ok(fails(End::ThreadLimit));
    }
    let first = called(alloc, definition, merged, args.as_slice())?;
    let asked = result_of(alloc, merged)?;
    frame.handles.set(name.as_slice(), Some(made as u32));
    frame.started.push(made as u32)?;
    Ok(Outcome::Moves(
        Change::Begins(Thread {
            asked: Some(asked),
            state: State::Running(first, Stack::new(alloc)),
            steps: 0,
        }),
        State::Running(frame, below),
    ))
}

/// The value of a thread that is finished.
pub fn finished(threads: &[Thread], thread: u32) -> Option<&Val>
    ensures { option_copied result ≡ finished threads.now thread }
{
    match threads.get(thread as usize) {
        Some(
            Thread {
                asked: _,
                state: State::Finished(value),
                steps: _,
            },
        ) => Some(value),
        _ => None,
    }
}

/// A join waits until its thread is finished.
pub fn join(
    threads: &[Thread],
    thread: u32,
    frame: Frame,
    below: Stack<Frame>,
) -> Result<Outcome, AllocError>
    ensures { IfOk result (λ o. o ≡ join_of (finished threads.now thread) frame below) }
{
    match finished(threads, thread) {
        None => Ok(Outcome::Waits),
        Some(value) => {
            let value = copy_val(value)?;
            puts(value, frame, below)
        }
    }
}

pub fn all_finished(threads: &[Thread], started: &[u32]) -> bool
    ensures { result ≡ all_finished threads.now started.now }
{
    for thread in started {
        if finished(threads, *thread).is_none() {
            return false;
        }
    }
    true
}

/// The frame goes, and its value goes to the frame below, or the thread is finished with it.
fn leave_to(value: Val, mut below: Stack<Frame>) -> Result<Outcome, AllocError>
    ensures { IfOk result (λ o. o ≡ leave_to value below) }
{
    match below.pop() {
        None => Ok(Outcome::Moves(Change::Same, State::Finished(value))),
        Some(frame) => puts(value, frame, below),
    }
}

/// A frame is left once each thread that it started is finished. The main block's end is the run's.
pub fn leave(
    threads: &[Thread],
    mut frame: Frame,
    below: Stack<Frame>,
) -> Result<Outcome, AllocError>
    ensures { IfOk result (λ o. o ≡ leave threads.now frame below) }
{
    if !all_finished(threads, frame.started.as_slice()) {
        return Ok(Outcome::Waits);
    }
    if frame.asked.is_none() {
        return Ok(Outcome::Moves(Change::Ends(End::Done), State::Stopped));
    }
    match frame.values.pop() {
        None => Ok(Outcome::NoRow),
        Some(value) => leave_to(value, below),
    }
}
