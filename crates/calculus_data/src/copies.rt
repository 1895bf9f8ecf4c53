ghost use Rattle.std.specs.Prelude.{◌≡◌, IfOk};

use cast_machine::{Cell, Frame, NameMap, Object, Ready, State, Thread, Work};
use mono_list::{Shared, Slots, Stack};
use mono_syntax::{Lines, Name, StmtList, Ty, Val};
use sqlite_items::Items;
use std::alloc::{AllocError, Global};

/// The same value; texts and types are shared.
pub fn copy_val(value: &Val) -> Result<Val, AllocError>
    ensures { IfOk result (λ copy. copy ≡ value.now) }
{
    match value {
        Val::Int(n) => Ok(Val::Int(*n)),
        Val::Bool(b) => Ok(Val::Bool(*b)),
        Val::Nil => Ok(Val::Nil),
        Val::Text(text) => {
            let text = text.share()?;
            Ok(Val::Text(text))
        }
        Val::Obj { class, base } => Ok(Val::Obj {
            class: *class,
            base: *base,
        }),
        Val::Fun { func, merged } => {
            let merged = merged.share()?;
            Ok(Val::Fun {
                func: *func,
                merged,
            })
        }
    }
}

fn copy_type(ty: &Option<Shared<Ty>>) -> Result<Option<Shared<Ty>>, AllocError>
    ensures { IfOk result (λ copy. copy ≡ ty.now) }
{
    match ty {
        None => Ok(None),
        Some(ty) => {
            let ty = ty.share()?;
            Ok(Some(ty))
        }
    }
}

fn copy_ready(ready: &Option<Ready>) -> Result<Option<Ready>, AllocError>
    ensures { IfOk result (λ copy. copy ≡ ready.now) }
{
    match ready {
        None => Ok(None),
        Some(pair) => {
            let value = copy_val(&pair.value)?;
            let ty = pair.ty.share()?;
            Ok(Some(Ready { value, ty }))
        }
    }
}

fn copy_obligation(
    class: u32,
    object: u32,
    field: &Name,
    to: &Shared<Ty>,
    ready: &Option<Ready>,
) -> Result<Work, AllocError>
    ensures { IfOk result (λ copy. copy ≡ Work.Obligation class object field.now to.now ready.now) }
{
    let field = field.share()?;
    let to = to.share()?;
    let ready = copy_ready(ready)?;
    Ok(Work::Obligation {
        class,
        object,
        field,
        to,
        ready,
    })
}

fn copy_write(
    member: Option<u32>,
    write: Option<u32>,
    is: &Shared<Ty>,
    field: &Name,
    fitted: &Option<Shared<Ty>>,
) -> Result<Work, AllocError>
    ensures { IfOk result (λ copy. copy ≡ Work.Write member write is.now field.now fitted.now) }
{
    let is = is.share()?;
    let field = field.share()?;
    let fitted = copy_type(fitted)?;
    Ok(Work::Write {
        member,
        write,
        is,
        field,
        fitted,
    })
}

/// The same item; blocks, expressions, names and types are shared.
fn copy_work(alloc: Global, item: &Work) -> Result<Work, AllocError>
    ensures { IfOk result (λ copy. copy ≡ item.now) }
{
    match item {
        Work::Block(body, at) => Ok(Work::Block(body.share()?, *at)),
        Work::Stmt(body, at) => Ok(Work::Stmt(body.share()?, *at)),
        Work::Store(name) => Ok(Work::Store(name.share()?)),
        Work::Forget => Ok(Work::Forget),
        Work::Branch(branches, last, at) => {
            let last = share_otherwise(last)?;
            Ok(Work::Branch(branches.share()?, last, *at))
        }
        Work::Loop(condition, body) => {
            let body = body.share()?;
            Ok(Work::Loop(condition.share()?, body))
        }
        Work::Turn(condition, body) => {
            let body = body.share()?;
            Ok(Work::Turn(condition.share()?, body))
        }
        Work::Eval(e) => Ok(Work::Eval(e.share()?)),
        Work::Short(decides, e) => Ok(Work::Short(*decides, e.share()?)),
        Work::Neg(site) => Ok(Work::Neg(*site)),
        Work::Not => Ok(Work::Not),
        Work::Binary(op, site, arithmetic) => Ok(Work::Binary(*op, *site, *arithmetic)),
        Work::Read(site, field) => Ok(Work::Read(*site, field.share()?)),
        Work::New(class) => Ok(Work::New(*class)),
        Work::Call(site, sites) => {
            let sites = Items::from_slice(alloc, sites.as_slice())?;
            Ok(Work::Call(*site, sites))
        }
        Work::Start(name, site, sites) => {
            let sites = Items::from_slice(alloc, sites.as_slice())?;
            Ok(Work::Start(name.share()?, *site, sites))
        }
        Work::Arg { site, to, at } => {
            let to = to.share()?;
            Ok(Work::Arg {
                site: *site,
                to,
                at: *at,
            })
        }
        Work::Cast(site) => Ok(Work::Cast(*site)),
        Work::Result(site) => Ok(Work::Result(*site)),
        Work::Fitted { site, to, at } => {
            let to = to.share()?;
            Ok(Work::Fitted {
                site: *site,
                to,
                at: *at,
            })
        }
        Work::Enter {
            func,
            merged,
            count,
        } => {
            let merged = merged.share()?;
            Ok(Work::Enter {
                func: *func,
                merged,
                count: *count,
            })
        }
        Work::Begin {
            name,
            func,
            merged,
            count,
        } => {
            let name = name.share()?;
            let merged = merged.share()?;
            Ok(Work::Begin {
                name,
                func: *func,
                merged,
                count: *count,
            })
        }
        Work::Fall(site) => Ok(Work::Fall(*site)),
        Work::Join(thread) => Ok(Work::Join(*thread)),
        Work::Leave => Ok(Work::Leave),
        Work::Obligation {
            class,
            object,
            field,
            to,
            ready,
        } => copy_obligation(*class, *object, field, to, ready),
        Work::Write {
            member,
            write,
            is,
            field,
            fitted,
        } => copy_write(*member, *write, is, field, fitted),
        Work::Print(count) => Ok(Work::Print(*count)),
    }
}

fn copy_items(alloc: Global, work: &Stack<Work>) -> Result<Stack<Work>, AllocError>
    ensures { IfOk result (λ copy. copy ≡ work.now) }
{
    let mut copy = Stack::new(alloc);
    for item in work.bottom_up() {
        let item = copy_work(alloc, item)?;
        copy.push(item)?;
    }
    Ok(copy)
}

fn copy_values(alloc: Global, values: &Stack<Val>) -> Result<Stack<Val>, AllocError>
    ensures { IfOk result (λ copy. copy ≡ values.now) }
{
    let mut copy = Stack::new(alloc);
    for value in values.bottom_up() {
        let value = copy_val(value)?;
        copy.push(value)?;
    }
    Ok(copy)
}

fn copy_bound(value: &Option<Val>) -> Result<Option<Val>, AllocError>
    ensures { IfOk result (λ copy. copy ≡ value.now) }
{
    match value {
        None => Ok(None),
        Some(value) => {
            let value = copy_val(value)?;
            Ok(Some(value))
        }
    }
}

fn copy_names(
    alloc: Global,
    names: &NameMap<Option<Val>>,
) -> Result<NameMap<Option<Val>>, AllocError>
    ensures { IfOk result (λ copy. copy ≡ names.now) }
{
    let mut copy = NameMap::new(alloc);
    for entry in names.entries() {
        let name = entry.0.share()?;
        let value = copy_bound(&entry.1)?;
        copy.push(name, value)?;
    }
    Ok(copy)
}

fn copy_handles(
    alloc: Global,
    handles: &NameMap<Option<u32>>,
) -> Result<NameMap<Option<u32>>, AllocError>
    ensures { IfOk result (λ copy. copy ≡ handles.now) }
{
    let mut copy = NameMap::new(alloc);
    for entry in handles.entries() {
        let name = entry.0.share()?;
        copy.push(name, entry.1)?;
    }
    Ok(copy)
}

fn copy_frame(alloc: Global, frame: &Frame) -> Result<Frame, AllocError>
    ensures { IfOk result (λ copy. copy ≡ frame.now) }
{
    let names = copy_names(alloc, &frame.names)?;
    let handles = copy_handles(alloc, &frame.handles)?;
    let started = Items::from_slice(alloc, frame.started.as_slice())?;
    let asked = copy_type(&frame.asked)?;
    let work = copy_items(alloc, &frame.work)?;
    let values = copy_values(alloc, &frame.values)?;
    Ok(Frame {
        names,
        handles,
        started,
        asked,
        work,
        values,
    })
}

fn copy_frames(alloc: Global, frames: &Stack<Frame>) -> Result<Stack<Frame>, AllocError>
    ensures { IfOk result (λ copy. copy ≡ frames.now) }
{
    let mut copy = Stack::new(alloc);
    for frame in frames.bottom_up() {
        let frame = copy_frame(alloc, frame)?;
        copy.push(frame)?;
    }
    Ok(copy)
}

fn copy_state(alloc: Global, state: &State) -> Result<State, AllocError>
    ensures { IfOk result (λ copy. copy ≡ state.now) }
{
    match state {
        State::Running(frame, below) => {
            let frame = copy_frame(alloc, frame)?;
            let below = copy_frames(alloc, below)?;
            Ok(State::Running(frame, below))
        }
        State::Failing(end) => Ok(State::Failing(*end)),
        State::Finished(value) => {
            let value = copy_val(value)?;
            Ok(State::Finished(value))
        }
        State::Stopped => Ok(State::Stopped),
    }
}

fn copy_thread(alloc: Global, thread: &Thread) -> Result<Thread, AllocError>
    ensures { IfOk result (λ copy. copy ≡ thread.now) }
{
    let asked = copy_type(&thread.asked)?;
    let state = copy_state(alloc, &thread.state)?;
    Ok(Thread {
        asked,
        state,
        steps: thread.steps,
    })
}

/// The same threads.
pub fn copy_threads(alloc: Global, threads: &[Thread]) -> Result<Slots<Thread>, AllocError>
    ensures { IfOk result (λ copy. copy ≡ threads.now) }
{
    let mut copy = Slots::new(alloc);
    for thread in threads {
        let thread = copy_thread(alloc, thread)?;
        copy.push(thread)?;
    }
    Ok(copy)
}

fn copy_line(alloc: Global, line: &[Val]) -> Result<Items<Val>, AllocError>
    ensures { IfOk result (λ copy. copy ≡ line.now) }
{
    let mut copy = Items::new(alloc);
    for value in line {
        let value = copy_val(value)?;
        copy.push(value)?;
    }
    Ok(copy)
}

/// The same lines.
pub fn copy_lines(alloc: Global, lines: &[Items<Val>]) -> Result<Lines, AllocError>
    ensures { IfOk result (λ copy. copy ≡ lines.now) }
{
    let mut copy = Items::new(alloc);
    for line in lines {
        let line = copy_line(alloc, line.as_slice())?;
        copy.push(line)?;
    }
    Ok(copy)
}

/// The same cells.
fn copy_cells(alloc: Global, cells: &NameMap<Cell>) -> Result<NameMap<Cell>, AllocError>
    ensures { IfOk result (λ copy. copy ≡ cells.now) }
{
    let mut copy = NameMap::new(alloc);
    for entry in cells.entries() {
        let name = entry.0.share()?;
        let ty = entry.1.ty.share()?;
        let value = copy_val(&entry.1.value)?;
        copy.push(name, Cell { ty, value })?;
    }
    Ok(copy)
}

/// The same object.
pub fn copy_object(alloc: Global, object: &Object) -> Result<Object, AllocError>
    ensures { IfOk result (λ copy. copy ≡ object.now) }
{
    let cells = copy_cells(alloc, &object.cells)?;
    Ok(Object {
        class: object.class,
        cells,
        waits: object.waits,
        maker: object.maker,
    })
}

/// One more owner of what stands behind `else`.
pub fn share_otherwise(last: &Option<StmtList>) -> Result<Option<StmtList>, AllocError>
    ensures { IfOk result (λ l. l ≡ last.now) }
{
    match last {
        None => Ok(None),
        Some(body) => {
            let body = body.share()?;
            Ok(Some(body))
        }
    }
}
