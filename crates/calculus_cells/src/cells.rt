ghost use Rattle.std.specs.Prelude.{◌≡◌, [], ◌∷◌, IfOk, if◌then◌else◌};
ghost use Rattle.mono_tree.specs.CastScripts.{fields_of};
ghost use Rattle.cast_machine.specs.Obligations.{obligations};
ghost use Rattle.cast_machine.specs.Heap.{cell_at};
ghost use Rattle.calculus_data.specs.computed.Owners.{owner_site};
ghost use Rattle.cast_machine.specs.Fits.{fit_of};
ghost use Rattle.cast_machine.specs.Rows.{has, does};
ghost use Rattle.cast_machine.specs.Cells.{blaming, settle, on_cell, holds, read_cell, read_from, blamed, same_object, is_ready, strengthen, meets, obligation_cell, obligation_step, is_object, is_fitted, write_fit, write_open, write_cell, write_step};

use crate::fits::{fit, push_obligations};
use calculus_data::{
    Heap, blames, copy_val, fails, goes, is_dyn, is_fully_static, is_precise, is_same, meet,
};
use cast_machine::{Cell, Change, End, Fit, Frame, Outcome, Ready, State, Verdict, Work};
use mono_list::{Shared, Stack};
use mono_syntax::{CastScript, Name, Ty, Val};
use std::alloc::{AllocError, Global};

/// A field whose recorded type is to become at least as precise as `to`.
#[derive(Drop)]
pub struct Demand {
    pub class: u32,
    pub object: u32,
    pub field: Name,
    pub to: Shared<Ty>,
    pub ready: Option<Ready>,
}

/// A write to a field: its Member and Write sites, the field's static type and name, and the type to which the value is
/// fitted.
#[derive(Drop)]
pub struct Writing {
    pub member: Option<u32>,
    pub write: Option<u32>,
    pub is: Shared<Ty>,
    pub field: Name,
    pub fitted: Option<Shared<Ty>>,
}

fn blaming(site: Option<u32>) -> Verdict
    ensures { result ≡ blaming site }
{
    match site {
        None => Verdict::NoRow,
        Some(site) => Verdict::Fails(End::Blame(site)),
    }
}

fn settle(base: u32, field: Name, verdict: Verdict, below: Stack<Frame>) -> Outcome
    ensures { result ≡ settle base field verdict below }
{
    match verdict {
        Verdict::NoRow => Outcome::NoRow,
        Verdict::Goes(frame) => goes(frame, below),
        Verdict::Fails(end) => fails(end),
        Verdict::Sets(cell, frame) => Outcome::Moves(
            Change::Sets { base, field, cell },
            State::Running(frame, below),
        ),
    }
}

fn read_verdict(
    heap: &Heap,
    base: u32,
    field: &Name,
    member: Option<u32>,
    mut frame: Frame,
) -> Result<Verdict, AllocError>
    ensures { IfOk result (λ v. v ≡ on_cell (blaming member) (read_cell frame frame.values) (cell_at heap.now base field.now)) }
{
    match heap.cell(base, field.as_slice()) {
        None => Ok(blaming(member)),
        Some(cell) => {
            let value = copy_val(&cell.value)?;
            frame.values.push(value)?;
            Ok(Verdict::Goes(frame))
        }
    }
}

/// The row of a read.
pub fn read(
    heap: &Heap,
    member: Option<u32>,
    field: Name,
    mut frame: Frame,
    below: Stack<Frame>,
) -> Result<Outcome, AllocError>
    ensures { IfOk result (λ o. o ≡ read_from heap.now member field frame.values frame below) }
{
    match frame.values.pop() {
        None => Ok(Outcome::NoRow),
        Some(Val::Obj { class: _, base }) => {
            let verdict = read_verdict(heap, base, &field, member, frame)?;
            Ok(settle(base, field, verdict, below))
        }
        Some(_) => Ok(blames(member)),
    }
}

/// The site of an item that owns the obligations above it.
fn owner_site(item: &Work) -> Option<Option<u32>>
    ensures { result ≡ owner_site item.now }
{
    match item {
        Work::Fitted { site, to: _, at: _ } => Some(Some(*site)),
        Work::Write {
            member: _,
            write,
            is: _,
            field: _,
            fitted: _,
        } => Some(*write),
        _ => None,
    }
}

/// The site of the nearest Fitted or Write below the top.
#[tactic(auto, using(calculus_data::proofs::Pushed::owned))]
fn blamed(work: &Stack<Work>) -> Option<u32>
    ensures { result ≡ blamed work.now }
{
    for at in 0..work.len() as u64 {
        let Some(item) = work.peek(at) else {
            return None;
        };
        if let Some(site) = owner_site(item) {
            return site;
        }
    }
    None
}

fn same_object(v: &Val, w: &Val) -> bool
    ensures { result ≡ same_object v.now w.now }
{
    match (v, w) {
        (Val::Obj { class: c, base: a }, Val::Obj { class: d, base: b }) => c == d && a == b,
        _ => false,
    }
}

fn is_ready(ready: &Option<Ready>, value: &Val, ty: &Ty) -> bool
    ensures { result ≡ is_ready ready.now value.now ty.now }
{
    match ready {
        None => false,
        Some(pair) => same_object(&pair.value, value) && is_same(pair.ty.get(), ty),
    }
}

/// The inner object's own obligations go on top, and the pair is kept.
#[tactic(auto, using(calculus_data::proofs::Pushed::pushed))]
fn make_ready(
    demand: Demand,
    cell: &Cell,
    meet: Shared<Ty>,
    class: u32,
    base: u32,
    mut frame: Frame,
) -> Result<Verdict, AllocError>
    ensures { IfOk result (λ v. v ≡ Verdict.Goes (does (obligations class base (fields_of meet) (Work.Obligation demand.class demand.object demand.field demand.to (Some (record { value = cell.now.value; ty = meet })) ∷ [])) frame)) }
{
    let value = copy_val(&cell.value)?;
    let ty = meet.share()?;
    frame.work.push(Work::Obligation {
        class: demand.class,
        object: demand.object,
        field: demand.field,
        to: demand.to,
        ready: Some(Ready { value, ty }),
    })?;
    push_obligations(&mut frame.work, class, base, meet.get())?;
    Ok(Verdict::Goes(frame))
}

/// An obligation by what a fit of the cell's value to the meet finds.
fn strengthen(
    alloc: Global,
    script: &CastScript,
    demand: Demand,
    cell: &Cell,
    meet: Shared<Ty>,
    frame: Frame,
) -> Result<Verdict, AllocError>
    ensures { IfOk result (λ v. v ≡ strengthen demand.class demand.object demand.field demand.to demand.ready frame cell.now meet (fit_of script.now cell.now.value meet)) }
{
    let value = copy_val(&cell.value)?;
    match fit(alloc, script, value, meet.get())? {
        Fit::Unfit => Ok(blaming(blamed(&frame.work))),
        Fit::Holds(value) => Ok(Verdict::Sets(Cell { ty: meet, value }, frame)),
        Fit::Opens { class, base } => {
            if is_ready(&demand.ready, &cell.value, meet.get()) {
                let value = copy_val(&cell.value)?;
                Ok(Verdict::Sets(Cell { ty: meet, value }, frame))
            } else {
                make_ready(demand, cell, meet, class, base, frame)
            }
        }
    }
}

fn obligation_verdict(
    alloc: Global,
    script: &CastScript,
    demand: Demand,
    cell: &Cell,
    frame: Frame,
) -> Result<Verdict, AllocError>
    ensures { IfOk result (λ v. v ≡ obligation_cell script.now demand.class demand.object demand.field demand.to demand.ready frame cell.now) }
{
    if is_precise(cell.ty.get(), demand.to.get()) {
        return Ok(Verdict::Goes(frame));
    }
    match meet(alloc, cell.ty.get(), demand.to.get())? {
        None => Ok(blaming(blamed(&frame.work))),
        Some(meet) => strengthen(alloc, script, demand, cell, meet, frame),
    }
}

/// The row of an obligation.
pub fn obligation(
    alloc: Global,
    script: &CastScript,
    heap: &Heap,
    demand: Demand,
    frame: Frame,
    below: Stack<Frame>,
) -> Result<Outcome, AllocError>
    ensures { IfOk result (λ o. o ≡ obligation_step script.now heap.now demand.class demand.object demand.field demand.to demand.ready frame below) }
{
    let base = demand.object;
    let field = demand.field.share()?;
    match heap.cell(base, field.as_slice()) {
        None => Ok(Outcome::NoRow),
        Some(cell) => {
            let verdict = obligation_verdict(alloc, script, demand, cell, frame)?;
            Ok(settle(base, field, verdict, below))
        }
    }
}

fn is_object(value: &Val) -> bool
    ensures { result ≡ is_object value.now }
{
    matches!(value, Val::Obj { class: _, base: _ })
}

fn is_fitted(fitted: &Option<Shared<Ty>>, ty: &Ty) -> bool
    ensures { result ≡ is_fitted fitted.now ty.now }
{
    match fitted {
        None => false,
        Some(fitted) => is_same(fitted.get(), ty),
    }
}

/// A value that is no object, or a recorded type that is Dyn: the value fits, or its writer is blamed.
fn write_fit(
    alloc: Global,
    script: &CastScript,
    write: Option<u32>,
    ty: Shared<Ty>,
    value: Val,
    frame: Frame,
) -> Result<Verdict, AllocError>
    ensures { IfOk result (λ v. v ≡ write_fit write frame ty (fit_of script.now value ty)) }
{
    match fit(alloc, script, value, ty.get())? {
        Fit::Holds(value) => Ok(Verdict::Sets(Cell { ty, value }, frame)),
        Fit::Unfit => Ok(blaming(write)),
        Fit::Opens { class: _, base: _ } => Ok(Verdict::NoRow),
    }
}

/// An object that isn't fitted to the recorded type yet. The frame still has both values.
#[tactic(auto, using(calculus_data::proofs::Pushed::pushed))]
fn write_open(
    alloc: Global,
    script: &CastScript,
    item: Writing,
    ty: Shared<Ty>,
    value: Val,
    mut frame: Frame,
) -> Result<Verdict, AllocError>
    ensures { IfOk result (λ v. v ≡ write_open item.member item.write item.is item.field frame ty (fit_of script.now value ty)) }
{
    match fit(alloc, script, value, ty.get())? {
        Fit::Opens { class, base } => {
            let fitted = ty.share()?;
            frame.work.push(Work::Write {
                member: item.member,
                write: item.write,
                is: item.is,
                field: item.field,
                fitted: Some(fitted),
            })?;
            push_obligations(&mut frame.work, class, base, ty.get())?;
            Ok(Verdict::Goes(frame))
        }
        Fit::Unfit => Ok(blaming(item.write)),
        Fit::Holds(_) => Ok(Verdict::NoRow),
    }
}

/// The write of an object to a field whose recorded type isn't Dyn.
fn write_object(
    alloc: Global,
    script: &CastScript,
    item: Writing,
    receiver: Val,
    value: Val,
    ty: Shared<Ty>,
    mut frame: Frame,
) -> Result<Verdict, AllocError>
    ensures { IfOk result (λ v. v ≡ (if is_fitted item.fitted ty then Verdict.Sets (holds ty value) frame else write_open item.member item.write item.is item.field (has (receiver ∷ value ∷ frame.values) frame) ty (fit_of script.now value ty))) }
{
    if is_fitted(&item.fitted, ty.get()) {
        return Ok(Verdict::Sets(Cell { ty, value }, frame));
    }
    let kept = copy_val(&value)?;
    frame.values.push(kept)?;
    frame.values.push(receiver)?;
    write_open(alloc, script, item, ty, value, frame)
}

fn write_verdict(
    alloc: Global,
    script: &CastScript,
    item: Writing,
    cell: &Cell,
    receiver: Val,
    value: Val,
    frame: Frame,
) -> Result<Verdict, AllocError>
    ensures { IfOk result (λ v. v ≡ write_cell script.now item.member item.write item.is item.field item.fitted value frame (has (receiver ∷ value ∷ frame.values) frame) cell.now) }
{
    if is_fully_static(item.is.get()) {
        return Ok(Verdict::Sets(Cell { ty: item.is, value }, frame));
    }
    let ty = cell.ty.share()?;
    if is_dyn(ty.get()) {
        return write_fit(alloc, script, item.write, ty, value, frame);
    }
    if is_object(&value) {
        write_object(alloc, script, item, receiver, value, ty, frame)
    } else {
        write_fit(alloc, script, item.write, ty, value, frame)
    }
}

/// The row of a write of a value to a field of an object, both of which were taken off.
#[tactic(auto, using(calculus_data::proofs::Pushed::written))]
fn write_to(
    alloc: Global,
    script: &CastScript,
    heap: &Heap,
    item: Writing,
    class: u32,
    base: u32,
    value: Val,
    frame: Frame,
    below: Stack<Frame>,
) -> Result<Outcome, AllocError>
    ensures { IfOk result (λ o. o ≡ write_step script.now heap.now item.member item.write item.is item.field item.fitted (Val.Obj class base ∷ value ∷ frame.values) (has (Val.Obj class base ∷ value ∷ frame.values) frame) below) }
{
    let field = item.field.share()?;
    match heap.cell(base, field.as_slice()) {
        None => Ok(settle(base, field, blaming(item.member), below)),
        Some(cell) => {
            let receiver = Val::Obj { class, base };
            let verdict = write_verdict(alloc, script, item, cell, receiver, value, frame)?;
            Ok(settle(base, field, verdict, below))
        }
    }
}

/// The row of a write whose receiver and value were taken off.
fn write_popped(
    alloc: Global,
    script: &CastScript,
    heap: &Heap,
    item: Writing,
    receiver: Val,
    value: Val,
    frame: Frame,
    below: Stack<Frame>,
) -> Result<Outcome, AllocError>
    ensures { IfOk result (λ o. o ≡ write_step script.now heap.now item.member item.write item.is item.field item.fitted (receiver ∷ value ∷ frame.values) (has (receiver ∷ value ∷ frame.values) frame) below) }
{
    match receiver {
        Val::Obj { class, base } => {
            write_to(alloc, script, heap, item, class, base, value, frame, below)
        }
        _ => Ok(blames(item.member)),
    }
}

/// The row of a write. The receiver stands on top, and the value below it.
#[tactic(auto, using(calculus_data::proofs::Pushed::valued))]
pub fn write(
    alloc: Global,
    script: &CastScript,
    heap: &Heap,
    item: Writing,
    mut frame: Frame,
    below: Stack<Frame>,
) -> Result<Outcome, AllocError>
    ensures { IfOk result (λ o. o ≡ write_step script.now heap.now item.member item.write item.is item.field item.fitted frame.values frame below) }
{
    let Some(receiver) = frame.values.pop() else {
        return Ok(Outcome::NoRow);
    };
    let Some(value) = frame.values.pop() else {
        return Ok(Outcome::NoRow);
    };
    write_popped(alloc, script, heap, item, receiver, value, frame, below)
}
