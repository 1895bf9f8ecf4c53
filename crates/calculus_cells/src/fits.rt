ghost use Rattle.std.specs.Prelude.{◌≡◌, IfOk, OnOk, slice_get};
ghost use Rattle.mono_syntax.specs.TyView.{fields};
ghost use Rattle.mono_tree.specs.FieldNames.{names_of};
ghost use Rattle.mono_tree.specs.CastScripts.{fields_of, class_fields, class_names};
ghost use Rattle.cast_machine.specs.Fits.{fit_of, fit_fun, fit_obj, names_same};
ghost use Rattle.cast_machine.specs.Obligations.{obligations};
ghost use Rattle.cast_machine.specs.Rows.{fit_value, fit_at, fit_top};

use calculus_data::{copy_val, fails, goes, meet, members_of};
use cast_machine::{End, Fit, Frame, Outcome, Work};
use mono_list::{Shared, Stack};
use mono_syntax::{CastScript, Field, Ty, TyKind, Val};
use std::alloc::{AllocError, Global};

#[tactic(auto, using(crate::proofs::Names::uneven))]
fn same_names(members: &[Field], others: &[Field]) -> bool
    ensures { result ≡ names_same (names_of (fields members.now)) (names_of (fields others.now)) }
{
    if members.len() != others.len() {
        return false;
    }
    for (a, b) in members.iter().zip(others) {
        if a.name.as_slice() != b.name.as_slice() {
            return false;
        }
    }
    true
}

/// The declared fields of a class.
fn class_members(script: &CastScript, class: u32) -> &[Field]
    ensures { fields result.now ≡ class_fields script.now class }
{
    match script.classes.get(class as usize) {
        None => &[],
        Some(definition) => members_of(definition.ty.get()),
    }
}

/// Whether an object of the class has exactly the names of these fields.
fn has_names(script: &CastScript, class: u32, members: &[Field]) -> bool
    ensures { result ≡ names_same (class_names script.now class) (names_of (fields members.now)) }
{
    same_names(class_members(script, class), members)
}

/// A fit of a value to a type.
pub fn fit(alloc: Global, script: &CastScript, value: Val, ty: &Ty) -> Result<Fit, AllocError>
    ensures { IfOk result (λ f. f ≡ fit_of script.now value ty.now) }
{
    match (value, &ty.kind) {
        (value, TyKind::Dyn) => Ok(Fit::Holds(value)),
        (Val::Int(n), TyKind::Int) => Ok(Fit::Holds(Val::Int(n))),
        (Val::Bool(b), TyKind::Bool) => Ok(Fit::Holds(Val::Bool(b))),
        (Val::Text(text), TyKind::Str) => Ok(Fit::Holds(Val::Text(text))),
        (Val::Nil, TyKind::Nil) => Ok(Fit::Holds(Val::Nil)),
        (Val::Fun { func, merged }, TyKind::Fun(_, _)) => match meet(alloc, merged.get(), ty)? {
            None => Ok(Fit::Unfit),
            Some(merged) => Ok(Fit::Holds(Val::Fun { func, merged })),
        },
        (Val::Obj { class, base }, TyKind::Obj(members)) => {
            if has_names(script, class, members.as_slice()) {
                Ok(Fit::Opens { class, base })
            } else {
                Ok(Fit::Unfit)
            }
        }
        _ => Ok(Fit::Unfit),
    }
}

fn push_fields(
    work: &mut Stack<Work>,
    class: u32,
    base: u32,
    members: &[Field],
) -> Result<(), AllocError>
    ensures { OnOk result (work.new ≡ obligations class base (fields members.now) work.old) }
{
    let mut left = members.len();
    while left > 0 {
        left -= 1;
        let field = members[left].name.share()?;
        let to = members[left].ty.share()?;
        work.push(Work::Obligation {
            class,
            object: base,
            field,
            to,
            ready: None,
        })?;
    }
    Ok(())
}

/// The obligations of an object for a type are put on top.
pub fn push_obligations(
    work: &mut Stack<Work>,
    class: u32,
    base: u32,
    ty: &Ty,
) -> Result<(), AllocError>
    ensures { OnOk result (work.new ≡ obligations class base (fields_of ty.now) work.old) }
{
    match &ty.kind {
        TyKind::Obj(members) => push_fields(work, class, base, members.as_slice()),
        _ => Ok(()),
    }
}

/// A fit of the value at a place of the value list, at a site.
#[tactic(auto, using(calculus_data::proofs::Pushed::pushed))]
pub fn fit_at(
    alloc: Global,
    script: &CastScript,
    site: u32,
    to: Shared<Ty>,
    at: u64,
    mut frame: Frame,
    below: Stack<Frame>,
) -> Result<Outcome, AllocError>
    ensures { IfOk result (λ o. o ≡ fit_at script.now site to at (slice_get frame.values at) frame below) }
{
    let Some(value) = frame.values.peek(at) else {
        return Ok(Outcome::NoRow);
    };
    let value = copy_val(value)?;
    match fit(alloc, script, value, to.get())? {
        Fit::Unfit => Ok(fails(End::Blame(site))),
        Fit::Holds(value) => {
            frame.values.put(at, value);
            Ok(goes(frame, below))
        }
        Fit::Opens { class, base } => {
            let opened = to.share()?;
            frame.work.push(Work::Fitted { site, to, at })?;
            push_obligations(&mut frame.work, class, base, opened.get())?;
            Ok(goes(frame, below))
        }
    }
}

/// A fit of the top value, where there is a type.
pub fn fit_top(
    alloc: Global,
    script: &CastScript,
    site: u32,
    to: Option<Shared<Ty>>,
    frame: Frame,
    below: Stack<Frame>,
) -> Result<Outcome, AllocError>
    ensures { IfOk result (λ o. o ≡ fit_top script.now site to frame below) }
{
    match to {
        None => Ok(Outcome::NoRow),
        Some(to) => fit_at(alloc, script, site, to, 0, frame, below),
    }
}
