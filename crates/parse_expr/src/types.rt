ghost use Rattle.std.specs.Prelude.{◌≡◌, [], ◌∷◌, ◌+◌, ◌<◌, ◌≤◌, max, length, IfOk, Some, None, nat_lt};
ghost use Rattle.mono_syntax.specs.Limits.{greatest_weight};
ghost use Rattle.mono_syntax.specs.AnnView.{form_of};
ghost use Rattle.parse_expr.specs.computed.TypeReading.{type_if, type_leaf, type_mark, type_begin, type_outer, type_inner, type_first_mark, type_first, type_between, type_comma, type_close, type_behind, type_step, type_whole, type_finish, type_next, AreLightTypes, IsLightType};

use crate::machine::{TypeFrame, TypeMode, TypeNext, Weighed};
use mono_list::Stack;
use mono_syntax::{Ann, AnnForm, Place, Word};
use spelled_tokens::{Mark, Spelled, What};
use sqlite_items::{Boxed, Items};
use std::alloc::{AllocError, Global};

/// The greater of two weights.
pub fn greater(a: u32, b: u32) -> u32
    ensures { result ≡ max a b }
{
    if a < b { b } else { a }
}

/// A type of one token, where there is room for it.
fn leaf(room: usize, stack: Stack<TypeFrame>, place: Place, what: AnnForm) -> TypeNext
    ensures { result ≡ type_next (type_leaf room stack place (form_of what)) None }
{
    if stack.len() < room {
        TypeNext::Go(TypeMode::Have(stack, Ann { place, what }, 1))
    } else {
        TypeNext::Stop(None)
    }
}

/// A word of types where a type is wanted.
fn begin_mark(room: usize, stack: Stack<TypeFrame>, place: Place, mark: Mark) -> TypeNext
    ensures { result ≡ type_next (type_mark room stack place mark) None }
{
    match mark {
        Mark::Dyn => leaf(room, stack, place, AnnForm::Dyn),
        Mark::Int => leaf(room, stack, place, AnnForm::Int),
        Mark::Bool => leaf(room, stack, place, AnnForm::Bool),
        Mark::Str => leaf(room, stack, place, AnnForm::Str),
        Mark::Callable => outermost(room, stack, place),
        _ => TypeNext::Stop(None),
    }
}

/// Behind `Callable`, where there is room for parts.
fn outermost(room: usize, stack: Stack<TypeFrame>, place: Place) -> TypeNext
    ensures { result ≡ type_next (type_if (nat_lt (length stack + 1) room) (TypeMode.Outer place stack)) None }
{
    if room > 0 && stack.len() < room - 1 {
        TypeNext::Go(TypeMode::Outer(place, stack))
    } else {
        TypeNext::Stop(None)
    }
}

/// A token where a type is wanted.
fn begin(room: usize, stack: Stack<TypeFrame>, place: Place, what: What) -> TypeNext
    ensures { result ≡ type_next (type_begin room stack place what) None }
{
    match what {
        What::Nil => leaf(room, stack, place, AnnForm::Nil),
        What::Name(text) => leaf(room, stack, place, AnnForm::Class(Word { text, place })),
        What::Mark(mark) => begin_mark(room, stack, place, mark),
        _ => TypeNext::Stop(None),
    }
}

/// The first `[` behind `Callable`.
fn outer(place: Place, stack: Stack<TypeFrame>, what: What) -> TypeNext
    ensures { result ≡ type_next (type_outer place stack what) None }
{
    match what {
        What::Mark(Mark::OpenSquare) => TypeNext::Go(TypeMode::Inner(place, stack)),
        _ => TypeNext::Stop(None),
    }
}

/// The second one.
fn inner(place: Place, stack: Stack<TypeFrame>, what: What) -> TypeNext
    ensures { result ≡ type_next (type_inner place stack what) None }
{
    match what {
        What::Mark(Mark::OpenSquare) => TypeNext::Go(TypeMode::First(place, stack)),
        _ => TypeNext::Stop(None),
    }
}

/// The frames with that of a first parameter on top.
fn before_first(
    alloc: Global,
    place: Place,
    mut stack: Stack<TypeFrame>,
) -> Result<Stack<TypeFrame>, AllocError>
    ensures { IfOk result (λ s. s ≡ TypeFrame.Params place [] 0 ∷ stack) }
{
    stack.push(TypeFrame::Params(place, Items::new(alloc), 0))?;
    Ok(stack)
}

/// A word of types behind the second `[`.
fn first_mark(
    alloc: Global,
    room: usize,
    place: Place,
    stack: Stack<TypeFrame>,
    at: Place,
    mark: Mark,
) -> Result<TypeNext, AllocError>
    ensures { IfOk result (λ n. n ≡ type_next (type_first_mark room place stack at mark) None) }
{
    if matches!(mark, Mark::CloseSquare) {
        let none = Items::new(alloc);
        return Ok(TypeNext::Go(TypeMode::Between(place, none, 0, stack)));
    }
    let stack = before_first(alloc, place, stack)?;
    Ok(begin_mark(room, stack, at, mark))
}

/// The first parameter, or the end of none.
fn first(
    alloc: Global,
    room: usize,
    place: Place,
    stack: Stack<TypeFrame>,
    at: Place,
    what: What,
) -> Result<TypeNext, AllocError>
    ensures { IfOk result (λ n. n ≡ type_next (type_first room place stack at what) None) }
{
    match what {
        What::Mark(mark) => first_mark(alloc, room, place, stack, at, mark),
        _ => {
            let stack = before_first(alloc, place, stack)?;
            Ok(begin(room, stack, at, what))
        }
    }
}

/// The comma behind the parameters.
fn between(
    place: Place,
    params: Items<Ann>,
    weight: u32,
    mut stack: Stack<TypeFrame>,
    what: What,
) -> Result<TypeNext, AllocError>
    ensures { IfOk result (λ n. n ≡ type_next (type_between place params weight stack what) None) }
{
    match what {
        What::Comma => {
            stack.push(TypeFrame::Result(place, params, weight))?;
            Ok(TypeNext::Go(TypeMode::Want(stack)))
        }
        _ => Ok(TypeNext::Stop(None)),
    }
}

/// The type that was read, where nothing is open.
fn whole(stack: Stack<TypeFrame>, ann: Ann, weight: u32) -> Option<Weighed>
    ensures { result ≡ type_whole stack ann weight }
{
    if stack.len() == 0 {
        Some(Weighed { ann, weight })
    } else {
        None
    }
}

/// A comma behind a type.
fn comma(mut stack: Stack<TypeFrame>, ann: Ann, weight: u32) -> Result<TypeNext, AllocError>
    ensures { IfOk result (λ n. n ≡ type_next (type_comma stack ann weight) (type_whole stack ann weight)) }
{
    match stack.pop() {
        None => Ok(TypeNext::Stop(Some(Weighed { ann, weight }))),
        Some(TypeFrame::Params(place, mut params, most)) => {
            params.push(ann)?;
            stack.push(TypeFrame::Params(place, params, greater(most, weight)))?;
            Ok(TypeNext::Go(TypeMode::Want(stack)))
        }
        Some(_) => Ok(TypeNext::Stop(None)),
    }
}

/// A `]` behind a type.
fn close(
    alloc: Global,
    mut stack: Stack<TypeFrame>,
    ann: Ann,
    weight: u32,
) -> Result<TypeNext, AllocError>
    requires { AreLightTypes stack × (weight ≤ greatest_weight) }
    ensures { IfOk result (λ n. n ≡ type_next (type_close stack ann weight) (type_whole stack ann weight)) }
{
    match stack.pop() {
        None => Ok(TypeNext::Stop(Some(Weighed { ann, weight }))),
        Some(TypeFrame::Params(place, mut params, most)) => {
            params.push(ann)?;
            let most = greater(most, weight);
            Ok(TypeNext::Go(TypeMode::Between(place, params, most, stack)))
        }
        Some(TypeFrame::Result(place, params, most)) => {
            let what = AnnForm::Fun(params, Boxed::new(alloc, ann)?);
            let weight = greater(most, weight) + 1;
            Ok(TypeNext::Go(TypeMode::Have(stack, Ann { place, what }, weight)))
        }
    }
}

/// A token behind a type.
fn behind(
    alloc: Global,
    stack: Stack<TypeFrame>,
    ann: Ann,
    weight: u32,
    what: What,
) -> Result<TypeNext, AllocError>
    requires { AreLightTypes stack × (weight ≤ greatest_weight) }
    ensures { IfOk result (λ n. n ≡ type_next (type_behind stack ann weight what) (type_whole stack ann weight)) }
{
    match what {
        What::Comma => comma(stack, ann, weight),
        What::Mark(Mark::CloseSquare) => close(alloc, stack, ann, weight),
        _ => Ok(TypeNext::Stop(whole(stack, ann, weight))),
    }
}

/// What a token does where a type is read. Where it stops the reading, the answer is what `type_finish` gives.
pub fn type_step(
    alloc: Global,
    room: usize,
    mode: TypeMode,
    token: Spelled,
) -> Result<TypeNext, AllocError>
    requires { IsLightType mode }
    ensures { IfOk result (λ n. n ≡ type_next (type_step room mode token) (type_finish mode)) }
{
    match mode {
        TypeMode::Want(stack) => Ok(begin(room, stack, token.place, token.what)),
        TypeMode::Outer(place, stack) => Ok(outer(place, stack, token.what)),
        TypeMode::Inner(place, stack) => Ok(inner(place, stack, token.what)),
        TypeMode::First(place, stack) => {
            first(alloc, room, place, stack, token.place, token.what)
        }
        TypeMode::Between(place, params, weight, stack) => {
            between(place, params, weight, stack, token.what)
        }
        TypeMode::Have(stack, ann, weight) => behind(alloc, stack, ann, weight, token.what),
    }
}

/// The type, where what was read so far is one.
pub fn type_finish(mode: TypeMode) -> Option<Weighed>
    ensures { result ≡ type_finish mode }
{
    match mode {
        TypeMode::Have(stack, ann, weight) => whole(stack, ann, weight),
        _ => None,
    }
}
