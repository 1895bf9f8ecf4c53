ghost use Rattle.std.specs.Prelude.{◌≡◌, [], ◌∷◌, ◌+◌, ◌<◌, ◌≤◌, max, length, IfOk, Some, None, nat_lt};
ghost use Rattle.mono_syntax.specs.Limits.{greatest_weight};
ghost use Rattle.mono_syntax.specs.Expr as expr;
ghost use Rattle.mono_syntax.specs.ExprView.{exprs, expr_of};
ghost use Rattle.parse_expr.specs.computed.TypeReading.{type_finish, type_step, IsLightType};
ghost use Rattle.parse_expr.specs.computed.Reading.{link_left, link_whole, link_right, link_tree, level, hole_of, hole, join, weigh, settle, held, if_some, is_minus, close_empty, begin, join_link, close_at, close, comma_at, comma, whole_at, go_on, field_at, cast_open, cast_comma, cast_type, is_comma, cast_closed, cast_next, inner_room, join_open, join_name, join_close, step, finish, IsLight, IsLightHeld, IsLightMode, next_of};

use crate::machine::{Frame, Held, Link, Mode, Next, TypeMode, TypeNext, Weighed};
use crate::precedence::{op_left, op_right, op_whole};
use crate::types::{greater, type_step};
use mono_list::Stack;
use mono_syntax::{Ann, Expr, ExprKind, Op, Place, Word};
use spelled_tokens::{Spelled, What};
use sqlite_items::{Boxed, Items};
use std::alloc::{AllocError, Global};

/// The level of an operator's left part.
fn link_left(link: Link) -> u32
    ensures { result ≡ link_left link }
{
    match link {
        Link::Or => 1,
        Link::And => 2,
        Link::Operator(op) => op_left(op),
    }
}

/// The level of the whole.
fn link_whole(link: Link) -> u32
    ensures { result ≡ link_whole link }
{
    match link {
        Link::Or => 1,
        Link::And => 2,
        Link::Operator(op) => op_whole(op),
    }
}

/// The level of its right part.
fn link_right(link: Link) -> u32
    ensures { result ≡ link_right link }
{
    match link {
        Link::Or => 2,
        Link::And => 3,
        Link::Operator(op) => op_right(op),
    }
}

/// The level of what a frame makes, and 0 where a bracket closes it.
fn level(frame: &Frame) -> u32
    ensures { result ≡ level frame.now }
{
    match frame {
        Frame::Binary(link, _, _, _) => link_whole(*link),
        Frame::Not(_) => 3,
        Frame::Neg(_) => 7,
        Frame::Bracket | Frame::Call(_, _, _, _) | Frame::Cast(_, _, _) => 0,
    }
}

/// The level of the part that a frame waits for.
fn hole_of(frame: &Frame) -> u32
    ensures { result ≡ hole_of frame.now }
{
    match frame {
        Frame::Binary(link, _, _, _) => link_right(*link),
        Frame::Bracket | Frame::Call(_, _, _, _) | Frame::Cast(_, _, _) => 1,
        _ => level(frame),
    }
}

/// The level wanted on top, and the frames again.
fn hole(mut stack: Stack<Frame>) -> Result<(u32, Stack<Frame>), AllocError>
    ensures { IfOk result (λ p. (p.0 ≡ hole stack) × (p.1 ≡ stack)) }
{
    match stack.pop() {
        None => Ok((1, stack)),
        Some(frame) => {
            let level = hole_of(&frame);
            stack.push(frame)?;
            Ok((level, stack))
        }
    }
}

/// An operator's two parts.
fn link_tree(
    alloc: Global,
    link: Link,
    place: Place,
    left: Expr,
    right: Expr,
) -> Result<Expr, AllocError>
    ensures { IfOk result (λ e. e ≡ link_tree link place left right) }
{
    let left = Boxed::new(alloc, left)?;
    let right = Boxed::new(alloc, right)?;
    let kind = match link {
        Link::Or => ExprKind::Or(left, right),
        Link::And => ExprKind::And(left, right),
        Link::Operator(op) => ExprKind::Binary(op, place, left, right),
    };
    Ok(Expr { kind })
}

fn called(alloc: Global, place: Place, callee: Expr, args: Items<Expr>) -> Result<Expr, AllocError>
    ensures { IfOk result (λ e. e ≡ expr.call place callee (exprs args)) }
{
    let callee = Boxed::new(alloc, callee)?;
    Ok(Expr {
        kind: ExprKind::Call(place, callee, args),
    })
}

fn cast(alloc: Global, place: Place, ann: Ann, part: Expr) -> Result<Expr, AllocError>
    ensures { IfOk result (λ e. e ≡ expr.cast place ann part) }
{
    let part = Boxed::new(alloc, part)?;
    Ok(Expr {
        kind: ExprKind::Cast(place, ann, part),
    })
}

/// What a frame makes of its part.
fn join(alloc: Global, frame: Frame, tree: Expr) -> Result<Expr, AllocError>
    ensures { IfOk result (λ e. e ≡ join frame tree) }
{
    match frame {
        Frame::Binary(link, place, left, _) => link_tree(alloc, link, place, left, tree),
        Frame::Not(place) => {
            let part = Boxed::new(alloc, tree)?;
            let kind = ExprKind::Not(place, part);
            Ok(Expr { kind })
        }
        Frame::Neg(place) => {
            let part = Boxed::new(alloc, tree)?;
            let kind = ExprKind::Neg(place, part);
            Ok(Expr { kind })
        }
        Frame::Bracket => Ok(tree),
        Frame::Call(place, callee, _, mut args) => {
            args.push(tree)?;
            called(alloc, place, callee, args)
        }
        Frame::Cast(place, ann, _) => cast(alloc, place, ann, tree),
    }
}

/// The weight of a frame with its part.
fn weigh(frame: &Frame, weight: u32) -> u32
    requires { weigh frame.now weight ≤ greatest_weight }
    ensures { result ≡ weigh frame.now weight }
{
    match frame {
        Frame::Binary(_, _, _, left) => greater(*left, weight) + 1,
        Frame::Call(_, _, most, _) => greater(*most, weight) + 1,
        Frame::Cast(_, _, ty) => greater(*ty, weight) + 1,
        Frame::Not(_) => weight + 1,
        Frame::Neg(_) => weight + 1,
        Frame::Bracket => weight + 1,
    }
}

/// Closes the frames that a token with this level to its left closes.
fn settle(alloc: Global, left: u32, held: Held) -> Result<Held, AllocError>
    requires { IsLightHeld held }
    ensures settled { IfOk result (λ h. h ≡ settle left held.stack held.tree held.weight) }
    ensures light { IfOk result (λ h. IsLightHeld h) }
{
    let Held {
        mut stack,
        mut tree,
        mut weight,
    } = held;
    while let Some(frame) = stack.pop() {
        if level(&frame) < left {
            stack.push(frame)?;
            return Ok(Held {
                stack,
                tree,
                weight,
            });
        }
        weight = weigh(&frame, weight);
        tree = join(alloc, frame, tree)?;
    }
    Ok(Held {
        stack,
        tree,
        weight,
    })
}

/// The expression, where every frame closes behind its part.
fn ended(alloc: Global, held: Held) -> Result<Option<Expr>, AllocError>
    requires { IsLightHeld held }
    ensures { IfOk result (λ e. e ≡ finish (Mode.Have held)) }
{
    let Held { stack, tree, .. } = settle(alloc, 1, held)?;
    if stack.len() == 0 {
        Ok(Some(tree))
    } else {
        Ok(None)
    }
}

/// Reading stops.
fn stop(alloc: Global, held: Held) -> Result<Next, AllocError>
    requires { IsLightHeld held }
    ensures { IfOk result (λ n. n ≡ Next.Stop (finish (Mode.Have held))) }
{
    Ok(Next::Stop(ended(alloc, held)?))
}

/// A part was read.
fn read(stack: Stack<Frame>, tree: Expr, weight: u32) -> Next
    ensures { result ≡ Next.Go (Mode.Have (held stack tree weight)) }
{
    Next::Go(Mode::Have(Held {
        stack,
        tree,
        weight,
    }))
}

/// An expression of weight 1, where there is room for it.
fn leaf(room: usize, stack: Stack<Frame>, kind: ExprKind) -> Next
    ensures { result ≡ next_of (if_some (nat_lt (length stack) room) (Mode.Have (held stack (expr_of kind) 1))) None }
{
    if stack.len() < room {
        read(stack, Expr { kind }, 1)
    } else {
        Next::Stop(None)
    }
}

/// A part is wanted, in one frame more.
fn want(mut stack: Stack<Frame>, frame: Frame) -> Result<Next, AllocError>
    ensures { IfOk result (λ n. n ≡ Next.Go (Mode.Want (frame ∷ stack))) }
{
    stack.push(frame)?;
    Ok(Next::Go(Mode::Want(stack)))
}

/// A `)` where a part is wanted: it ends a call's arguments.
fn close_empty(alloc: Global, mut stack: Stack<Frame>) -> Result<Next, AllocError>
    requires { IsLight stack }
    ensures { IfOk result (λ n. n ≡ next_of (close_empty stack) None) }
{
    match stack.pop() {
        Some(Frame::Call(place, callee, weight, args)) => {
            let tree = called(alloc, place, callee, args)?;
            Ok(read(stack, tree, weight + 1))
        }
        _ => Ok(Next::Stop(None)),
    }
}

/// A `not` where a part is wanted.
fn begin_not(room: usize, stack: Stack<Frame>, place: Place) -> Result<Next, AllocError>
    requires { length stack ≤ greatest_weight }
    ensures { IfOk result (λ n. n ≡ next_of (begin room stack place What.Not) None) }
{
    if stack.len() + 1 >= room {
        return Ok(Next::Stop(None));
    }
    let (level, stack) = hole(stack)?;
    if level > 3 {
        return Ok(Next::Stop(None));
    }
    want(stack, Frame::Not(place))
}

/// An operator where a part is wanted: `-` begins one.
fn begin_sign(room: usize, stack: Stack<Frame>, place: Place, op: Op) -> Result<Next, AllocError>
    requires { length stack ≤ greatest_weight }
    ensures { IfOk result (λ n. n ≡ next_of (begin room stack place (What.Operator op)) None) }
{
    if stack.len() + 1 < room && matches!(op, Op::Sub) {
        want(stack, Frame::Neg(place))
    } else {
        Ok(Next::Stop(None))
    }
}

/// A bracket where a part is wanted.
fn begin_bracket(room: usize, stack: Stack<Frame>) -> Result<Next, AllocError>
    requires { length stack ≤ greatest_weight }
    ensures { IfOk result (λ n. n ≡ next_of (if_some (nat_lt (length stack + 1) room) (Mode.Want (Frame.Bracket ∷ stack))) None) }
{
    if stack.len() + 1 >= room {
        return Ok(Next::Stop(None));
    }
    want(stack, Frame::Bracket)
}

fn begin_cast(room: usize, stack: Stack<Frame>, place: Place) -> Next
    requires { length stack ≤ greatest_weight }
    ensures { result ≡ next_of (begin room stack place What.Cast) None }
{
    if stack.len() + 1 < room {
        Next::Go(Mode::CastWord(place, stack))
    } else {
        Next::Stop(None)
    }
}

fn begin_join(room: usize, stack: Stack<Frame>, place: Place) -> Next
    ensures { result ≡ next_of (begin room stack place What.Join) None }
{
    if stack.len() < room {
        Next::Go(Mode::JoinWord(place, stack))
    } else {
        Next::Stop(None)
    }
}

/// A token where a part is wanted.
fn begin(
    alloc: Global,
    room: usize,
    stack: Stack<Frame>,
    place: Place,
    what: What,
) -> Result<Next, AllocError>
    requires { IsLight stack × (length stack ≤ greatest_weight) }
    ensures { IfOk result (λ n. n ≡ next_of (begin room stack place what) None) }
{
    match what {
        What::Name(text) => Ok(leaf(room, stack, ExprKind::Local(Word { text, place }))),
        What::Number(number) => Ok(leaf(room, stack, ExprKind::Int(place, number))),
        What::Text(text) => Ok(leaf(room, stack, ExprKind::Text(place, text))),
        What::Bool(truth) => Ok(leaf(room, stack, ExprKind::Bool(place, truth))),
        What::Nil => Ok(leaf(room, stack, ExprKind::Nil(place))),
        What::Not => begin_not(room, stack, place),
        What::Operator(op) => begin_sign(room, stack, place, op),
        What::Open => begin_bracket(room, stack),
        What::Close => close_empty(alloc, stack),
        What::Cast => Ok(begin_cast(room, stack, place)),
        What::Join => Ok(begin_join(room, stack, place)),
        _ => Ok(Next::Stop(None)),
    }
}

/// Behind the left part of an operator.
fn linked(
    alloc: Global,
    room: usize,
    link: Link,
    place: Place,
    held: Held,
) -> Result<Next, AllocError>
    requires { IsLightHeld held }
    ensures { IfOk result (λ n. n ≡ next_of (join_link room link place held) (finish (Mode.Have held))) }
{
    let Held {
        stack,
        tree,
        weight,
    } = held;
    let (level, stack) = hole(stack)?;
    if level > link_whole(link) || weight as usize + stack.len() >= room {
        return stop(
            alloc,
            Held {
                stack,
                tree,
                weight,
            },
        );
    }
    want(stack, Frame::Binary(link, place, tree, weight))
}

#[tactic(auto, using(crate::proofs::Runs::finish_linked))]
fn join_link(
    alloc: Global,
    room: usize,
    link: Link,
    place: Place,
    held: Held,
) -> Result<Next, AllocError>
    requires { IsLightHeld held }
    ensures { IfOk result (λ n. n ≡ next_of (join_link room link place (settle (link_left link) held.stack held.tree held.weight)) (finish (Mode.Have held))) }
{
    let held = settle(alloc, link_left(link), held)?;
    linked(alloc, room, link, place, held)
}

/// A `)` behind a part, where every frame that it closes but the bracket's is closed.
fn close_at(
    alloc: Global,
    mut stack: Stack<Frame>,
    tree: Expr,
    weight: u32,
) -> Result<Next, AllocError>
    requires { IsLight stack × (weight ≤ greatest_weight) }
    ensures { IfOk result (λ n. n ≡ next_of (close_at stack tree weight) (whole_at stack tree)) }
{
    match stack.pop() {
        None => Ok(Next::Stop(Some(tree))),
        Some(Frame::Bracket) => Ok(read(stack, tree, weight + 1)),
        Some(Frame::Call(place, callee, most, mut args)) => {
            args.push(tree)?;
            let tree = called(alloc, place, callee, args)?;
            Ok(read(stack, tree, greater(most, weight) + 1))
        }
        Some(Frame::Cast(place, ann, most)) => {
            let tree = cast(alloc, place, ann, tree)?;
            Ok(read(stack, tree, greater(most, weight) + 1))
        }
        Some(_) => Ok(Next::Stop(None)),
    }
}

/// A `)` behind a part.
fn close(alloc: Global, held: Held) -> Result<Next, AllocError>
    requires { IsLightHeld held }
    ensures { IfOk result (λ n. n ≡ next_of (close (settle 1 held.stack held.tree held.weight)) (finish (Mode.Have held))) }
{
    let Held {
        stack,
        tree,
        weight,
    } = settle(alloc, 1, held)?;
    close_at(alloc, stack, tree, weight)
}

/// A comma behind a part, where every frame that it closes is closed.
fn comma_at(mut stack: Stack<Frame>, tree: Expr, weight: u32) -> Result<Next, AllocError>
    ensures { IfOk result (λ n. n ≡ next_of (comma_at stack tree weight) (whole_at stack tree)) }
{
    match stack.pop() {
        None => Ok(Next::Stop(Some(tree))),
        Some(Frame::Call(place, callee, most, mut args)) => {
            args.push(tree)?;
            let most = greater(most, weight);
            want(stack, Frame::Call(place, callee, most, args))
        }
        Some(_) => Ok(Next::Stop(None)),
    }
}

/// A comma behind a part.
fn comma(alloc: Global, held: Held) -> Result<Next, AllocError>
    requires { IsLightHeld held }
    ensures { IfOk result (λ n. n ≡ next_of (comma (settle 1 held.stack held.tree held.weight)) (finish (Mode.Have held))) }
{
    let Held {
        stack,
        tree,
        weight,
    } = settle(alloc, 1, held)?;
    comma_at(stack, tree, weight)
}

/// A `.` behind a part.
fn dot(alloc: Global, room: usize, held: Held) -> Result<Next, AllocError>
    requires { IsLightHeld held }
    ensures { IfOk result (λ n. n ≡ next_of (if_some (nat_lt (held.weight + length held.stack) room) (Mode.Dotted held)) (finish (Mode.Have held))) }
{
    if held.weight as usize + held.stack.len() >= room {
        return stop(alloc, held);
    }
    Ok(Next::Go(Mode::Dotted(held)))
}

/// A `(` behind a part: it begins a call's arguments.
fn open(alloc: Global, room: usize, held: Held, place: Place) -> Result<Next, AllocError>
    requires { IsLightHeld held }
    ensures { IfOk result (λ n. n ≡ next_of (if_some (nat_lt (held.weight + length held.stack) room) (Mode.Want (Frame.Call place held.tree held.weight [] ∷ held.stack))) (finish (Mode.Have held))) }
{
    if held.weight as usize + held.stack.len() >= room {
        return stop(alloc, held);
    }
    let Held {
        stack,
        tree,
        weight,
    } = held;
    want(stack, Frame::Call(place, tree, weight, Items::new(alloc)))
}

/// A token behind a part.
fn go_on(
    alloc: Global,
    room: usize,
    held: Held,
    place: Place,
    what: What,
) -> Result<Next, AllocError>
    requires { IsLightHeld held }
    ensures { IfOk result (λ n. n ≡ next_of (go_on room held.stack held.tree held.weight place what) (finish (Mode.Have held))) }
{
    match what {
        What::Dot => dot(alloc, room, held),
        What::Open => open(alloc, room, held, place),
        What::Or => join_link(alloc, room, Link::Or, place, held),
        What::And => join_link(alloc, room, Link::And, place, held),
        What::Operator(op) => join_link(alloc, room, Link::Operator(op), place, held),
        What::Close => close(alloc, held),
        What::Comma => comma(alloc, held),
        _ => stop(alloc, held),
    }
}

/// The name behind a `.`.
fn field(alloc: Global, held: Held, place: Place, what: What) -> Result<Next, AllocError>
    requires { held.weight < greatest_weight }
    ensures { IfOk result (λ n. n ≡ next_of (field_at held.stack held.tree held.weight place what) None) }
{
    match what {
        What::Name(text) => {
            let Held {
                stack,
                tree,
                weight,
            } = held;
            let part = Boxed::new(alloc, tree)?;
            let kind = ExprKind::Read(part, Word { text, place });
            Ok(read(stack, Expr { kind }, weight + 1))
        }
        _ => Ok(Next::Stop(None)),
    }
}

/// The `(` behind `cast`.
fn cast_open(alloc: Global, place: Place, stack: Stack<Frame>, what: What) -> Next
    ensures { result ≡ next_of (cast_open place stack what) None }
{
    match what {
        What::Open => Next::Go(Mode::CastType(place, stack, TypeMode::Want(Stack::new(alloc)))),
        _ => Next::Stop(None),
    }
}

fn is_comma(what: &What) -> bool
    ensures { result ≡ is_comma what.now }
{
    match what {
        What::Comma => true,
        _ => false,
    }
}

/// Behind a cast's type, where the reading of the type stopped.
fn cast_comma(
    place: Place,
    stack: Stack<Frame>,
    found: Option<Weighed>,
    is_comma: bool,
) -> Result<Next, AllocError>
    ensures { IfOk result (λ n. n ≡ next_of (cast_closed place stack found is_comma) None) }
{
    let Some(Weighed { ann, weight }) = found else {
        return Ok(Next::Stop(None));
    };
    if is_comma {
        want(stack, Frame::Cast(place, ann, weight))
    } else {
        Ok(Next::Stop(None))
    }
}

/// What a token did to the type of a cast.
fn cast_next(
    place: Place,
    stack: Stack<Frame>,
    next: TypeNext,
    is_comma: bool,
) -> Result<Next, AllocError>
    ensures { IfOk result (λ n. n ≡ cast_next place stack is_comma next) }
{
    match next {
        TypeNext::Go(mode) => Ok(Next::Go(Mode::CastType(place, stack, mode))),
        TypeNext::Stop(found) => cast_comma(place, stack, found, is_comma),
    }
}

/// A token in the type of a cast.
#[tactic(auto, using(crate::proofs::Runs::cast_stepped))]
fn cast_type(
    alloc: Global,
    room: usize,
    place: Place,
    stack: Stack<Frame>,
    mode: TypeMode,
    token: Spelled,
) -> Result<Next, AllocError>
    requires { IsLightType mode }
    ensures { IfOk result (λ n. n ≡ next_of (cast_type place stack (type_finish mode) token.what (type_step (inner_room room stack) mode token)) None) }
{
    let is_comma = is_comma(&token.what);
    let inner = inner_room(room, &stack);
    let next = type_step(alloc, inner, mode, token)?;
    cast_next(place, stack, next, is_comma)
}

/// The room of a part behind the frames and one more.
fn inner_room(room: usize, stack: &Stack<Frame>) -> usize
    ensures { result ≡ inner_room room stack.now }
{
    room.saturating_sub(stack.len()).saturating_sub(1)
}

/// The `(` behind `join`.
fn join_open(place: Place, stack: Stack<Frame>, what: What) -> Next
    ensures { result ≡ next_of (join_open place stack what) None }
{
    match what {
        What::Open => Next::Go(Mode::JoinOpen(place, stack)),
        _ => Next::Stop(None),
    }
}

/// The name of what is joined.
fn join_name(place: Place, stack: Stack<Frame>, at: Place, what: What) -> Next
    ensures { result ≡ next_of (join_name place stack at what) None }
{
    match what {
        What::Name(text) => Next::Go(Mode::JoinName(place, Word { text, place: at }, stack)),
        _ => Next::Stop(None),
    }
}

/// The `)` behind it.
fn join_close(place: Place, name: Word, stack: Stack<Frame>, what: What) -> Next
    ensures { result ≡ next_of (join_close place name stack what) None }
{
    match what {
        What::Close => {
            let kind = ExprKind::Join(place, name);
            read(stack, Expr { kind }, 1)
        }
        _ => Next::Stop(None),
    }
}

/// What a token does where an expression is read. Where it stops the reading, the answer is what `finish` gives.
pub fn step(alloc: Global, room: usize, mode: Mode, token: Spelled) -> Result<Next, AllocError>
    requires { IsLightMode mode }
    ensures { IfOk result (λ n. n ≡ next_of (step room mode token) (finish mode)) }
{
    let Spelled { what, place: at } = token;
    match mode {
        Mode::Want(stack) => begin(alloc, room, stack, at, what),
        Mode::Have(held) => go_on(alloc, room, held, at, what),
        Mode::Dotted(held) => field(alloc, held, at, what),
        Mode::CastWord(place, stack) => Ok(cast_open(alloc, place, stack, what)),
        Mode::CastType(place, stack, types) => {
            let token = Spelled { what, place: at };
            cast_type(alloc, room, place, stack, types, token)
        }
        Mode::JoinWord(place, stack) => Ok(join_open(place, stack, what)),
        Mode::JoinOpen(place, stack) => Ok(join_name(place, stack, at, what)),
        Mode::JoinName(place, name, stack) => Ok(join_close(place, name, stack, what)),
    }
}

/// The expression, where what was read so far is one.
pub fn finish(alloc: Global, mode: Mode) -> Result<Option<Expr>, AllocError>
    requires { IsLightMode mode }
    ensures { IfOk result (λ e. e ≡ finish mode) }
{
    match mode {
        Mode::Have(held) => ended(alloc, held),
        _ => Ok(None),
    }
}
