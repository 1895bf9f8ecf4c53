ghost use Rattle.std.specs.Prelude.{◌≡◌, ◌<◌, suc, [], IfOk, nat_lt};
ghost use Rattle.mono_syntax.specs.Expr.{local, read};
ghost use Rattle.parse_expr.specs.computed.Reading.{held, step, finish, IsLightMode};
ghost use Rattle.parse_expr.specs.computed.TypeReading.{IsLightType};
ghost use Rattle.parse_script.specs.computed.Reading.{inside, is_newline, ended_line, ended_head, behind_used, behind_found, inside_step, plain_found, plain_on, plain_held, plain_step, dotted_step, attribute_step, target_step, named_step, assigning_step, typed_end, typed_step, returning_step, turn_of};
ghost use Rattle.mono_syntax.specs.Limits.{greatest_weight};

use crate::around::{added, added_turn};
use crate::ending::ending_of;
use crate::stage::{Around, Ending, Head, Stage, Turn, Use};
use mono_list::Stack;
use mono_syntax::{Expr, ExprKind, GREATEST_WEIGHT, Place, Stmt, StmtKind, Word};
use parse_expr::machine::{Held, Mode, Next, TypeMode, TypeNext, Weighed, step, type_step};
use spelled_tokens::{Spelled, What};
use sqlite_items::Boxed;
use std::alloc::{AllocError, Global};

/// An expression for this begins.
pub fn inside(alloc: Global, around: Around, use_: Use) -> Turn
    ensures { result ≡ Turn.Go (inside around use_) }
{
    Turn::Go(Stage::Inside(around, use_, Mode::Want(Stack::new(alloc))))
}

fn is_newline(ending: Ending) -> bool
    ensures { result ≡ is_newline ending }
{
    matches!(ending, Ending::Newline)
}

/// The statement that an expression is the last part of, where NEWLINE is behind it.
fn ended_line(alloc: Global, around: Around, stmt: Stmt, ending: Ending) -> Result<Turn, AllocError>
    ensures { IfOk result (λ n. n ≡ turn_of (ended_line around stmt ending)) }
{
    let around = added(alloc, around, stmt)?;
    if is_newline(ending) {
        Ok(Turn::Go(Stage::Start(around)))
    } else {
        Ok(Turn::Stop)
    }
}

/// The head that an expression is the condition of, where `:` is behind it.
fn ended_head(around: Around, head: Head, ending: Ending) -> Turn
    ensures { result ≡ turn_of (ended_head around head ending) }
{
    match ending {
        Ending::Colon => Turn::Go(Stage::HeadLine(around, head)),
        _ => Turn::Stop,
    }
}

/// Behind an expression that was read for something.
fn behind_used(
    alloc: Global,
    around: Around,
    use_: Use,
    expr: Expr,
    ending: Ending,
) -> Result<Turn, AllocError>
    ensures { IfOk result (λ n. n ≡ turn_of (behind_used around use_ expr ending)) }
{
    match use_ {
        Use::Assign(name, ann) => {
            let kind = StmtKind::Assign(name, ann, expr);
            ended_line(alloc, around, Stmt { kind }, ending)
        }
        Use::Write(receiver, name) => {
            let kind = StmtKind::Write(receiver, name, expr);
            ended_line(alloc, around, Stmt { kind }, ending)
        }
        Use::Return(place) => {
            let kind = StmtKind::Return(place, Some(expr));
            ended_line(alloc, around, Stmt { kind }, ending)
        }
        Use::While => Ok(ended_head(around, Head::While(expr), ending)),
        Use::Branch(branches) => Ok(ended_head(around, Head::Branch(branches, expr), ending)),
    }
}

fn behind_found(
    alloc: Global,
    around: Around,
    use_: Use,
    found: Option<Expr>,
    ending: Ending,
) -> Result<Turn, AllocError>
    ensures { IfOk result (λ n. n ≡ turn_of (behind_found around use_ found ending)) }
{
    match found {
        Some(expr) => behind_used(alloc, around, use_, expr, ending),
        None => Ok(Turn::Stop),
    }
}

/// In an expression that is read for something: it goes on, or ends.
pub fn inside_step(
    alloc: Global,
    around: Around,
    use_: Use,
    mode: Mode,
    token: Spelled,
) -> Result<Turn, AllocError>
    requires { IsLightMode mode }
    ensures { IfOk result (λ n. n ≡ turn_of (inside_step around use_ mode token)) }
{
    let ending = ending_of(&token.what);
    match step(alloc, GREATEST_WEIGHT as usize, mode, token)? {
        Next::Go(mode) => Ok(Turn::Go(Stage::Inside(around, use_, mode))),
        Next::Stop(found) => behind_found(alloc, around, use_, found, ending),
    }
}

fn plain_found(
    alloc: Global,
    around: Around,
    found: Option<Expr>,
    ending: Ending,
) -> Result<Turn, AllocError>
    ensures { IfOk result (λ n. n ≡ turn_of (plain_found around found ending)) }
{
    let Some(expr) = found else {
        return Ok(Turn::Stop);
    };
    match ending {
        Ending::Newline => {
            let kind = StmtKind::Plain(expr);
            added_turn(alloc, around, Stmt { kind })
        }
        _ => Ok(Turn::Stop),
    }
}

/// In an expression that begins a statement, where no target can be.
pub fn plain_on(
    alloc: Global,
    around: Around,
    mode: Mode,
    token: Spelled,
) -> Result<Turn, AllocError>
    requires { IsLightMode mode }
    ensures { IfOk result (λ n. n ≡ turn_of (plain_on around mode token)) }
{
    let ending = ending_of(&token.what);
    match step(alloc, GREATEST_WEIGHT as usize, mode, token)? {
        Next::Go(mode) => Ok(Turn::Go(Stage::Plain(around, mode))),
        Next::Stop(found) => plain_found(alloc, around, found, ending),
    }
}

/// Behind a part that was read. What has no operator or bracket open before it may be a receiver.
fn plain_held(alloc: Global, around: Around, held: Held, token: Spelled) -> Result<Turn, AllocError>
    requires { IsLightMode (Mode.Have held) }
    ensures { IfOk result (λ n. n ≡ turn_of (plain_step around (Mode.Have held) token)) }
{
    if held.stack.len() == 0 {
        if let Ending::Dot = ending_of(&token.what) {
            let Held { tree, weight, .. } = held;
            return Ok(Turn::Go(Stage::Dotted(around, tree, weight)));
        }
    }
    plain_on(alloc, around, Mode::Have(held), token)
}

/// In an expression that begins a statement.
pub fn plain_step(
    alloc: Global,
    around: Around,
    mode: Mode,
    token: Spelled,
) -> Result<Turn, AllocError>
    requires { IsLightMode mode }
    ensures { IfOk result (λ n. n ≡ turn_of (plain_step around mode token)) }
{
    match mode {
        Mode::Have(held) => plain_held(alloc, around, held, token),
        mode => plain_on(alloc, around, mode, token),
    }
}

/// Behind the `.` of what may be a target.
pub fn dotted_step(around: Around, receiver: Expr, weight: u32, place: Place, what: What) -> Turn
    ensures { result ≡ turn_of (dotted_step around receiver weight place what) }
{
    match what {
        What::Name(text) => {
            Turn::Go(Stage::Target(around, receiver, weight, Word { text, place }))
        }
        _ => Turn::Stop,
    }
}

/// An attribute that was read.
fn attribute(alloc: Global, receiver: Expr, weight: u32, name: Word) -> Result<Held, AllocError>
    requires { weight < greatest_weight }
    ensures { IfOk result (λ h. h ≡ held [] (read receiver name) (suc weight)) }
{
    let part = Boxed::new(alloc, receiver)?;
    let kind = ExprKind::Read(part, name);
    Ok(Held {
        stack: Stack::new(alloc),
        tree: Expr { kind },
        weight: weight + 1,
    })
}

/// The attribute goes on as an expression.
fn attribute_on(
    alloc: Global,
    around: Around,
    receiver: Expr,
    weight: u32,
    name: Word,
    token: Spelled,
) -> Result<Turn, AllocError>
    requires { weight < greatest_weight }
    ensures { IfOk result (λ n. n ≡ turn_of (plain_step around (Mode.Have (held [] (read receiver name) (suc weight))) token)) }
{
    let held = attribute(alloc, receiver, weight, name)?;
    plain_step(alloc, around, Mode::Have(held), token)
}

/// What goes on as an attribute, which weighs one more than its receiver.
fn attribute_step(
    alloc: Global,
    around: Around,
    receiver: Expr,
    weight: u32,
    name: Word,
    token: Spelled,
) -> Result<Turn, AllocError>
    ensures { IfOk result (λ n. n ≡ turn_of (attribute_step (nat_lt weight greatest_weight) around receiver weight name token)) }
{
    if weight < GREATEST_WEIGHT {
        attribute_on(alloc, around, receiver, weight, name, token)
    } else {
        Ok(Turn::Stop)
    }
}

/// Behind the name of what may be a target.
pub fn target_step(
    alloc: Global,
    around: Around,
    receiver: Expr,
    weight: u32,
    name: Word,
    token: Spelled,
) -> Result<Turn, AllocError>
    ensures { IfOk result (λ n. n ≡ turn_of (target_step around receiver weight name token)) }
{
    match ending_of(&token.what) {
        Ending::Equals => Ok(inside(alloc, around, Use::Write(receiver, name))),
        _ => attribute_step(alloc, around, receiver, weight, name, token),
    }
}

/// The name goes on as an expression.
fn name_step(alloc: Global, around: Around, name: Word, token: Spelled) -> Result<Turn, AllocError>
    ensures { IfOk result (λ n. n ≡ turn_of (plain_step around (Mode.Have (held [] (local name) 1)) token)) }
{
    let kind = ExprKind::Local(name);
    let held = Held {
        stack: Stack::new(alloc),
        tree: Expr { kind },
        weight: 1,
    };
    plain_step(alloc, around, Mode::Have(held), token)
}

/// Behind a name that begins a statement.
pub fn named_step(
    alloc: Global,
    around: Around,
    name: Word,
    token: Spelled,
) -> Result<Turn, AllocError>
    ensures { IfOk result (λ n. n ≡ turn_of (named_step around name token)) }
{
    match ending_of(&token.what) {
        Ending::Equals => Ok(Turn::Go(Stage::Assigning(around, name))),
        Ending::Colon => {
            let mode = TypeMode::Want(Stack::new(alloc));
            Ok(Turn::Go(Stage::Typed(around, name, mode)))
        }
        _ => name_step(alloc, around, name, token),
    }
}

fn typed_end(
    alloc: Global,
    around: Around,
    name: Word,
    found: Option<Weighed>,
    ending: Ending,
) -> Turn
    ensures { result ≡ turn_of (typed_end around name found ending) }
{
    let Some(Weighed { ann, .. }) = found else {
        return Turn::Stop;
    };
    match ending {
        Ending::Equals => inside(alloc, around, Use::Assign(name, Some(ann))),
        _ => Turn::Stop,
    }
}

/// In the type of an assignment: it goes on, or ends.
pub fn typed_step(
    alloc: Global,
    around: Around,
    name: Word,
    mode: TypeMode,
    token: Spelled,
) -> Result<Turn, AllocError>
    requires { IsLightType mode }
    ensures { IfOk result (λ n. n ≡ turn_of (typed_step around name mode token)) }
{
    let ending = ending_of(&token.what);
    match type_step(alloc, GREATEST_WEIGHT as usize, mode, token)? {
        TypeNext::Go(mode) => Ok(Turn::Go(Stage::Typed(around, name, mode))),
        TypeNext::Stop(found) => Ok(typed_end(alloc, around, name, found, ending)),
    }
}

/// Behind the `=` of an assignment without a type.
pub fn assigning_step(
    alloc: Global,
    around: Around,
    name: Word,
    token: Spelled,
) -> Result<Turn, AllocError>
    ensures { IfOk result (λ n. n ≡ turn_of (assigning_step around name token)) }
{
    if let Ending::Start = ending_of(&token.what) {
        return Ok(Turn::Go(Stage::StartWord(around, name)));
    }
    let mode = Mode::Want(Stack::new(alloc));
    inside_step(alloc, around, Use::Assign(name, None), mode, token)
}

/// Behind `return`.
pub fn returning_step(
    alloc: Global,
    around: Around,
    place: Place,
    token: Spelled,
) -> Result<Turn, AllocError>
    ensures { IfOk result (λ n. n ≡ turn_of (returning_step around place token)) }
{
    if let Ending::Newline = ending_of(&token.what) {
        let kind = StmtKind::Return(place, None);
        return added_turn(alloc, around, Stmt { kind });
    }
    let mode = Mode::Want(Stack::new(alloc));
    inside_step(alloc, around, Use::Return(place), mode, token)
}
