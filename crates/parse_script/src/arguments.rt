ghost use Rattle.std.specs.Prelude.{◌≡◌, [], ◌∷◌, ◌++◌, IfOk};
ghost use Rattle.parse_expr.specs.computed.Reading.{IsLightMode};
ghost use Rattle.parse_script.specs.computed.Reading.{added, listed_stage, behind_argument, found_argument, argument_step, listing_step, print_word, start_word, turn_of};

use crate::around::added;
use crate::ending::ending_of;
use crate::stage::{Around, Ending, Listed, Stage, Turn};
use mono_list::Stack;
use mono_syntax::{Expr, GREATEST_WEIGHT, Place, Stmt, StmtKind, Word};
use parse_expr::machine::{Mode, Next, step};
use spelled_tokens::{Spelled, What};
use sqlite_items::Items;
use std::alloc::{AllocError, Global};

/// A simple statement was read, and NEWLINE is wanted.
pub fn line_wanted(alloc: Global, around: Around, stmt: Stmt) -> Result<Turn, AllocError>
    ensures { IfOk result (λ n. n ≡ Turn.Go (Stage.Line (added around stmt))) }
{
    let around = added(alloc, around, stmt)?;
    Ok(Turn::Go(Stage::Line(around)))
}

/// The statement that starts a thread: its callee is the first of these.
fn started(
    alloc: Global,
    around: Around,
    name: Word,
    place: Place,
    args: Items<Expr>,
) -> Result<Turn, AllocError>
    ensures { IfOk result (λ n. n ≡ turn_of (listed_stage around (Listed.Start name place) args)) }
{
    if args.is_empty() {
        return Ok(Turn::Stop);
    }
    let mut args = args;
    let callee = args.remove(0);
    let kind = StmtKind::Start(name, place, callee, args);
    line_wanted(alloc, around, Stmt { kind })
}

/// The statement of arguments in brackets. A start has at least its callee.
fn listed_stage(
    alloc: Global,
    around: Around,
    listed: Listed,
    args: Items<Expr>,
) -> Result<Turn, AllocError>
    ensures { IfOk result (λ n. n ≡ turn_of (listed_stage around listed args)) }
{
    match listed {
        Listed::Print(place) => {
            let kind = StmtKind::Print(place, args);
            line_wanted(alloc, around, Stmt { kind })
        }
        Listed::Start(name, place) => started(alloc, around, name, place, args),
    }
}

fn behind_argument(
    alloc: Global,
    around: Around,
    listed: Listed,
    args: Items<Expr>,
    ending: Ending,
) -> Result<Turn, AllocError>
    ensures { IfOk result (λ n. n ≡ turn_of (behind_argument around listed args ending)) }
{
    match ending {
        Ending::Comma => Ok(Turn::Go(Stage::Listing(around, listed, args))),
        Ending::Close => listed_stage(alloc, around, listed, args),
        _ => Ok(Turn::Stop),
    }
}

fn found_argument(
    alloc: Global,
    around: Around,
    listed: Listed,
    args: Items<Expr>,
    found: Option<Expr>,
    ending: Ending,
) -> Result<Turn, AllocError>
    ensures { IfOk result (λ n. n ≡ turn_of (found_argument around listed args found ending)) }
{
    let Some(expr) = found else {
        return Ok(Turn::Stop);
    };
    let mut args = args;
    args.push(expr)?;
    behind_argument(alloc, around, listed, args, ending)
}

/// In an argument: it goes on, or ends.
pub fn argument_step(
    alloc: Global,
    around: Around,
    listed: Listed,
    args: Items<Expr>,
    mode: Mode,
    token: Spelled,
) -> Result<Turn, AllocError>
    requires { IsLightMode mode }
    ensures { IfOk result (λ n. n ≡ turn_of (argument_step around listed args mode token)) }
{
    let ending = ending_of(&token.what);
    match step(alloc, GREATEST_WEIGHT as usize, mode, token)? {
        Next::Go(mode) => Ok(Turn::Go(Stage::Argument(around, listed, args, mode))),
        Next::Stop(found) => found_argument(alloc, around, listed, args, found, ending),
    }
}

/// Where an argument or `)` may come.
pub fn listing_step(
    alloc: Global,
    around: Around,
    listed: Listed,
    args: Items<Expr>,
    token: Spelled,
) -> Result<Turn, AllocError>
    ensures { IfOk result (λ n. n ≡ turn_of (listing_step around listed args token)) }
{
    match ending_of(&token.what) {
        Ending::Close => listed_stage(alloc, around, listed, args),
        _ => {
            let mode = Mode::Want(Stack::new(alloc));
            argument_step(alloc, around, listed, args, mode, token)
        }
    }
}

/// Behind `print`.
pub fn print_word(alloc: Global, around: Around, place: Place, what: What) -> Turn
    ensures { result ≡ turn_of (print_word around place what) }
{
    match what {
        What::Open => {
            let listed = Listed::Print(place);
            Turn::Go(Stage::Listing(around, listed, Items::new(alloc)))
        }
        _ => Turn::Stop,
    }
}

/// Behind `start`.
pub fn start_word(alloc: Global, around: Around, name: Word, place: Place, what: What) -> Turn
    ensures { result ≡ turn_of (start_word around name place what) }
{
    match what {
        What::Open => {
            let listed = Listed::Start(name, place);
            Turn::Go(Stage::Listing(around, listed, Items::new(alloc)))
        }
        _ => Turn::Stop,
    }
}
