ghost use Rattle.std.specs.Prelude.{◌≡◌, IfOk};
ghost use Rattle.mono_syntax.specs.Stmt.{if_any, no_else};
ghost use Rattle.mono_syntax.specs.StmtView.{branches as branches_of};
ghost use Rattle.parse_script.specs.computed.ClassReading.{IsLightClass};
ghost use Rattle.parse_script.specs.computed.DefReading.{IsLightDef};
ghost use Rattle.parse_script.specs.computed.Reading.{added, start_mark, start_step, behind_step, line_step, head_colon, head_line, head_block, class_stage_of, def_stage_of, script_step, IsLightStage, turn_of};

use crate::arguments::{argument_step, line_wanted, listing_step, print_word, start_word};
use crate::around::{added, class_at, def_at, end_at, entered, has_room, is_def, left, top};
use crate::class::class_step;
use crate::ending::ending_of;
use crate::expressions::{
    assigning_step, dotted_step, inside, inside_step, named_step, plain_on, plain_step,
    returning_step, target_step, typed_step,
};
use crate::function::def_step;
use crate::stage::{
    Around, ClassStage, ClassTurn, DefStage, DefTurn, Ending, Floor, Head, Stage, Turn, Use,
};
use mono_list::Stack;
use mono_syntax::{Branch, Item, Place, Stmt, StmtKind, Word};
use parse_expr::machine::Mode;
use spelled_tokens::{Mark, Spelled, What};
use sqlite_items::Items;
use std::alloc::{AllocError, Global};

/// A word that begins a statement, a class or a function, or ends a block or the script.
fn start_mark(alloc: Global, around: Around, place: Place, mark: Mark) -> Result<Turn, AllocError>
    ensures { IfOk result (λ n. n ≡ turn_of (start_mark around place mark)) }
{
    match mark {
        Mark::Pass => {
            let kind = StmtKind::Pass;
            line_wanted(alloc, around, Stmt { kind })
        }
        Mark::Return => {
            if !is_def(&around.floor) {
                return Ok(Turn::Stop);
            }
            Ok(Turn::Go(Stage::Returning(around, place)))
        }
        Mark::Print => Ok(Turn::Go(Stage::PrintWord(around))),
        Mark::If => {
            if !has_room(&around) {
                return Ok(Turn::Stop);
            }
            Ok(inside(alloc, around, Use::Branch(Items::new(alloc))))
        }
        Mark::While => {
            if !has_room(&around) {
                return Ok(Turn::Stop);
            }
            Ok(inside(alloc, around, Use::While))
        }
        Mark::Class => Ok(class_at(around)),
        Mark::Def => Ok(def_at(around)),
        Mark::Dedent => left(alloc, around),
        Mark::End => Ok(end_at(around)),
        _ => Ok(Turn::Stop),
    }
}

/// Where a statement may begin.
fn start_step(alloc: Global, around: Around, token: Spelled) -> Result<Turn, AllocError>
    ensures { IfOk result (λ n. n ≡ turn_of (start_step around token)) }
{
    let Spelled { what, place } = token;
    match what {
        What::Name(text) => Ok(Turn::Go(Stage::Named(around, Word { text, place }))),
        What::Mark(mark) => start_mark(alloc, around, place, mark),
        what => {
            let mode = Mode::Want(Stack::new(alloc));
            plain_on(alloc, around, mode, Spelled { what, place })
        }
    }
}

/// No branch follows: the `if` is a statement.
fn behind_other(
    alloc: Global,
    around: Around,
    branches: Items<Branch>,
    token: Spelled,
) -> Result<Turn, AllocError>
    ensures { IfOk result (λ n. n ≡ turn_of (start_step (added around (if_any (branches_of branches) no_else)) token)) }
{
    let kind = StmtKind::If(branches, None);
    let around = added(alloc, around, Stmt { kind })?;
    start_step(alloc, around, token)
}

/// Behind the block of an `if` or `elif`.
fn behind_step(
    alloc: Global,
    around: Around,
    branches: Items<Branch>,
    token: Spelled,
) -> Result<Turn, AllocError>
    ensures { IfOk result (λ n. n ≡ turn_of (behind_step around branches token)) }
{
    match ending_of(&token.what) {
        Ending::Elif => Ok(inside(alloc, around, Use::Branch(branches))),
        Ending::Else => Ok(Turn::Go(Stage::HeadColon(around, Head::Else(branches)))),
        _ => behind_other(alloc, around, branches, token),
    }
}

fn line_step(around: Around, what: What) -> Turn
    ensures { result ≡ turn_of (line_step around what) }
{
    match what {
        What::Mark(Mark::Newline) => Turn::Go(Stage::Start(around)),
        _ => Turn::Stop,
    }
}

fn head_colon(around: Around, head: Head, what: What) -> Turn
    ensures { result ≡ turn_of (head_colon around head what) }
{
    match what {
        What::Mark(Mark::Colon) => Turn::Go(Stage::HeadLine(around, head)),
        _ => Turn::Stop,
    }
}

fn head_line(around: Around, head: Head, what: What) -> Turn
    ensures { result ≡ turn_of (head_line around head what) }
{
    match what {
        What::Mark(Mark::Newline) => Turn::Go(Stage::HeadBlock(around, head)),
        _ => Turn::Stop,
    }
}

fn head_block(alloc: Global, around: Around, head: Head, what: What) -> Result<Turn, AllocError>
    ensures { IfOk result (λ n. n ≡ turn_of (head_block around head what)) }
{
    match what {
        What::Mark(Mark::Indent) => {
            let around = entered(alloc, around, head)?;
            Ok(Turn::Go(Stage::Start(around)))
        }
        _ => Ok(Turn::Stop),
    }
}

/// Where a class that is read so far leads.
fn class_followed(alloc: Global, items: Items<Item>, stage: ClassStage) -> Result<Turn, AllocError>
    ensures { IfOk result (λ n. n ≡ Turn.Go (class_stage_of items stage)) }
{
    match stage {
        ClassStage::Done(class) => {
            let mut items = items;
            items.push(Item::Class(class))?;
            Ok(Turn::Go(Stage::Start(top(alloc, items))))
        }
        stage => Ok(Turn::Go(Stage::Class(items, stage))),
    }
}

fn in_class(
    alloc: Global,
    items: Items<Item>,
    stage: ClassStage,
    token: Spelled,
) -> Result<Turn, AllocError>
    requires { IsLightClass stage }
    ensures { IfOk result (λ n. n ≡ turn_of (script_step (Stage.Class items stage) token)) }
{
    match class_step(alloc, stage, token)? {
        ClassTurn::Go(stage) => class_followed(alloc, items, stage),
        ClassTurn::Stop => Ok(Turn::Stop),
    }
}

/// Where a function's head that is read so far leads.
fn def_stage_of(alloc: Global, items: Items<Item>, stage: DefStage) -> Stage
    ensures { result ≡ def_stage_of items stage }
{
    match stage {
        DefStage::Done(head) => Stage::Start(Around {
            floor: Floor::Def(items, head),
            opened: Stack::new(alloc),
            done: Items::new(alloc),
        }),
        stage => Stage::Def(items, stage),
    }
}

fn in_def(
    alloc: Global,
    items: Items<Item>,
    stage: DefStage,
    token: Spelled,
) -> Result<Turn, AllocError>
    requires { IsLightDef stage }
    ensures { IfOk result (λ n. n ≡ turn_of (script_step (Stage.Def items stage) token)) }
{
    match def_step(alloc, stage, token)? {
        DefTurn::Go(stage) => Ok(Turn::Go(def_stage_of(alloc, items, stage))),
        DefTurn::Stop => Ok(Turn::Stop),
    }
}

/// One more token of a script.
pub fn script_step(alloc: Global, stage: Stage, token: Spelled) -> Result<Turn, AllocError>
    requires { IsLightStage stage }
    ensures { IfOk result (λ n. n ≡ turn_of (script_step stage token)) }
{
    match stage {
        Stage::Start(a) => start_step(alloc, a, token),
        Stage::Behind(a, branches) => behind_step(alloc, a, branches, token),
        Stage::Line(a) => Ok(line_step(a, token.what)),
        Stage::Named(a, name) => named_step(alloc, a, name, token),
        Stage::Plain(a, mode) => plain_step(alloc, a, mode, token),
        Stage::Dotted(a, receiver, weight) => {
            Ok(dotted_step(a, receiver, weight, token.place, token.what))
        }
        Stage::Target(a, receiver, weight, name) => {
            target_step(alloc, a, receiver, weight, name, token)
        }
        Stage::Typed(a, name, mode) => typed_step(alloc, a, name, mode, token),
        Stage::Assigning(a, name) => assigning_step(alloc, a, name, token),
        Stage::Returning(a, place) => returning_step(alloc, a, place, token),
        Stage::Inside(a, use_, mode) => inside_step(alloc, a, use_, mode, token),
        Stage::PrintWord(a) => Ok(print_word(alloc, a, token.place, token.what)),
        Stage::StartWord(a, name) => Ok(start_word(alloc, a, name, token.place, token.what)),
        Stage::Listing(a, listed, args) => listing_step(alloc, a, listed, args, token),
        Stage::Argument(a, listed, args, mode) => {
            argument_step(alloc, a, listed, args, mode, token)
        }
        Stage::HeadColon(a, head) => Ok(head_colon(a, head, token.what)),
        Stage::HeadLine(a, head) => Ok(head_line(a, head, token.what)),
        Stage::HeadBlock(a, head) => head_block(alloc, a, head, token.what),
        Stage::Class(items, stage) => in_class(alloc, items, stage, token),
        Stage::Def(items, stage) => in_def(alloc, items, stage, token),
        Stage::Ended(_) => Ok(Turn::Stop),
    }
}
