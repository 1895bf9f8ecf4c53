ghost use Rattle.std.specs.Prelude.{◌≡◌, ◌≤◌, [], ◌∷◌, ◌++◌, nat_lt, IfOk};
ghost use Rattle.parse_script.specs.computed.Reading.{top, is_def, floor_depth, depth, added_to, added, added_stage, entered, left_block, left, outermost, end_at, class_at, def_at, turn_of};
ghost use Rattle.mono_syntax.specs.Limits.{most_blocks};

use crate::stage::{Around, ClassStage, DefHead, DefStage, Floor, Head, Opened, Stage, Turn};
use mono_list::Stack;
use mono_syntax::{Branch, FuncDef, Item, MOST_BLOCKS, Stmt, StmtKind};
use sqlite_items::Items;
use std::alloc::{AllocError, Global};

/// The script's own block, behind these items.
pub fn top(alloc: Global, items: Items<Item>) -> Around
    ensures { result ≡ top items }
{
    Around {
        floor: Floor::Script(items),
        opened: Stack::new(alloc),
        done: Items::new(alloc),
    }
}

/// Whether the outermost block is a function's body.
pub fn is_def(floor: &Floor) -> bool
    ensures { result ≡ is_def floor.now }
{
    matches!(floor, Floor::Def(_, _))
}

fn floor_depth(floor: &Floor) -> usize
    ensures value { result ≡ floor_depth floor.now }
    ensures small { result ≤ 1 }
{
    match floor {
        Floor::Script(_) => 0,
        Floor::Def(_, _) => 1,
    }
}

/// Whether another block may stand here.
pub fn has_room(around: &Around) -> bool
    ensures { result ≡ nat_lt (depth around.now) most_blocks }
{
    let floor = floor_depth(&around.floor);
    let opened = around.opened.len();
    opened < MOST_BLOCKS && opened + floor < MOST_BLOCKS
}

/// Behind one more statement of the outermost block.
fn added_to_floor(
    alloc: Global,
    floor: Floor,
    opened: Stack<Opened>,
    done: Items<Stmt>,
    stmt: Stmt,
) -> Result<Around, AllocError>
    requires { opened ≡ [] }
    ensures { IfOk result (λ a. a ≡ added_to floor [] done stmt) }
{
    match floor {
        Floor::Def(items, head) => {
            let mut done = done;
            done.push(stmt)?;
            Ok(Around {
                floor: Floor::Def(items, head),
                opened,
                done,
            })
        }
        Floor::Script(items) => {
            let mut items = items;
            items.push(Item::Stmt(stmt))?;
            Ok(top(alloc, items))
        }
    }
}

/// Behind one more statement.
pub fn added(alloc: Global, around: Around, stmt: Stmt) -> Result<Around, AllocError>
    ensures { IfOk result (λ a. a ≡ added around stmt) }
{
    let Around {
        floor,
        opened,
        mut done,
    } = around;
    if opened.len() == 0 {
        return added_to_floor(alloc, floor, opened, done, stmt);
    }
    done.push(stmt)?;
    Ok(Around {
        floor,
        opened,
        done,
    })
}

/// The same, as what the reading does.
pub fn added_turn(alloc: Global, around: Around, stmt: Stmt) -> Result<Turn, AllocError>
    ensures { IfOk result (λ n. n ≡ Turn.Go (added_stage around stmt)) }
{
    let around = added(alloc, around, stmt)?;
    Ok(Turn::Go(Stage::Start(around)))
}

/// In the block that a head opens.
pub fn entered(alloc: Global, around: Around, head: Head) -> Result<Around, AllocError>
    ensures { IfOk result (λ a. a ≡ entered around head) }
{
    let Around {
        floor,
        mut opened,
        done,
    } = around;
    let block = match head {
        Head::While(condition) => Opened::While(done, condition),
        Head::Branch(branches, condition) => Opened::Branch(done, branches, condition),
        Head::Else(branches) => Opened::Else(done, branches),
    };
    opened.push(block)?;
    Ok(Around {
        floor,
        opened,
        done: Items::new(alloc),
    })
}

/// Behind a function, whose body ends.
fn left_function(alloc: Global, floor: Floor, body: Items<Stmt>) -> Result<Turn, AllocError>
    ensures { IfOk result (λ n. n ≡ turn_of (left_block floor [] body)) }
{
    let Floor::Def(items, head) = floor else {
        return Ok(Turn::Stop);
    };
    let DefHead {
        name,
        params,
        result,
    } = head;
    let mut items = items;
    items.push(Item::Def(FuncDef {
        name,
        params,
        result,
        body,
    }))?;
    Ok(Turn::Go(Stage::Start(top(alloc, items))))
}

fn behind_branch(
    around: Around,
    branches: Items<Branch>,
    branch: Branch,
) -> Result<Turn, AllocError>
    ensures { IfOk result (λ n. n ≡ Turn.Go (Stage.Behind around (branches ++ branch ∷ []))) }
{
    let mut branches = branches;
    branches.push(branch)?;
    Ok(Turn::Go(Stage::Behind(around, branches)))
}

/// Behind a block, which ends.
fn left_block(
    alloc: Global,
    floor: Floor,
    opened: Stack<Opened>,
    block: Opened,
    body: Items<Stmt>,
) -> Result<Turn, AllocError>
    ensures { IfOk result (λ n. n ≡ turn_of (left_block floor (block ∷ opened) body)) }
{
    match block {
        Opened::While(done, condition) => {
            let kind = StmtKind::While(condition, body);
            let around = Around {
                floor,
                opened,
                done,
            };
            added_turn(alloc, around, Stmt { kind })
        }
        Opened::Branch(done, branches, condition) => {
            let around = Around {
                floor,
                opened,
                done,
            };
            behind_branch(around, branches, Branch { condition, body })
        }
        Opened::Else(done, branches) => {
            let kind = StmtKind::If(branches, Some(body));
            let around = Around {
                floor,
                opened,
                done,
            };
            added_turn(alloc, around, Stmt { kind })
        }
    }
}

/// At the DEDENT of a block. A block has at least one statement.
pub fn left(alloc: Global, around: Around) -> Result<Turn, AllocError>
    ensures { IfOk result (λ n. n ≡ turn_of (left around.floor around.opened around.done)) }
{
    let Around {
        floor,
        mut opened,
        done,
    } = around;
    if done.is_empty() {
        return Ok(Turn::Stop);
    }
    match opened.pop() {
        Some(block) => left_block(alloc, floor, opened, block, done),
        None => left_function(alloc, floor, done),
    }
}

/// The items, where the script's own block is the innermost one.
fn outermost(around: Around) -> Option<Items<Item>>
    ensures { result ≡ outermost around.floor around.opened }
{
    let Around { floor, opened, .. } = around;
    if opened.len() != 0 {
        return None;
    }
    match floor {
        Floor::Script(items) => Some(items),
        Floor::Def(_, _) => None,
    }
}

/// At END.
pub fn end_at(around: Around) -> Turn
    ensures { result ≡ turn_of (end_at around.floor around.opened) }
{
    match outermost(around) {
        Some(items) => Turn::Done(items),
        None => Turn::Stop,
    }
}

/// At `class`.
pub fn class_at(around: Around) -> Turn
    ensures { result ≡ turn_of (class_at around.floor around.opened) }
{
    match outermost(around) {
        Some(items) => Turn::Go(Stage::Class(items, ClassStage::Word)),
        None => Turn::Stop,
    }
}

/// At `def`.
pub fn def_at(around: Around) -> Turn
    ensures { result ≡ turn_of (def_at around.floor around.opened) }
{
    match outermost(around) {
        Some(items) => Turn::Go(Stage::Def(items, DefStage::Word)),
        None => Turn::Stop,
    }
}
