ghost use Rattle.std.specs.Prelude.{◌≡◌, IfOk};
ghost use Rattle.mono_syntax.specs.CastStmtView.{cast_block, cast_branches, cast_else_block, cast_stmt_of};
ghost use Rattle.node_code.specs.NodeMeaning.{Trees, IsMeant};
ghost use Rattle.node_code.specs.Numbering.{GivesStmt, GivesStmtNode, GivesStmts, GivesBody, GivesElse, GivesBranches, ListsBranches};
ghost use Rattle.node_code.specs.Slotted.{StmtSlotted, BlockSlotted, BranchesSlotted, ElseSlotted};

use crate::data::{BranchNode, Slots, StmtNode, Tables};
use crate::exprs::{number_args, number_expr, number_values, slot};
use crate::put::{Body, Branches, MadeStmt, Numbered, put_body, put_branches, put_stmt, put_text};
use crate::types::type_at;
use mono_list::Shared;
use mono_syntax::{Arg, CastBranch, CastExpr, CastStmt, CastStmtKind, Name, StmtList, Ty};
use sqlite_items::Items;
use std::alloc::{AllocError, Global};

/// The number of the body behind `else`, where there is one, and the tables in which it stands.
#[derive(Drop)]
pub(crate) struct Else {
    pub at: Option<u32>,
    pub tables: Tables,
}

/// A statement by numbers, behind its parts.
#[cycle(stmts)]
fn number_stmt(
    alloc: Global,
    slots: &Slots,
    stmt: &CastStmt,
    tables: Tables,
) -> Result<Numbered, AllocError>
    ensures { (m : Trees) → IsMeant slots.now tables m → StmtSlotted tables.table.types slots.now stmt.now
        → IfOk result (GivesStmt slots.now tables m stmt.now) }
{
    let made = stmt_node(alloc, slots, &stmt.kind, tables)?;
    put_stmt(made)
}

/// The node of a statement, behind its parts.
#[cycle(stmts)]
fn stmt_node(
    alloc: Global,
    slots: &Slots,
    kind: &CastStmtKind,
    tables: Tables,
) -> Result<MadeStmt, AllocError>
    ensures { (m : Trees) → IsMeant slots.now tables m → StmtSlotted tables.table.types slots.now (cast_stmt_of kind.now)
        → IfOk result (GivesStmtNode slots.now tables m (cast_stmt_of kind.now)) }
{
    match kind {
        CastStmtKind::Pass => Ok(MadeStmt {
            node: StmtNode::Pass,
            tables,
        }),
        CastStmtKind::Return(site, value) => {
            let value = number_expr(alloc, slots, value, tables)?;
            Ok(MadeStmt {
                node: StmtNode::Return(*site, value.at),
                tables: value.tables,
            })
        }
        CastStmtKind::Print(given) => {
            let list = number_values(alloc, slots, given.as_slice(), tables)?;
            Ok(MadeStmt {
                node: StmtNode::Print(list.at),
                tables: list.tables,
            })
        }
        CastStmtKind::Assign(name, value) => {
            let slot = slot(&slots.names, name)?;
            let value = number_expr(alloc, slots, value, tables)?;
            Ok(MadeStmt {
                node: StmtNode::Assign(slot, value.at),
                tables: value.tables,
            })
        }
        CastStmtKind::Write(member, write, is, object, field, value) => {
            let is = type_at(&tables.table, is);
            let object = number_expr(alloc, slots, object, tables)?;
            let field = put_text(alloc, field, object.tables)?;
            let value = number_expr(alloc, slots, value, field.tables)?;
            Ok(MadeStmt {
                node: StmtNode::Write(*member, *write, is, object.at, field.at, value.at),
                tables: value.tables,
            })
        }
        CastStmtKind::Start(name, site, callee, given) => {
            let slot = slot(&slots.threads, name)?;
            let callee = number_expr(alloc, slots, callee, tables)?;
            let list = number_args(alloc, slots, given.as_slice(), callee.tables)?;
            Ok(MadeStmt {
                node: StmtNode::Start(slot, *site, callee.at, list.at),
                tables: list.tables,
            })
        }
        CastStmtKind::Plain(e) => {
            let e = number_expr(alloc, slots, e, tables)?;
            Ok(MadeStmt {
                node: StmtNode::Plain(e.at),
                tables: e.tables,
            })
        }
        CastStmtKind::If(branches, last) => {
            let list = number_branches(alloc, slots, branches.get().as_slice(), tables)?;
            let last = number_else(alloc, slots, last, list.tables)?;
            Ok(MadeStmt {
                node: StmtNode::If(list.at, last.at),
                tables: last.tables,
            })
        }
        CastStmtKind::While(condition, body) => {
            let condition = number_expr(alloc, slots, condition, tables)?;
            let body = number_body(alloc, slots, body.get().as_slice(), condition.tables)?;
            Ok(MadeStmt {
                node: StmtNode::While(condition.at, body.at),
                tables: body.tables,
            })
        }
    }
}

/// A body by numbers, behind its statements.
#[cycle(stmts)]
pub(crate) fn number_body(
    alloc: Global,
    slots: &Slots,
    list: &[CastStmt],
    tables: Tables,
) -> Result<Numbered, AllocError>
    ensures { (m : Trees) → IsMeant slots.now tables m → BlockSlotted tables.table.types slots.now (cast_block list.now)
        → IfOk result (GivesBody slots.now tables m list.now) }
{
    let body = body_stmts(alloc, slots, list, tables)?;
    put_body(body)
}

/// Its statements.
#[cycle(stmts)]
#[tactic(auto, using(mono_syntax::proofs::Parts::parts))]
fn body_stmts(
    alloc: Global,
    slots: &Slots,
    list: &[CastStmt],
    tables: Tables,
) -> Result<Body, AllocError>
    ensures { (m : Trees) → IsMeant slots.now tables m → BlockSlotted tables.table.types slots.now (cast_block list.now)
        → IfOk result (GivesStmts slots.now tables m list.now) }
{
    let mut tables = tables;
    let mut stmts = Items::new(alloc);
    for stmt in list {
        let n = number_stmt(alloc, slots, stmt, tables)?;
        tables = n.tables;
        stmts.push(n.at)?;
    }
    Ok(Body { stmts, tables })
}

/// What stands behind `else`, where something does.
#[cycle(stmts)]
fn number_else(
    alloc: Global,
    slots: &Slots,
    last: &Option<Shared<Items<CastStmt>>>,
    tables: Tables,
) -> Result<Else, AllocError>
    ensures { (m : Trees) → IsMeant slots.now tables m → ElseSlotted tables.table.types slots.now (cast_else_block last.now)
        → IfOk result (GivesElse slots.now tables m last.now) }
{
    match last {
        Some(body) => {
            let body = number_body(alloc, slots, body.get().as_slice(), tables)?;
            Ok(Else {
                at: Some(body.at),
                tables: body.tables,
            })
        }
        None => Ok(Else { at: None, tables }),
    }
}

/// The list of the branches of an `if`.
#[cycle(stmts)]
fn number_branches(
    alloc: Global,
    slots: &Slots,
    list: &[CastBranch],
    tables: Tables,
) -> Result<Numbered, AllocError>
    ensures { (m : Trees) → IsMeant slots.now tables m → BranchesSlotted tables.table.types slots.now (cast_branches list.now)
        → IfOk result (ListsBranches slots.now tables m list.now) }
{
    let branches = branch_nodes(alloc, slots, list, tables)?;
    put_branches(branches)
}

/// Their nodes.
#[cycle(stmts)]
#[tactic(auto, using(mono_syntax::proofs::Parts::parts))]
fn branch_nodes(
    alloc: Global,
    slots: &Slots,
    list: &[CastBranch],
    tables: Tables,
) -> Result<Branches, AllocError>
    ensures { (m : Trees) → IsMeant slots.now tables m → BranchesSlotted tables.table.types slots.now (cast_branches list.now)
        → IfOk result (GivesBranches slots.now tables m list.now) }
{
    let mut tables = tables;
    let mut branches = Items::new(alloc);
    for branch in list {
        let condition = number_expr(alloc, slots, &branch.condition, tables)?;
        let body = number_body(alloc, slots, branch.body.get().as_slice(), condition.tables)?;
        tables = body.tables;
        branches.push(BranchNode {
            condition: condition.at,
            body: body.at,
        })?;
    }
    Ok(Branches { branches, tables })
}
