ghost use Rattle.std.specs.Prelude.{◌≡◌, IfOk, List};
ghost use Rattle.mono_syntax.specs.CastExpr.{CastExpr};
ghost use Rattle.node_code.specs.NodeMeaning.{Trees};
ghost use Rattle.mono_syntax.specs.declared.cast.CastBranch.{CastBranch};
ghost use Rattle.mono_syntax.specs.CastStmt.{CastStmt};
ghost use Rattle.node_code.specs.Numbering.{GivesExpr, GivesNode, GivesStmt, GivesStmtNode, GivesStmts, GivesBody, GivesBranches};
ghost use Rattle.node_code.specs.Numbering.{ListsBranches};
ghost use Rattle.node_code.specs.computed.MoreTables.{IsListed, HasText};
ghost use Rattle.node_code.specs.declared.data.Slots.{Slots};
ghost use Rattle.node_code.specs.declared.data.Tables.{Tables};

use crate::data::{ArgNode, BranchNode, Node, StmtNode, Tables};
use crate::texts::numbered;
use mono_syntax::Name;
use sqlite_items::Items;
use std::alloc::{AllocError, Global};

/// The number of something, and the tables in which it stands.
#[derive(Drop)]
pub(crate) struct Numbered {
    pub at: u32,
    pub tables: Tables,
}

/// A node whose parts stand in the tables.
#[derive(Drop)]
pub(crate) struct Made {
    pub node: Node,
    pub tables: Tables,
}

/// One node more.
pub(crate) fn put(made: Made) -> Result<Numbered, AllocError>
    ensures { (s : Slots) (a : Tables) (m : Trees) (e : CastExpr) → GivesNode s a m e made → IfOk result (GivesExpr s a m e) }
{
    let Made { node, mut tables } = made;
    let at = numbered(tables.code.nodes.len())?;
    tables.code.nodes.push(node)?;
    Ok(Numbered { at, tables })
}

/// Nodes of arguments whose trees stand in the tables.
#[derive(Drop)]
pub(crate) struct Many {
    pub nodes: Items<ArgNode>,
    pub tables: Tables,
}

/// One list of arguments more.
pub(crate) fn put_list(many: Many) -> Result<Numbered, AllocError>
    ensures { IfOk result (IsListed many) }
{
    let Many { nodes, mut tables } = many;
    let at = numbered(tables.code.lists.len())?;
    tables.code.lists.push(nodes)?;
    Ok(Numbered { at, tables })
}

/// The number of a text, which gets one where it has none.
pub(crate) fn put_text(alloc: Global, text: &Name, tables: Tables) -> Result<Numbered, AllocError>
    ensures { IfOk result (HasText tables text.now) }
{
    let Tables { texts, table, code } = tables;
    let found = texts.with_text(alloc, text)?;
    let tables = Tables {
        texts: found.texts,
        table,
        code,
    };
    Ok(Numbered {
        at: found.at,
        tables,
    })
}

/// A statement's node whose parts stand in the tables.
#[derive(Drop)]
pub(crate) struct MadeStmt {
    pub node: StmtNode,
    pub tables: Tables,
}

/// One statement more.
pub(crate) fn put_stmt(made: MadeStmt) -> Result<Numbered, AllocError>
    ensures { (s : Slots) (a : Tables) (m : Trees) (e : CastStmt) → GivesStmtNode s a m e made → IfOk result (GivesStmt s a m e) }
{
    let MadeStmt { node, mut tables } = made;
    let at = numbered(tables.code.stmts.len())?;
    tables.code.stmts.push(node)?;
    Ok(Numbered { at, tables })
}

/// Statements of a body that stand in the tables.
#[derive(Drop)]
pub(crate) struct Body {
    pub stmts: Items<u32>,
    pub tables: Tables,
}

/// One body more.
pub(crate) fn put_body(body: Body) -> Result<Numbered, AllocError>
    ensures { (s : Slots) (a : Tables) (m : Trees) (b : List CastStmt) → GivesStmts s a m b body → IfOk result (GivesBody s a m b) }
{
    let Body { stmts, mut tables } = body;
    let at = numbered(tables.code.bodies.len())?;
    tables.code.bodies.push(stmts)?;
    Ok(Numbered { at, tables })
}

/// Branches whose conditions and bodies stand in the tables.
#[derive(Drop)]
pub(crate) struct Branches {
    pub branches: Items<BranchNode>,
    pub tables: Tables,
}

/// One list of branches more.
pub(crate) fn put_branches(list: Branches) -> Result<Numbered, AllocError>
    ensures { (s : Slots) (a : Tables) (m : Trees) (bs : List CastBranch) → GivesBranches s a m bs list
        → IfOk result (ListsBranches s a m bs) }
{
    let Branches {
        branches,
        mut tables,
    } = list;
    let at = numbered(tables.code.branches.len())?;
    tables.code.branches.push(branches)?;
    Ok(Numbered { at, tables })
}
