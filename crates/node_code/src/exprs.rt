ghost use Rattle.std.specs.Prelude.{◌≡◌, IfOk, List, length};
ghost use Rattle.mono_syntax.specs.CastExprView.{cast_expr_of, cast_exprs, args};
ghost use Rattle.node_code.specs.NodeMeaning.{Trees, NodeIs, IsMeant, IsArg, IsValue};
ghost use Rattle.node_code.specs.Numbering.{Gives, GivesExpr, GivesNode, GivesValues, GivesArgs, ListsValues, ListsArgs};
ghost use Rattle.node_code.specs.Places.{At, Each};
ghost use Rattle.node_code.specs.Slotted.{HasSlot, IsSlotted, AreSlotted, ArgsSlotted};

use crate::data::{ArgNode, Node, Slots, Tables};
use crate::put::{Made, Many, Numbered, put, put_list, put_text};
use crate::texts::numbered;
use mono_list::Shared;
use mono_syntax::{Arg, CastExpr, CastExprKind, Name};
use name_places::NamePlaces;
use sqlite_items::Items;
use std::alloc::{AllocError, Global};

/// The slot of a name among these. One that has none is counted as far behind all of them.
pub(crate) fn slot(names: &NamePlaces, name: &Name) -> Result<u32, AllocError>
    ensures { HasSlot names.now name.now → IfOk result (λ i. At names.now i name.now) }
{
    match names.place(name) {
        Some(at) => numbered(at),
        None => Ok(u32::MAX),
    }
}

/// An expression by numbers, behind its parts.
#[cycle(exprs)]
#[tactic(auto, using(mono_syntax::proofs::Parts::parts))]
pub(crate) fn number_expr(
    alloc: Global,
    slots: &Slots,
    e: &Shared<CastExpr>,
    tables: Tables,
) -> Result<Numbered, AllocError>
    ensures { (m : Trees) → IsMeant slots.now tables m → IsSlotted slots.now e.now → IfOk result (GivesExpr slots.now tables m e.now) }
{
    let made = node_of(alloc, slots, &e.get().kind, tables)?;
    put(made)
}

/// The node of an expression, behind its parts.
#[cycle(exprs)]
#[tactic(auto, using(mono_syntax::proofs::Parts::parts))]
fn node_of(
    alloc: Global,
    slots: &Slots,
    kind: &CastExprKind,
    tables: Tables,
) -> Result<Made, AllocError>
    ensures { (m : Trees) → IsMeant slots.now tables m → IsSlotted slots.now (cast_expr_of kind.now)
        → IfOk result (GivesNode slots.now tables m (cast_expr_of kind.now)) }
{
    match kind {
        CastExprKind::Int(n) => Ok(Made {
            node: Node::Int(*n),
            tables,
        }),
        CastExprKind::Text(text) => {
            let t = put_text(alloc, text, tables)?;
            Ok(Made {
                node: Node::Text(t.at),
                tables: t.tables,
            })
        }
        CastExprKind::Bool(b) => Ok(Made {
            node: Node::Bool(*b),
            tables,
        }),
        CastExprKind::Nil => Ok(Made {
            node: Node::Nil,
            tables,
        }),
        CastExprKind::Local(site, name) => {
            let slot = slot(&slots.names, name)?;
            Ok(Made {
                node: Node::Local(*site, slot),
                tables,
            })
        }
        CastExprKind::Function(g) => Ok(Made {
            node: Node::Function(*g),
            tables,
        }),
        CastExprKind::Neg(site, a) => {
            let a = number_expr(alloc, slots, a, tables)?;
            Ok(Made {
                node: Node::Neg(*site, a.at),
                tables: a.tables,
            })
        }
        CastExprKind::Not(a) => {
            let a = number_expr(alloc, slots, a, tables)?;
            Ok(Made {
                node: Node::Not(a.at),
                tables: a.tables,
            })
        }
        CastExprKind::Binary(op, operator, arithmetic, a, b) => {
            let a = number_expr(alloc, slots, a, tables)?;
            let b = number_expr(alloc, slots, b, a.tables)?;
            Ok(Made {
                node: Node::Binary(*op, *operator, *arithmetic, a.at, b.at),
                tables: b.tables,
            })
        }
        CastExprKind::And(a, b) => {
            let a = number_expr(alloc, slots, a, tables)?;
            let b = number_expr(alloc, slots, b, a.tables)?;
            Ok(Made {
                node: Node::And(a.at, b.at),
                tables: b.tables,
            })
        }
        CastExprKind::Or(a, b) => {
            let a = number_expr(alloc, slots, a, tables)?;
            let b = number_expr(alloc, slots, b, a.tables)?;
            Ok(Made {
                node: Node::Or(a.at, b.at),
                tables: b.tables,
            })
        }
        CastExprKind::Read(member, object, field) => {
            let object = number_expr(alloc, slots, object, tables)?;
            let field = put_text(alloc, field, object.tables)?;
            Ok(Made {
                node: Node::Read(*member, object.at, field.at),
                tables: field.tables,
            })
        }
        CastExprKind::New(class, given) => {
            let list = number_values(alloc, slots, given.as_slice(), tables)?;
            Ok(Made {
                node: Node::New(*class, list.at),
                tables: list.tables,
            })
        }
        CastExprKind::Call(site, callee, given) => {
            let callee = number_expr(alloc, slots, callee, tables)?;
            let list = number_args(alloc, slots, given.as_slice(), callee.tables)?;
            Ok(Made {
                node: Node::Call(*site, callee.at, list.at),
                tables: list.tables,
            })
        }
        CastExprKind::Fit(site, a) => {
            let a = number_expr(alloc, slots, a, tables)?;
            Ok(Made {
                node: Node::Fit(*site, a.at),
                tables: a.tables,
            })
        }
        CastExprKind::Join(site, name) => {
            let slot = slot(&slots.threads, name)?;
            Ok(Made {
                node: Node::Join(*site, slot),
                tables,
            })
        }
    }
}

/// The list of values that have no sites, as those of a print.
#[cycle(exprs)]
#[tactic(auto, using(mono_syntax::proofs::Parts::parts))]
pub(crate) fn number_values(
    alloc: Global,
    slots: &Slots,
    list: &[Shared<CastExpr>],
    tables: Tables,
) -> Result<Numbered, AllocError>
    ensures { (m : Trees) → IsMeant slots.now tables m → AreSlotted slots.now (cast_exprs list.now)
        → IfOk result (ListsValues slots.now tables m list.now) }
{
    let many = value_nodes(alloc, slots, list, tables)?;
    put_list(many)
}

/// Their nodes.
#[cycle(exprs)]
#[tactic(auto, using(mono_syntax::proofs::Parts::parts))]
fn value_nodes(
    alloc: Global,
    slots: &Slots,
    list: &[Shared<CastExpr>],
    tables: Tables,
) -> Result<Many, AllocError>
    ensures { (m : Trees) → IsMeant slots.now tables m → AreSlotted slots.now (cast_exprs list.now)
        → IfOk result (GivesValues slots.now tables m list.now) }
{
    let mut tables = tables;
    let mut nodes = Items::new(alloc);
    for e in list {
        let n = number_expr(alloc, slots, e, tables)?;
        tables = n.tables;
        nodes.push(ArgNode {
            site: None,
            node: n.at,
        })?;
    }
    Ok(Many { nodes, tables })
}

/// The list of the arguments of a call.
#[cycle(exprs)]
#[tactic(auto, using(mono_syntax::proofs::Parts::parts))]
pub(crate) fn number_args(
    alloc: Global,
    slots: &Slots,
    list: &[Arg],
    tables: Tables,
) -> Result<Numbered, AllocError>
    ensures { (m : Trees) → IsMeant slots.now tables m → ArgsSlotted slots.now (args list.now)
        → IfOk result (ListsArgs slots.now tables m list.now) }
{
    let many = arg_nodes(alloc, slots, list, tables)?;
    put_list(many)
}

/// Their nodes.
#[cycle(exprs)]
#[tactic(auto, using(mono_syntax::proofs::Parts::parts))]
fn arg_nodes(alloc: Global, slots: &Slots, list: &[Arg], tables: Tables) -> Result<Many, AllocError>
    ensures { (m : Trees) → IsMeant slots.now tables m → ArgsSlotted slots.now (args list.now)
        → IfOk result (GivesArgs slots.now tables m list.now) }
{
    let mut tables = tables;
    let mut nodes = Items::new(alloc);
    for arg in list {
        let n = number_expr(alloc, slots, &arg.value, tables)?;
        tables = n.tables;
        nodes.push(ArgNode {
            site: arg.site,
            node: n.at,
        })?;
    }
    Ok(Many { nodes, tables })
}
