ghost use Rattle.std.specs.Prelude.{◌≡◌, List, IfOk, length};
ghost use Rattle.mono_syntax.specs.Ty.{Ty};
ghost use Rattle.type_shapes.specs.Shows.{AreMeets, IsMetNumber};
ghost use Rattle.type_shapes.specs.computed.ByNumber.{entry, met_no, met_parts, met_shape};

use crate::shape::{Shape, same_head};
use sqlite_items::Items;
use std::alloc::{AllocError, Global};

/// The number of the meet of the types of two numbers, where the table has its row; None where they have no meet.
pub fn met_no(rows: &[Items<Option<u16>>], a: u16, b: u16) -> Option<u16>
    ensures meet { (ts : List Ty) → AreMeets ts rows.now (length ts) → IsMetNumber ts a b result }

    // It is the value that the definition of this name computes.
    ensures computed { result ≡ met_no rows.now a b }
{
    looked_up(rows, a, b)
}

fn looked_up(rows: &[Items<Option<u16>>], a: u16, b: u16) -> Option<u16>
    ensures { result ≡ met_no rows.now a b }
{
    if a == b {
        Some(a)
    } else if b < a {
        entry(rows, a, b)
    } else {
        entry(rows, b, a)
    }
}

fn entry(rows: &[Items<Option<u16>>], a: u16, b: u16) -> Option<u16>
    ensures { result ≡ entry rows.now a b }
{
    match rows.get(a as usize) {
        Some(row) => match row.get(b as usize) {
            Some(met) => *met,
            None => None,
        },
        None => None,
    }
}

#[tactic(auto, using(crate::proofs::PartTurns::part_turns))]
fn met_parts(
    alloc: Global,
    rows: &[Items<Option<u16>>],
    parts: &[u16],
    others: &[u16],
) -> Result<Option<Items<u16>>, AllocError>
    ensures { IfOk result (λ found. found ≡ met_parts rows.now parts.now others.now) }
{
    if parts.len() != others.len() {
        return Ok(None);
    }
    let mut made = Items::new(alloc);
    for (a, b) in parts.iter().zip(others) {
        let Some(m) = looked_up(rows, *a, *b) else {
            return Ok(None);
        };
        made.push(m)?;
    }
    Ok(Some(made))
}

/// The shape of the meet of two types that are not `Dyn`.
pub fn met_shape(
    alloc: Global,
    rows: &[Items<Option<u16>>],
    a: &Shape,
    b: &Shape,
) -> Result<Option<Shape>, AllocError>
    ensures { IfOk result (λ found. found ≡ met_shape rows.now a.now b.now) }
{
    if !same_head(a.head, b.head) {
        return Ok(None);
    }
    let Some(parts) = met_parts(alloc, rows, a.parts.as_slice(), b.parts.as_slice())? else {
        return Ok(None);
    };
    let head = a.head;
    Ok(Some(Shape { head, parts }))
}
