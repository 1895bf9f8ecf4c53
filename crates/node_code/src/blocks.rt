ghost use Rattle.std.specs.Prelude.{◌≡◌, IfOk, map};
ghost use Rattle.mono_syntax.specs.CastStmtView.{cast_block};
ghost use Rattle.node_code.specs.Blocks.{slots_of, AddsBlock};
ghost use Rattle.node_code.specs.Places.{At, Each};
ghost use Rattle.node_code.specs.Slotted.{BlockSlotted, HaveSlots};
ghost use Rattle.node_code.specs.computed.MoreTables.{no_code};

use crate::data::{Block, Code, Pool, Slots, Tables, WithBlock};
use crate::exprs::slot;
use crate::stmts::number_body;
use mono_syntax::{CastBlock, Name, NamedType};
use name_places::NamePlaces;
use sqlite_items::Items;
use std::alloc::{AllocError, Global};

/// The names, found by name.
fn places_of(alloc: Global, list: &[NamedType]) -> Result<NamePlaces, AllocError>
    ensures { IfOk result (λ r. r ≡ map (λ n. n.name) list.now) }
{
    let mut places = NamePlaces::new(alloc);
    for named in list {
        places = places.push(alloc, &named.name)?;
    }
    Ok(places)
}

/// The names, by slot.
fn names_of(alloc: Global, list: &[NamedType]) -> Result<Items<Name>, AllocError>
    ensures { IfOk result (λ r. r ≡ map (λ n. n.name) list.now) }
{
    let mut names = Items::new(alloc);
    for named in list {
        names.push(named.name.share()?)?;
    }
    Ok(names)
}

/// The slots of a block.
pub fn slots_of(alloc: Global, block: &CastBlock) -> Result<Slots, AllocError>
    ensures { IfOk result (λ r. r ≡ slots_of block.now) }
{
    let names = places_of(alloc, block.names.as_slice())?;
    let threads = places_of(alloc, block.threads.as_slice())?;
    Ok(Slots { names, threads })
}

/// No code.
fn no_code(alloc: Global) -> Code
    ensures { result ≡ no_code }
{
    let nodes = Items::new(alloc);
    let lists = Items::new(alloc);
    let stmts = Items::new(alloc);
    let bodies = Items::new(alloc);
    let branches = Items::new(alloc);
    Code {
        nodes,
        lists,
        stmts,
        bodies,
        branches,
    }
}

/// The slots of some names.
pub fn slots_for(alloc: Global, names: &NamePlaces, list: &[Name]) -> Result<Items<u32>, AllocError>
    // Each is one of the names, as the parameters of a well-typed function are.
    ensures { HaveSlots names.now list.now → IfOk result (λ r. Each (At names.now) r list.now) }
{
    let mut slots = Items::new(alloc);
    for name in list {
        slots.push(slot(names, name)?)?;
    }
    Ok(slots)
}

/// A block by numbers, with its slots: its code stands for its statements, over the program's texts and its table of types. The texts
/// keep what they have and get those of the block behind it.
pub fn number_block(
    alloc: Global,
    slots: &Slots,
    block: &CastBlock,
    pool: Pool,
) -> Result<WithBlock, AllocError>
    requires { slots.now ≡ slots_of block.now }

    // Each name that a statement of the block uses is one of its names, as in each well-typed block, and the types of its writes have
    // numbers.
    ensures { BlockSlotted pool.table.types (slots_of block.now) (cast_block block.now.body) → IfOk result (AddsBlock block.now pool) }
{
    let Pool { texts, table } = pool;
    let code = no_code(alloc);
    let tables = Tables { texts, table, code };
    let body = number_body(alloc, slots, block.body.get().as_slice(), tables)?;
    let names = names_of(alloc, block.names.as_slice())?;
    let threads = names_of(alloc, block.threads.as_slice())?;
    let Tables { texts, table, code } = body.tables;
    Ok(WithBlock {
        block: Block {
            names,
            threads,
            code,
            body: body.at,
        },
        pool: Pool { texts, table },
    })
}
