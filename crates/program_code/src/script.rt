ghost use Rattle.std.specs.Prelude.{◌≡◌, IfOk, IfErr, List, map, take};
ghost use Rattle.mono_syntax.specs.declared.refusal.Refusal.{Refusal};
ghost use Rattle.mono_tree.specs.TypedPrograms.{IsTypedProgram};
ghost use Rattle.mono_tree.specs.TypeNumbers.{Names};
ghost use Rattle.node_code.specs.Places.{Each};
ghost use Rattle.mono_syntax.specs.Ty.{Ty};
ghost use Rattle.mono_tree.specs.ClosedList.{IsClosedList};
ghost use Rattle.program_code.specs.Counts.{IsTooMany, AreFew, most_classes};
ghost use Rattle.program_code.specs.SameScript.{AreBlocks, IsProgram, IsSlottedScript};
ghost use Rattle.program_code.specs.TypesIn.{AreTypesIn};
ghost use Rattle.script_rules.specs.LoadFaults.{IsFault, Refuses};

use crate::classes::{class_codes, class_names, function_names};
use crate::count::counted;
use crate::data::{FunctionCode, Program};
use crate::functions::number_functions;
use crate::types::type_numbers;
use mono_syntax::{CastScript, LoadFault, Site, TypeNo};
use node_code::{Block, Pool, TextList, number_block, slots_of};
use sqlite_items::Items;
use std::alloc::{AllocError, Global};
use type_numbers::TypeTable;

/// The sites, with their numbers.
fn sites_again(alloc: Global, sites: &[Site]) -> Result<Items<Site>, AllocError>
    ensures { IfOk result (λ r. r ≡ sites.now) }
{
    Items::from_slice(alloc, sites)
}

/// The blocks of a script by numbers, over the texts and the table of its program.
#[derive(Drop)]
pub(crate) struct Blocks {
    pub functions: Items<FunctionCode>,
    pub main: Block,
    pub pool: Pool,
}

fn number_blocks(alloc: Global, script: &CastScript, table: TypeTable) -> Result<Blocks, AllocError>
    requires { IsSlottedScript table.types script.now }
    ensures { IfOk result (AreBlocks table script.now) }
{
    let texts = TextList::new(alloc);
    let pool = Pool { texts, table };
    let with = number_functions(alloc, script.functions.as_slice(), pool)?;
    let slots = slots_of(alloc, &script.main)?;
    let main = number_block(alloc, &slots, &script.main, with.pool)?;
    Ok(Blocks {
        functions: with.functions,
        main: main.block,
        pool: main.pool,
    })
}

/// The program of these blocks, with these numbers of the types of its sites.
fn with_blocks(
    alloc: Global,
    script: &CastScript,
    site_types: Items<TypeNo>,
    blocks: Blocks,
) -> Result<Program, AllocError>
    requires types { Each (Names blocks.pool.table.types) site_types script.now.types }
    requires blocks { AreBlocks blocks.pool.table script.now blocks }
    requires classes { blocks.pool.table.classes ≡ map (λ c. c.ty) script.now.classes }
    ensures { IfOk result (IsProgram script.now blocks.pool.table.types) }
{
    let items = script.scoped.get().script.get().items.get().as_slice();
    let sites = sites_again(alloc, script.sites.as_slice())?;
    let classes = class_codes(alloc, script.classes.as_slice())?;
    let class_names = class_names(alloc, items)?;
    let function_names = function_names(alloc, items)?;
    Ok(Program {
        texts: blocks.pool.texts.into_items(),
        table: blocks.pool.table,
        site_types,
        sites,
        classes,
        class_names,
        functions: blocks.functions,
        function_names,
        main: blocks.main,
    })
}

/// The script by numbers, whatever it counts.
fn program(alloc: Global, script: &CastScript, table: TypeTable) -> Result<Program, AllocError>
    requires slotted { IsSlottedScript table.types script.now }
    requires classes { table.classes ≡ map (λ c. c.ty) script.now.classes }
    ensures { IfOk result (IsProgram script.now table.types) }
{
    let site_types = type_numbers(alloc, &table, script.types.as_slice())?;
    let blocks = number_blocks(alloc, script, table)?;
    with_blocks(alloc, script, site_types, blocks)
}

/// The script by numbers, over the table of a closed list that has its types; where it has more classes than there are numbers, the table
/// has the first of them. Refused at its start where it has over 4,095 functions, else over 1,023 classes, else over 1,048,576 sites.
pub fn number(alloc: Global, script: &CastScript, table: TypeTable) -> Result<Program, LoadFault>
    requires typed { IsTypedProgram script.now }
    requires closed { (given : List Ty) × IsClosedList given table.types }
    requires types { AreTypesIn table.types script.now }
    requires classes { table.classes ≡ map (λ c. c.ty) (take most_classes script.now.classes) }
    ensures same { IfOk result (IsProgram script.now table.types) }
    ensures few { IfOk result (λ _. AreFew script.now) }
    ensures refused { IfErr result (IsFault (IsTooMany script.now)) }
    ensures refuses { (r : Refusal) → IsTooMany script.now r → Refuses result r }
{
    counted(script)?;
    let program = program(alloc, script, table)?;
    Ok(program)
}
