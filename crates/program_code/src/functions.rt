ghost use Rattle.std.specs.Prelude.{IfOk, Contains};
ghost use Rattle.mono_syntax.specs.declared.cast.CastFunction.{CastFunction};
ghost use Rattle.program_code.specs.SameScript.{AddsFunction, AddsFunctions, IsSlottedFunction};

use crate::data::FunctionCode;
use crate::types::type_no;
use mono_syntax::CastFunction;
use node_code::{Pool, number_block, slots_for, slots_of};
use sqlite_items::Items;
use std::alloc::{AllocError, Global};

/// A function by numbers, and the texts and the table of the program.
#[derive(Drop)]
pub(crate) struct WithFunction {
    pub function: FunctionCode,
    pub pool: Pool,
}

/// Functions by numbers, and the texts and the table of the program.
#[derive(Drop)]
pub(crate) struct WithFunctions {
    pub functions: Items<FunctionCode>,
    pub pool: Pool,
}

/// A function by numbers.
fn number_function(
    alloc: Global,
    function: &CastFunction,
    pool: Pool,
) -> Result<WithFunction, AllocError>
    requires { IsSlottedFunction pool.table.types function.now }
    ensures { IfOk result (AddsFunction pool function.now) }
{
    let ty = type_no(&pool.table, &function.ty);
    let slots = slots_of(alloc, &function.block)?;
    let params = slots_for(alloc, &slots.names, function.params.as_slice())?;
    let with = number_block(alloc, &slots, &function.block, pool)?;
    Ok(WithFunction {
        function: FunctionCode {
            params,
            ty,
            block: with.block,
            falls: function.falls,
        },
        pool: with.pool,
    })
}

/// The functions by numbers, in their order.
pub(crate) fn number_functions(
    alloc: Global,
    functions: &[CastFunction],
    pool: Pool,
) -> Result<WithFunctions, AllocError>
    requires { (f : CastFunction) → Contains functions.now f → IsSlottedFunction pool.table.types f }
    ensures { IfOk result (AddsFunctions pool functions.now) }
{
    let mut codes = Items::new(alloc);
    let mut pool = pool;
    for function in functions {
        let with = number_function(alloc, function, pool)?;
        codes.push(with.function)?;
        pool = with.pool;
    }
    Ok(WithFunctions {
        functions: codes,
        pool,
    })
}
