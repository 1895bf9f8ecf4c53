ghost use Rattle.std.specs.Prelude.{Ok};
ghost use Rattle.known_names.specs.computed.Gives.{Gives};
ghost use Rattle.consistency.specs.computed.Traces.{with_expr};

use mono_list::Shared;
use mono_syntax::{LoadFault, Ty, TyAt};
use sqlite_items::Items;
use type_list::{TypeList, with_type};

/// The list of all types so far, and the position of the type of each expression so far, in source order.
#[derive(Drop)]
pub struct Trace {
    pub types: TypeList,
    pub exprs: Items<TyAt>,
}

/// One more expression, which has this type.
pub fn with_expr(trace: Trace, ty: &Shared<Ty>) -> Result<Trace, LoadFault>
    ensures { Gives result (Ok (with_expr trace ty.now)) }
{
    let Trace { types, mut exprs } = trace;
    let placed = with_type(types, ty)?;
    exprs.push(placed.at)?;
    Ok(Trace {
        types: placed.types,
        exprs,
    })
}
