ghost use Rattle.std.specs.Prelude.{◌≡◌, IfOk};
ghost use Rattle.cast_nodes.specs.computed.Noded.{function_number, called_number};

use known_names::Known;
use mono_syntax::{Expr, ExprKind, Name};
use std::alloc::AllocError;

/// The position as a number.
fn number_of(at: Option<usize>) -> Result<Option<u32>, AllocError>
    ensures { IfOk result (λ number. number ≡ at) }
{
    let Some(at) = at else {
        return Ok(None);
    };
    // There are never as many: a script of 2^20 bytes has fewer classes and functions than bytes.
    match u32::try_from(at) {
        Ok(number) => Ok(Some(number)),
        Err(_) => Err(AllocError),
    }
}

/// The number of the function of a name.
pub fn function_number(known: &Known, name: &Name) -> Result<Option<u32>, AllocError>
    ensures { IfOk result (λ number. number ≡ function_number known.now name.now) }
{
    number_of(known.functions.place(name))
}

/// The number of the class whose name is called.
pub fn called_number(known: &Known, callee: &Expr) -> Result<Option<u32>, AllocError>
    ensures { IfOk result (λ number. number ≡ called_number known.now callee.now) }
{
    match &callee.kind {
        ExprKind::Local(word) => number_of(known.classes.place(&word.text)),
        _ => Ok(None),
    }
}
