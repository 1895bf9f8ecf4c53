ghost use Rattle.std.specs.Prelude.{◌≡◌, OnOk};
ghost use Rattle.mono_syntax.specs.Ann.{fun};
ghost use Rattle.mono_syntax.specs.AnnView.{anns};
ghost use Rattle.token_lines.specs.Sheets.{written};
ghost use Rattle.tree_print.specs.Brackets.{ann_tokens, form_tokens, anns_tokens, more_anns_tokens};

use crate::tokens::{put_name, put_sign, put_what};
use mono_syntax::{Ann, AnnForm};
use spelled_tokens::{Mark, What};
use std::alloc::{AllocError, Global};
use token_lines::Page;

/// Adds a type as it is written.
#[cycle(types)]
pub fn put_ann(alloc: Global, page: &mut Page, ann: &Ann) -> Result<(), AllocError>
    ensures { OnOk result (page.new ≡ written page.old (ann_tokens ann.now)) }
{
    match &ann.what {
        AnnForm::Dyn => put_sign(alloc, page, Mark::Dyn),
        AnnForm::Int => put_sign(alloc, page, Mark::Int),
        AnnForm::Bool => put_sign(alloc, page, Mark::Bool),
        AnnForm::Str => put_sign(alloc, page, Mark::Str),
        AnnForm::Nil => put_what(alloc, page, What::Nil),
        AnnForm::Class(word) => put_name(alloc, page, word),
        AnnForm::Fun(params, out) => put_callable(alloc, page, params.as_slice(), out.get()),
    }
}

#[cycle(types)]
#[tactic(auto, using(token_lines::proofs::Sheets::writing))]
fn put_callable(alloc: Global, page: &mut Page, params: &[Ann], out: &Ann) -> Result<(), AllocError>
    ensures { OnOk result (page.new ≡ written page.old (form_tokens (fun (anns params.now) out.now))) }
{
    put_sign(alloc, page, Mark::Callable)?;
    put_sign(alloc, page, Mark::OpenSquare)?;
    put_sign(alloc, page, Mark::OpenSquare)?;
    put_anns(alloc, page, params)?;
    put_sign(alloc, page, Mark::CloseSquare)?;
    put_what(alloc, page, What::Comma)?;
    put_ann(alloc, page, out)?;
    put_sign(alloc, page, Mark::CloseSquare)
}

/// Adds types with commas between.
#[cycle(types)]
#[tactic(auto, using(crate::proofs::Turns::turns))]
fn put_anns(alloc: Global, page: &mut Page, list: &[Ann]) -> Result<(), AllocError>
    ensures { OnOk result (page.new ≡ written page.old (anns_tokens (anns list.now))) }
{
    let Some((first, rest)) = list.split_first() else {
        return Ok(());
    };
    put_ann(alloc, page, first)?;
    put_more_anns(alloc, page, rest)
}

/// Adds types, each behind a comma.
#[cycle(types)]
#[tactic(auto, using(crate::proofs::Turns::turns))]
fn put_more_anns(alloc: Global, page: &mut Page, list: &[Ann]) -> Result<(), AllocError>
    ensures { OnOk result (page.new ≡ written page.old (more_anns_tokens (anns list.now))) }
{
    for ann in list {
        put_what(alloc, page, What::Comma)?;
        put_ann(alloc, page, ann)?;
    }
    Ok(())
}
