ghost use Rattle.std.specs.Prelude.{◌≡◌, ◌∷◌, ◌++◌, [], true, OnOk};
ghost use Rattle.mono_syntax.specs.ExprView.{exprs};
ghost use Rattle.parse_expr.specs.Precedence.{op_left, op_right};
ghost use Rattle.token_lines.specs.declared.printed.Printed.TheVariants.{Plain};
ghost use Rattle.spelled_tokens.specs.declared.token.What.TheVariants as what;
ghost use Rattle.token_lines.specs.Sheets.{written};
ghost use Rattle.tree_print.specs.Brackets.{ann_tokens, name, level_of, bracketed, placed, expr_tokens, exprs_tokens, more_exprs_tokens};

use crate::tokens::{put_name, put_what};
use crate::types::put_ann;
use mono_syntax::{Ann, Expr, ExprKind, Op, Word};
use parse_expr::{op_left, op_right, op_whole};
use spelled_tokens::What;
use std::alloc::{AllocError, Global};
use token_lines::{Page, Printed};

/// How tightly the outermost part of an expression binds.
fn level_of(e: &Expr) -> u32
    ensures { result ≡ level_of e.now }
{
    match &e.kind {
        ExprKind::Or(_, _) => 1,
        ExprKind::And(_, _) => 2,
        ExprKind::Not(_, _) => 3,
        ExprKind::Binary(op, _, _, _) => op_whole(*op),
        ExprKind::Neg(_, _) => 7,
        ExprKind::Read(_, _) | ExprKind::Call(_, _, _) => 8,
        ExprKind::Local(_)
        | ExprKind::Int(_, _)
        | ExprKind::Text(_, _)
        | ExprKind::Bool(_, _)
        | ExprKind::Nil(_)
        | ExprKind::Cast(_, _, _)
        | ExprKind::Join(_, _) => 9,
    }
}

/// Adds an expression.
#[cycle(exprs)]
#[tactic(auto, using(token_lines::proofs::Sheets::writing))]
pub fn put_expr(alloc: Global, page: &mut Page, e: &Expr) -> Result<(), AllocError>
    ensures { OnOk result (page.new ≡ written page.old (expr_tokens e.now)) }
{
    match &e.kind {
        ExprKind::Local(word) => put_name(alloc, page, word),
        ExprKind::Int(_, n) => put_what(alloc, page, What::Number(*n)),
        ExprKind::Text(_, text) => {
            let text = text.share()?;
            put_what(alloc, page, What::Text(text))
        }
        ExprKind::Bool(_, b) => put_what(alloc, page, What::Bool(*b)),
        ExprKind::Nil(_) => put_what(alloc, page, What::Nil),
        ExprKind::Neg(_, a) => {
            page.put(alloc, &Printed::Minus)?;
            put_placed(alloc, page, 7, a.get())
        }
        ExprKind::Not(_, a) => {
            put_what(alloc, page, What::Not)?;
            put_placed(alloc, page, 3, a.get())
        }
        ExprKind::Binary(op, _, a, b) => put_binary(alloc, page, *op, a.get(), b.get()),
        ExprKind::And(a, b) => put_and(alloc, page, a.get(), b.get()),
        ExprKind::Or(a, b) => put_or(alloc, page, a.get(), b.get()),
        ExprKind::Read(a, word) => put_read(alloc, page, a.get(), word),
        ExprKind::Call(_, a, list) => put_call(alloc, page, a.get(), list.as_slice()),
        ExprKind::Cast(_, ann, a) => put_cast(alloc, page, ann, a.get()),
        ExprKind::Join(_, word) => put_join(alloc, page, word),
    }
}

/// Adds an expression where a level is wanted: in brackets where its own is looser.
#[cycle(exprs)]
#[tactic(auto, using(token_lines::proofs::Sheets::writing))]
pub fn put_placed(alloc: Global, page: &mut Page, level: u32, e: &Expr) -> Result<(), AllocError>
    ensures { OnOk result (page.new ≡ written page.old (placed level e.now (expr_tokens e.now))) }
{
    if level_of(e) < level {
        put_bracketed(alloc, page, e)
    } else {
        put_expr(alloc, page, e)
    }
}

#[cycle(exprs)]
#[tactic(auto, using(token_lines::proofs::Sheets::writing))]
fn put_bracketed(alloc: Global, page: &mut Page, e: &Expr) -> Result<(), AllocError>
    ensures { OnOk result (page.new ≡ written page.old (bracketed true (expr_tokens e.now))) }
{
    put_what(alloc, page, What::Open)?;
    put_expr(alloc, page, e)?;
    put_what(alloc, page, What::Close)
}

#[cycle(exprs)]
#[tactic(auto, using(token_lines::proofs::Sheets::writing))]
fn put_binary(alloc: Global, page: &mut Page, op: Op, a: &Expr, b: &Expr) -> Result<(), AllocError>
    ensures { OnOk result (page.new ≡ written page.old (placed (op_left op) a.now (expr_tokens a.now) ++ (Plain (what.Operator op) ∷ placed (op_right op) b.now (expr_tokens b.now)))) }
{
    put_placed(alloc, page, op_left(op), a)?;
    put_what(alloc, page, What::Operator(op))?;
    put_placed(alloc, page, op_right(op), b)
}

#[cycle(exprs)]
#[tactic(auto, using(token_lines::proofs::Sheets::writing))]
fn put_and(alloc: Global, page: &mut Page, a: &Expr, b: &Expr) -> Result<(), AllocError>
    ensures { OnOk result (page.new ≡ written page.old (placed 2 a.now (expr_tokens a.now) ++ (Plain what.And ∷ placed 3 b.now (expr_tokens b.now)))) }
{
    put_placed(alloc, page, 2, a)?;
    put_what(alloc, page, What::And)?;
    put_placed(alloc, page, 3, b)
}

#[cycle(exprs)]
#[tactic(auto, using(token_lines::proofs::Sheets::writing))]
fn put_or(alloc: Global, page: &mut Page, a: &Expr, b: &Expr) -> Result<(), AllocError>
    ensures { OnOk result (page.new ≡ written page.old (placed 1 a.now (expr_tokens a.now) ++ (Plain what.Or ∷ placed 2 b.now (expr_tokens b.now)))) }
{
    put_placed(alloc, page, 1, a)?;
    put_what(alloc, page, What::Or)?;
    put_placed(alloc, page, 2, b)
}

#[cycle(exprs)]
#[tactic(auto, using(token_lines::proofs::Sheets::writing))]
fn put_read(alloc: Global, page: &mut Page, a: &Expr, word: &Word) -> Result<(), AllocError>
    ensures { OnOk result (page.new ≡ written page.old (placed 8 a.now (expr_tokens a.now) ++ (Plain what.Dot ∷ name word.now ∷ []))) }
{
    put_placed(alloc, page, 8, a)?;
    put_what(alloc, page, What::Dot)?;
    put_name(alloc, page, word)
}

#[cycle(exprs)]
#[tactic(auto, using(token_lines::proofs::Sheets::writing))]
fn put_call(alloc: Global, page: &mut Page, a: &Expr, list: &[Expr]) -> Result<(), AllocError>
    ensures { OnOk result (page.new ≡ written page.old (placed 8 a.now (expr_tokens a.now) ++ (Plain what.Open ∷ (exprs_tokens (exprs list.now) ++ Plain what.Close ∷ [])))) }
{
    put_placed(alloc, page, 8, a)?;
    put_what(alloc, page, What::Open)?;
    put_exprs(alloc, page, list)?;
    put_what(alloc, page, What::Close)
}

#[cycle(exprs)]
#[tactic(auto, using(token_lines::proofs::Sheets::writing))]
fn put_cast(alloc: Global, page: &mut Page, ann: &Ann, a: &Expr) -> Result<(), AllocError>
    ensures { OnOk result (page.new ≡ written page.old (Plain what.Cast ∷ Plain what.Open ∷ (ann_tokens ann.now ++ (Plain what.Comma ∷ (expr_tokens a.now ++ Plain what.Close ∷ []))))) }
{
    put_what(alloc, page, What::Cast)?;
    put_what(alloc, page, What::Open)?;
    put_ann(alloc, page, ann)?;
    put_what(alloc, page, What::Comma)?;
    put_expr(alloc, page, a)?;
    put_what(alloc, page, What::Close)
}

fn put_join(alloc: Global, page: &mut Page, word: &Word) -> Result<(), AllocError>
    ensures { OnOk result (page.new ≡ written page.old (Plain what.Join ∷ Plain what.Open ∷ name word.now ∷ Plain what.Close ∷ [])) }
{
    put_what(alloc, page, What::Join)?;
    put_what(alloc, page, What::Open)?;
    put_name(alloc, page, word)?;
    put_what(alloc, page, What::Close)
}

/// Adds expressions with commas between.
#[cycle(exprs)]
#[tactic(auto, using(crate::proofs::Turns::turns))]
pub fn put_exprs(alloc: Global, page: &mut Page, list: &[Expr]) -> Result<(), AllocError>
    ensures { OnOk result (page.new ≡ written page.old (exprs_tokens (exprs list.now))) }
{
    let Some((first, rest)) = list.split_first() else {
        return Ok(());
    };
    put_expr(alloc, page, first)?;
    put_more_exprs(alloc, page, rest)
}

/// Adds expressions, each behind a comma.
#[cycle(exprs)]
#[tactic(auto, using(crate::proofs::Turns::turns))]
pub fn put_more_exprs(alloc: Global, page: &mut Page, list: &[Expr]) -> Result<(), AllocError>
    ensures { OnOk result (page.new ≡ written page.old (more_exprs_tokens (exprs list.now))) }
{
    for e in list {
        put_what(alloc, page, What::Comma)?;
        put_expr(alloc, page, e)?;
    }
    Ok(())
}
