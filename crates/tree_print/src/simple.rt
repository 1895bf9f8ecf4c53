ghost use Rattle.std.specs.Prelude.{◌≡◌, ◌∷◌, ◌++◌, [], OnOk, None};
ghost use Rattle.mono_syntax.specs.ExprView.{exprs};
ghost use Rattle.mono_syntax.specs.Stmt as stmt;
ghost use Rattle.token_lines.specs.declared.printed.Printed.TheVariants.{Plain};
ghost use Rattle.spelled_tokens.specs.declared.token.Mark.TheVariants as mark;
ghost use Rattle.spelled_tokens.specs.declared.token.What.TheVariants as what;
ghost use Rattle.token_lines.specs.Sheets.{written};
ghost use Rattle.tree_print.specs.Brackets.{sign, name, placed, expr_tokens, exprs_tokens, more_exprs_tokens};
ghost use Rattle.tree_print.specs.ScriptLines.{type_tokens, give_tokens, simple_tokens};

use crate::expressions::{put_expr, put_exprs, put_more_exprs, put_placed};
use crate::tokens::{put_name, put_sign, put_what};
use crate::types::put_ann;
use mono_syntax::{Ann, Expr, Stmt, StmtKind, Word};
use spelled_tokens::{Mark, What};
use std::alloc::{AllocError, Global};
use token_lines::Page;

/// Adds a colon and a type, or nothing.
pub fn put_type(alloc: Global, page: &mut Page, ann: &Option<Ann>) -> Result<(), AllocError>
    ensures { OnOk result (page.new ≡ written page.old (type_tokens ann.now)) }
{
    let Some(ann) = ann else {
        return Ok(());
    };
    put_sign(alloc, page, Mark::Colon)?;
    put_ann(alloc, page, ann)
}

fn put_give(alloc: Global, page: &mut Page, value: &Option<Expr>) -> Result<(), AllocError>
    ensures { OnOk result (page.new ≡ written page.old (give_tokens value.now)) }
{
    put_sign(alloc, page, Mark::Return)?;
    match value {
        Some(e) => put_expr(alloc, page, e),
        None => Ok(()),
    }
}

#[tactic(auto, using(token_lines::proofs::Sheets::writing))]
fn put_print(alloc: Global, page: &mut Page, list: &[Expr]) -> Result<(), AllocError>
    ensures { OnOk result (page.new ≡ written page.old (sign mark.Print ∷ Plain what.Open ∷ (exprs_tokens (exprs list.now) ++ Plain what.Close ∷ []))) }
{
    put_sign(alloc, page, Mark::Print)?;
    put_what(alloc, page, What::Open)?;
    put_exprs(alloc, page, list)?;
    put_what(alloc, page, What::Close)
}

#[tactic(auto, using(token_lines::proofs::Sheets::writing))]
fn put_assign(
    alloc: Global,
    page: &mut Page,
    word: &Word,
    ann: &Option<Ann>,
    e: &Expr,
) -> Result<(), AllocError>
    ensures { OnOk result (page.new ≡ written page.old (name word.now ∷ (type_tokens ann.now ++ (sign mark.Equals ∷ expr_tokens e.now)))) }
{
    put_name(alloc, page, word)?;
    put_type(alloc, page, ann)?;
    put_sign(alloc, page, Mark::Equals)?;
    put_expr(alloc, page, e)
}

#[tactic(auto, using(token_lines::proofs::Sheets::writing))]
fn put_write(
    alloc: Global,
    page: &mut Page,
    receiver: &Expr,
    word: &Word,
    e: &Expr,
) -> Result<(), AllocError>
    ensures { OnOk result (page.new ≡ written page.old (placed 8 receiver.now (expr_tokens receiver.now) ++ (Plain what.Dot ∷ name word.now ∷ sign mark.Equals ∷ expr_tokens e.now))) }
{
    put_placed(alloc, page, 8, receiver)?;
    put_what(alloc, page, What::Dot)?;
    put_name(alloc, page, word)?;
    put_sign(alloc, page, Mark::Equals)?;
    put_expr(alloc, page, e)
}

#[tactic(auto, using(token_lines::proofs::Sheets::writing))]
fn put_start(
    alloc: Global,
    page: &mut Page,
    word: &Word,
    callee: &Expr,
    list: &[Expr],
) -> Result<(), AllocError>
    ensures { OnOk result (page.new ≡ written page.old (name word.now ∷ sign mark.Equals ∷ sign mark.Start ∷ Plain what.Open ∷ (expr_tokens callee.now ++ (more_exprs_tokens (exprs list.now) ++ Plain what.Close ∷ [])))) }
{
    put_name(alloc, page, word)?;
    put_sign(alloc, page, Mark::Equals)?;
    put_sign(alloc, page, Mark::Start)?;
    put_what(alloc, page, What::Open)?;
    put_expr(alloc, page, callee)?;
    put_more_exprs(alloc, page, list)?;
    put_what(alloc, page, What::Close)
}

/// Adds a statement that stands on a line of its own; of an `if` or a `while` it adds nothing.
pub fn put_simple(alloc: Global, page: &mut Page, s: &Stmt) -> Result<(), AllocError>
    ensures { OnOk result (page.new ≡ written page.old (simple_tokens s.now)) }
{
    match &s.kind {
        StmtKind::Pass => put_sign(alloc, page, Mark::Pass),
        StmtKind::Return(_, value) => put_give(alloc, page, value),
        StmtKind::Print(_, list) => put_print(alloc, page, list.as_slice()),
        StmtKind::Assign(word, ann, e) => put_assign(alloc, page, word, ann, e),
        StmtKind::Write(receiver, word, e) => put_write(alloc, page, receiver, word, e),
        StmtKind::Start(word, _, callee, list) => {
            put_start(alloc, page, word, callee, list.as_slice())
        }
        StmtKind::Plain(e) => put_expr(alloc, page, e),
        StmtKind::If(_, _) => Ok(()),
        StmtKind::While(_, _) => Ok(()),
    }
}
