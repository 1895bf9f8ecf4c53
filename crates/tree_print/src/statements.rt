ghost use Rattle.std.specs.Prelude.{◌≡◌, ◌∷◌, ◌++◌, [], suc, OnOk};
ghost use Rattle.mono_syntax.specs.StmtView.{block, branches, else_block};
ghost use Rattle.spelled_tokens.specs.declared.token.Mark.TheVariants as mark;
ghost use Rattle.token_lines.specs.Lines.{line, line_text, lines_text};
ghost use Rattle.token_lines.specs.Sheets.{written};
ghost use Rattle.tree_print.specs.Brackets.{sign};
ghost use Rattle.tree_print.specs.ScriptLines.{head_tokens, simple_tokens, stmt_lines, block_lines, branches_lines, else_lines};

use crate::expressions::put_expr;
use crate::simple::put_simple;
use crate::tokens::put_sign;
use mono_syntax::{Branch, Expr, Stmt, StmtKind};
use spelled_tokens::Mark;
use sqlite_items::Items;
use std::alloc::{AllocError, Global};
use token_lines::{Indent, Page};

/// Adds the head of a block: a word, a condition and a colon.
#[tactic(auto, using(token_lines::proofs::Sheets::writing))]
fn put_head(alloc: Global, page: &mut Page, mark: Mark, e: &Expr) -> Result<(), AllocError>
    ensures { OnOk result (page.new ≡ written page.old (head_tokens mark e.now)) }
{
    put_sign(alloc, page, mark)?;
    put_expr(alloc, page, e)?;
    put_sign(alloc, page, Mark::Colon)
}

fn put_else_tokens(alloc: Global, page: &mut Page) -> Result<(), AllocError>
    ensures { OnOk result (page.new ≡ written page.old (sign mark.Else ∷ sign mark.Colon ∷ [])) }
{
    put_sign(alloc, page, Mark::Else)?;
    put_sign(alloc, page, Mark::Colon)
}

#[tactic(auto, using(token_lines::proofs::Sheets::line_put))]
fn put_simple_line(
    alloc: Global,
    page: &mut Page,
    indent: &Indent,
    s: &Stmt,
) -> Result<(), AllocError>
    ensures { OnOk result (page.new.text ≡ page.old.text ++ line_text (line indent.now (simple_tokens s.now))) }
{
    page.begin(indent)?;
    put_simple(alloc, page, s)?;
    page.end()?;
    Ok(())
}

#[tactic(auto, using(token_lines::proofs::Sheets::line_put))]
fn put_head_line(
    alloc: Global,
    page: &mut Page,
    indent: &Indent,
    mark: Mark,
    e: &Expr,
) -> Result<(), AllocError>
    ensures { OnOk result (page.new.text ≡ page.old.text ++ line_text (line indent.now (head_tokens mark e.now))) }
{
    page.begin(indent)?;
    put_head(alloc, page, mark, e)?;
    page.end()?;
    Ok(())
}

#[tactic(auto, using(token_lines::proofs::Sheets::line_put))]
fn put_else_line(alloc: Global, page: &mut Page, indent: &Indent) -> Result<(), AllocError>
    ensures { OnOk result (page.new.text ≡ page.old.text ++ line_text (line indent.now (sign mark.Else ∷ sign mark.Colon ∷ []))) }
{
    page.begin(indent)?;
    put_else_tokens(alloc, page)?;
    page.end()?;
    Ok(())
}

/// Adds the lines of a statement.
#[cycle(stmts)]
#[tactic(auto, using(crate::proofs::Lines::lines))]
pub fn put_stmt(alloc: Global, page: &mut Page, indent: &Indent, s: &Stmt) -> Result<(), AllocError>
    ensures { OnOk result (page.new.text ≡ page.old.text ++ lines_text (stmt_lines indent.now s.now)) }
{
    match &s.kind {
        StmtKind::If(list, last) => {
            put_branches(alloc, page, indent, list.as_slice())?;
            put_else(alloc, page, indent, last)
        }
        StmtKind::While(e, body) => {
            put_head_line(alloc, page, indent, Mark::While, e)?;
            put_inner(alloc, page, indent, body.as_slice())
        }
        StmtKind::Pass
        | StmtKind::Return(_, _)
        | StmtKind::Print(_, _)
        | StmtKind::Assign(_, _, _)
        | StmtKind::Write(_, _, _)
        | StmtKind::Start(_, _, _, _)
        | StmtKind::Plain(_) => put_simple_line(alloc, page, indent, s),
    }
}

/// Adds the lines of a block.
#[cycle(stmts)]
#[tactic(auto, using(crate::proofs::Lines::lines))]
pub fn put_block(
    alloc: Global,
    page: &mut Page,
    indent: &Indent,
    list: &[Stmt],
) -> Result<(), AllocError>
    ensures { OnOk result (page.new.text ≡ page.old.text ++ lines_text (block_lines indent.now (block list.now))) }
{
    for s in list {
        put_stmt(alloc, page, indent, s)?;
    }
    Ok(())
}

/// Adds the lines of a block that stands one deeper.
#[cycle(stmts)]
pub fn put_inner(
    alloc: Global,
    page: &mut Page,
    indent: &Indent,
    list: &[Stmt],
) -> Result<(), AllocError>
    ensures { OnOk result (page.new.text ≡ page.old.text ++ lines_text (block_lines (suc indent.now) (block list.now))) }
{
    let deeper = indent.deeper(alloc)?;
    put_block(alloc, page, &deeper, list)
}

#[cycle(stmts)]
#[tactic(auto, using(crate::proofs::Lines::lines))]
fn put_branch(
    alloc: Global,
    page: &mut Page,
    indent: &Indent,
    mark: Mark,
    branch: &Branch,
) -> Result<(), AllocError>
    ensures { OnOk result (page.new.text ≡ page.old.text ++ lines_text (line indent.now (head_tokens mark branch.now.condition) ∷ block_lines (suc indent.now) (block branch.now.body))) }
{
    put_head_line(alloc, page, indent, mark, &branch.condition)?;
    put_inner(alloc, page, indent, branch.body.as_slice())
}

/// Adds the branches of an `if`: the first has this word, and the others `elif`.
#[cycle(stmts)]
#[tactic(auto, using(crate::proofs::Lines::lines))]
fn put_branches(
    alloc: Global,
    page: &mut Page,
    indent: &Indent,
    list: &[Branch],
) -> Result<(), AllocError>
    ensures { OnOk result (page.new.text ≡ page.old.text ++ lines_text (branches_lines indent.now mark.If (branches list.now))) }
{
    let mut word = Mark::If;
    for branch in list {
        put_branch(alloc, page, indent, word, branch)?;
        word = Mark::Elif;
    }
    Ok(())
}

#[cycle(stmts)]
#[tactic(auto, using(crate::proofs::Lines::lines))]
fn put_else(
    alloc: Global,
    page: &mut Page,
    indent: &Indent,
    last: &Option<Items<Stmt>>,
) -> Result<(), AllocError>
    ensures { OnOk result (page.new.text ≡ page.old.text ++ lines_text (else_lines indent.now (else_block last.now))) }
{
    let Some(body) = last else {
        return Ok(());
    };
    put_else_line(alloc, page, indent)?;
    put_inner(alloc, page, indent, body.as_slice())
}
