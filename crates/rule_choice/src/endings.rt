ghost use Rattle.std.specs.Prelude.{◌≡◌};
ghost use Rattle.mono_syntax.specs.StmtView.{block, branches, else_block};
ghost use Rattle.static_types.specs.BodyEnds.{may_end, statement_may_end, branches_may_end, else_may_end};

use mono_syntax::{Branch, Stmt, StmtKind};
use sqlite_items::Items;

/// Whether a statement may end without a return.
#[cycle(endings)]
fn statement_may_end(s: &Stmt) -> bool
    ensures { result ≡ statement_may_end s.now }
{
    match &s.kind {
        StmtKind::Return(_, _) => false,
        StmtKind::If(all, last) => branches_may_end(all.as_slice()) || else_may_end(last),
        _ => true,
    }
}

/// Whether a body may end without a return: its last statement decides.
#[cycle(endings)]
#[tactic(auto, using(mono_syntax::proofs::Parts::parts, crate::proofs::EndLaws::endings))]
pub fn may_end(body: &[Stmt]) -> bool
    ensures { result ≡ may_end (block body.now) }
{
    let mut ends = true;
    for s in body {
        ends = statement_may_end(s);
    }
    ends
}

#[cycle(endings)]
#[tactic(auto, using(mono_syntax::proofs::Parts::parts))]
fn branches_may_end(all: &[Branch]) -> bool
    ensures { result ≡ branches_may_end (branches all.now) }
{
    for branch in all {
        if may_end(branch.body.as_slice()) {
            return true;
        }
    }
    false
}

#[cycle(endings)]
fn else_may_end(last: &Option<Items<Stmt>>) -> bool
    ensures { result ≡ else_may_end (else_block last.now) }
{
    match last {
        Some(body) => may_end(body.as_slice()),
        None => true,
    }
}
