ghost use Rattle.std.specs.Prelude.{◌≡◌, [], ◌∷◌, ◌++◌, map, flat_map, OnOk, IfOk};
ghost use Rattle.mono_syntax.specs.StmtView.{block, branches, else_block};
ghost use Rattle.script_rules.specs.Definitions.{statements_of};
ghost use Rattle.script_rules.specs.BlockNames.{of_param, all_targets, all_starts, targets, block_targets, branch_targets, else_targets, starts, block_starts, branch_starts, else_starts};
ghost use Rattle.name_scope.specs.computed.Bound.{target_of, text_of};

use mono_syntax::{Ann, Branch, FuncDef, Item, Name, Param, Stmt, StmtKind, Word};
use sqlite_items::Items;
use std::alloc::{AllocError, Global};

/// Where a value gets its name, with its annotation.
#[derive(Drop)]
pub(crate) struct Target<'a> {
    pub(crate) word: &'a Word,
    pub(crate) ann: &'a Option<Ann>,
}

/// The names that a block gives to values and to threads.
#[derive(Drop)]
pub(crate) struct Bound<'a> {
    pub(crate) targets: Vec<Target<'a>>,
    pub(crate) threads: Items<Name>,
}

/// Puts the names that a statement gives.
#[cycle(bound)]
#[tactic(auto, using(crate::proofs::BoundTurns::turns))]
fn put_bound<'a>(list: &mut Bound<'a>, s: &'a Stmt) -> Result<(), AllocError>
    ensures targets { OnOk result (map target_of list.new.targets.items ≡ map target_of list.old.targets.items ++ targets s.now) }
    ensures threads { OnOk result (list.new.threads ≡ list.old.threads ++ map text_of (starts s.now)) }
{
    match &s.kind {
        StmtKind::Assign(word, ann, _) => list.targets.push(Target { word, ann })?,
        StmtKind::Start(word, _, _, _) => list.threads.push(word.text.share()?)?,
        StmtKind::If(all, last) => {
            put_bound_branches(list, all.as_slice())?;
            put_bound_else(list, last)?;
        }
        StmtKind::While(_, body) => put_bound_block(list, body.as_slice())?,
        _ => (),
    }
    Ok(())
}

#[cycle(bound)]
#[tactic(auto, using(crate::proofs::BoundTurns::turns))]
fn put_bound_block<'a>(list: &mut Bound<'a>, body: &'a [Stmt]) -> Result<(), AllocError>
    ensures targets { OnOk result (map target_of list.new.targets.items ≡ map target_of list.old.targets.items ++ block_targets (block body.now)) }
    ensures threads { OnOk result (list.new.threads ≡ list.old.threads ++ map text_of (block_starts (block body.now))) }
{
    for s in body {
        put_bound(list, s)?;
    }
    Ok(())
}

#[cycle(bound)]
#[tactic(auto, using(crate::proofs::BoundTurns::turns))]
fn put_bound_branches<'a>(list: &mut Bound<'a>, all: &'a [Branch]) -> Result<(), AllocError>
    ensures targets { OnOk result (map target_of list.new.targets.items ≡ map target_of list.old.targets.items ++ branch_targets (branches all.now)) }
    ensures threads { OnOk result (list.new.threads ≡ list.old.threads ++ map text_of (branch_starts (branches all.now))) }
{
    for branch in all {
        put_bound_block(list, branch.body.as_slice())?;
    }
    Ok(())
}

#[cycle(bound)]
#[tactic(auto, using(crate::proofs::BoundTurns::turns))]
fn put_bound_else<'a>(list: &mut Bound<'a>, last: &'a Option<Items<Stmt>>) -> Result<(), AllocError>
    ensures targets { OnOk result (map target_of list.new.targets.items ≡ map target_of list.old.targets.items ++ else_targets (else_block last.now)) }
    ensures threads { OnOk result (list.new.threads ≡ list.old.threads ++ map text_of (else_starts (else_block last.now))) }
{
    match last {
        Some(body) => put_bound_block(list, body.as_slice()),
        None => Ok(()),
    }
}

/// The names that a function's parameters and body give.
#[tactic(auto, using(crate::proofs::BoundTurns::blocks))]
pub(crate) fn function_bound<'a>(alloc: Global, d: &'a FuncDef) -> Result<Bound<'a>, AllocError>
    ensures targets { IfOk result (λ b. map target_of b.targets.items ≡ all_targets d.now.params d.now.body) }
    ensures threads { IfOk result (λ b. b.threads ≡ map text_of (all_starts d.now.body)) }
{
    let mut list = Bound {
        targets: Vec::new(alloc),
        threads: Items::new(alloc),
    };
    put_params(&mut list, d.params.as_slice())?;
    put_bound_block(&mut list, d.body.as_slice())?;
    Ok(list)
}

#[tactic(auto, using(crate::proofs::BoundTurns::turns))]
fn put_params<'a>(list: &mut Bound<'a>, params: &'a [Param]) -> Result<(), AllocError>
    ensures targets { OnOk result (map target_of list.new.targets.items ≡ map target_of list.old.targets.items ++ map of_param params.now) }
    ensures threads { OnOk result (list.new.threads ≡ list.old.threads) }
{
    for p in params {
        list.targets.push(Target {
            word: &p.name,
            ann: &p.ann,
        })?;
    }
    Ok(())
}

/// The names that the main block gives.
#[tactic(auto, using(crate::proofs::BoundTurns::blocks))]
pub(crate) fn main_bound<'a>(alloc: Global, items: &'a [Item]) -> Result<Bound<'a>, AllocError>
    ensures targets { IfOk result (λ b. map target_of b.targets.items ≡ all_targets [] (statements_of items.now)) }
    ensures threads { IfOk result (λ b. b.threads ≡ map text_of (all_starts (statements_of items.now))) }
{
    let mut list = Bound {
        targets: Vec::new(alloc),
        threads: Items::new(alloc),
    };
    for item in items {
        put_bound_item(&mut list, item)?;
    }
    Ok(list)
}

#[tactic(auto, using(crate::proofs::BoundTurns::turns))]
fn put_bound_item<'a>(list: &mut Bound<'a>, item: &'a Item) -> Result<(), AllocError>
    ensures targets { OnOk result (map target_of list.new.targets.items ≡ map target_of list.old.targets.items ++ flat_map targets (statements_of (item.now ∷ []))) }
    ensures threads { OnOk result (list.new.threads ≡ list.old.threads ++ map text_of (flat_map starts (statements_of (item.now ∷ [])))) }
{
    match item {
        Item::Stmt(s) => put_bound(list, s),
        Item::Class(_) => Ok(()),
        Item::Def(_) => Ok(()),
    }
}
