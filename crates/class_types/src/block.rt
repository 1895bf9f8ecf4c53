ghost use Rattle.std.specs.Prelude.{◌≡◌, ◌++◌, List, [], map, length, slice_get, IfOk};
ghost use Rattle.mono_syntax.specs.declared.leaf.Word.{Word};
ghost use Rattle.mono_syntax.specs.Limits.{most_names};
ghost use Rattle.mono_syntax.specs.StmtView.{block, branches, else_block};
ghost use Rattle.class_types.specs.computed.FoundFaults.{first_from, name_fault};
ghost use Rattle.class_types.specs.computed.NewNames.{known, new_words};
ghost use Rattle.script_rules.specs.SourceParts.{bound, block_bound, branch_bound, else_bound, body_bound, block_names};
ghost use Rattle.script_rules.specs.Definitions.{statements_of};

use crate::first::sooner;
use mono_syntax::{
    Branch, FuncDef, Item, MOST_NAMES, Name, Param, Reason, Refusal, Stmt, StmtKind, Word,
};
use name_places::NamePlaces;
use sqlite_items::Items;
use std::alloc::{AllocError, Global};

/// The words so far, and those that a statement assigns or starts.
#[cycle(bound)]
#[tactic(auto, using(crate::proofs::BlockLaws::bound_steps))]
fn bound<'a>(mut words: Vec<&'a Word>, s: &'a Stmt) -> Result<Vec<&'a Word>, AllocError>
    ensures { IfOk result (λ r. map (λ w. w.now) r.items ≡ map (λ w. w.now) words.entry.items ++ bound s.now) }
{
    match &s.kind {
        StmtKind::Assign(word, _, _) | StmtKind::Start(word, _, _, _) => {
            words.push(word)?;
            Ok(words)
        }
        StmtKind::If(list, last) => {
            let words = bound_in_branches(words, list.as_slice())?;
            bound_in_else(words, last)
        }
        StmtKind::While(_, body) => bound_in_block(words, body.as_slice()),
        _ => Ok(words),
    }
}

#[cycle(bound)]
#[tactic(auto, using(mono_syntax::proofs::Parts::parts))]
fn bound_in_block<'a>(words: Vec<&'a Word>, list: &'a [Stmt]) -> Result<Vec<&'a Word>, AllocError>
    ensures { IfOk result (λ r. map (λ w. w.now) r.items ≡ map (λ w. w.now) words.entry.items ++ block_bound (block list.now)) }
{
    let mut words = words;
    for s in list {
        words = bound(words, s)?;
    }
    Ok(words)
}

#[cycle(bound)]
#[tactic(auto, using(mono_syntax::proofs::Parts::parts))]
fn bound_in_branches<'a>(
    words: Vec<&'a Word>,
    list: &'a [Branch],
) -> Result<Vec<&'a Word>, AllocError>
    ensures { IfOk result (λ r. map (λ w. w.now) r.items ≡ map (λ w. w.now) words.entry.items ++ branch_bound (branches list.now)) }
{
    let mut words = words;
    for branch in list {
        words = bound_in_block(words, branch.body.as_slice())?;
    }
    Ok(words)
}

#[cycle(bound)]
#[tactic(auto, using(crate::proofs::BlockLaws::bound_steps))]
fn bound_in_else<'a>(
    words: Vec<&'a Word>,
    last: &'a Option<Items<Stmt>>,
) -> Result<Vec<&'a Word>, AllocError>
    ensures { IfOk result (λ r. map (λ w. w.now) r.items ≡ map (λ w. w.now) words.entry.items ++ else_bound (else_block last.now)) }
{
    match last {
        Some(body) => bound_in_block(words, body.as_slice()),
        None => Ok(words),
    }
}

/// The words so far, and those that the main block assigns or starts.
fn bound_in_main<'a>(words: Vec<&'a Word>, items: &'a [Item]) -> Result<Vec<&'a Word>, AllocError>
    ensures { IfOk result (λ r. map (λ w. w.now) r.items ≡ map (λ w. w.now) words.entry.items ++ body_bound (statements_of items.now)) }
{
    let mut words = words;
    for item in items {
        if let Item::Stmt(s) = item {
            words = bound(words, s)?;
        }
    }
    Ok(words)
}

/// The words so far, and the names of parameters.
fn named<'a>(mut words: Vec<&'a Word>, params: &'a [Param]) -> Result<Vec<&'a Word>, AllocError>
    ensures { IfOk result (λ r. map (λ w. w.now) r.items ≡ map (λ w. w.now) words.entry.items ++ map (λ p. p.name) params.now) }
{
    for param in params {
        words.push(&param.name)?;
    }
    Ok(words)
}

fn is_known(names: &NamePlaces, name: &Name) -> bool
    ensures { (words : List Word) → names.now ≡ map (λ w. w.text) words → result ≡ known words name.now }
{
    names.place(name).is_some()
}

/// A block has over 4,096 names: the next one.
fn crowded(
    alloc: Global,
    so_far: Option<Refusal>,
    words: &[&Word],
) -> Result<Option<Refusal>, AllocError>
    ensures { IfOk result (λ r. r ≡ first_from so_far (name_fault (slice_get (new_words [] (map (λ w. w.now) words.now)) most_names))) }
{
    let mut seen = Vec::new(alloc);
    let mut names = NamePlaces::new(alloc);
    for word in words {
        if is_known(&names, &word.text) {
            continue;
        }
        if seen.len() == MOST_NAMES {
            let (place, reason) = (word.place, Reason::TooManyNames);
            return Ok(sooner(so_far, Refusal { place, reason }));
        }
        seen.push(*word)?;
        names = names.push(alloc, &word.text)?;
    }
    Ok(so_far)
}

/// The main block has over 4,096 names.
pub fn main_faults(
    alloc: Global,
    so_far: Option<Refusal>,
    items: &[Item],
) -> Result<Option<Refusal>, AllocError>
    ensures { IfOk result (λ r. r ≡ first_from so_far (name_fault (slice_get (block_names [] (statements_of items.now)) most_names))) }
{
    let words = bound_in_main(Vec::new(alloc), items)?;
    crowded(alloc, so_far, words.as_slice())
}

/// A function's block has over 4,096 names.
pub fn names_faults(
    alloc: Global,
    so_far: Option<Refusal>,
    function: &FuncDef,
) -> Result<Option<Refusal>, AllocError>
    ensures { IfOk result (λ r. r ≡ first_from so_far (name_fault (slice_get (block_names function.now.params function.now.body) most_names))) }
{
    let params = named(Vec::new(alloc), function.params.as_slice())?;
    let words = bound_in_body(params, function.body.as_slice())?;
    crowded(alloc, so_far, words.as_slice())
}

/// The words so far, and those that a function's body assigns or starts.
fn bound_in_body<'a>(words: Vec<&'a Word>, body: &'a [Stmt]) -> Result<Vec<&'a Word>, AllocError>
    ensures { IfOk result (λ r. map (λ w. w.now) r.items ≡ map (λ w. w.now) words.entry.items ++ body_bound body.now) }
{
    let mut words = words;
    for s in body {
        words = bound(words, s)?;
    }
    Ok(words)
}
