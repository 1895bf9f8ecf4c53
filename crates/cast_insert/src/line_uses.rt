ghost use Rattle.std.specs.Prelude.{◌≡◌, [], ◌∷◌, IfOk, Some};
ghost use Rattle.std.specs.Option.{option_copied, option_map};
ghost use Rattle.mono_syntax.specs.Ty.{dyn};
ghost use Rattle.mono_tree.specs.TypedPrograms.{type_of_name};
ghost use Rattle.static_types.specs.Members.{all_dyn};
ghost use Rattle.rule_choice.specs.computed.Ruled.{first_rule};
ghost use Rattle.cast_insert.specs.computed.Inserted.{allowed};
ghost use Rattle.cast_insert.specs.computed.Lined.{with_thread, line_use, start_use, use_of};

use crate::states::LineUse;
use known_names::{Local, new_type};
use mono_list::Shared;
use mono_syntax::{LoadFault, NamedType, Place, Stmt, StmtKind, Ty, TyKind, Word};
use rule_choice::{Part, first_member, first_rule};
use sqlite_items::Items;
use static_types::Rule;
use std::alloc::{AllocError, Global};

/// A single part that is used at this type, where nothing is started.
fn one_use(
    alloc: Global,
    ty: Option<Shared<Ty>>,
    local: Local,
) -> Result<Option<LineUse>, AllocError>
    ensures { IfOk result (λ u. u ≡ option_map (λ t. line_use (t ∷ []) local) ty) }
{
    let Some(ty) = ty else {
        return Ok(None);
    };
    let mut asks = Items::new(alloc);
    asks.push(ty)?;
    Ok(Some(LineUse { asks, local }))
}

/// Parts of which any types will do.
fn any_use(alloc: Global, parts: &[Part], local: Local) -> Result<Option<LineUse>, AllocError>
    ensures { IfOk result (λ u. u ≡ Some (line_use (all_dyn parts.now) local)) }
{
    let dynamic = new_type(alloc, TyKind::Dyn)?;
    let mut asks = Items::new(alloc);
    for _ in parts {
        asks.push(dynamic.share()?)?;
    }
    Ok(Some(LineUse { asks, local }))
}

/// An object, and a value that goes to a field of this type.
fn write_use(
    alloc: Global,
    ty: Option<Shared<Ty>>,
    local: Local,
) -> Result<Option<LineUse>, AllocError>
    ensures { IfOk result (λ u. u ≡ option_map (λ t. line_use (dyn ∷ t ∷ []) local) ty) }
{
    let Some(ty) = ty else {
        return Ok(None);
    };
    let mut asks = Items::new(alloc);
    asks.push(new_type(alloc, TyKind::Dyn)?)?;
    asks.push(ty)?;
    Ok(Some(LineUse { asks, local }))
}

/// One more started name.
fn with_thread(
    alloc: Global,
    local: Local,
    word: &Word,
    ty: Shared<Ty>,
) -> Result<Local, AllocError>
    ensures { IfOk result (λ l. l ≡ with_thread local word.now.text ty) }
{
    let Local {
        values,
        threads,
        result,
    } = local;
    let name = word.text.share()?;
    let threads = threads.push(alloc, NamedType { name, ty })?;
    Ok(Local {
        values,
        threads,
        result,
    })
}

/// The rule of a call of the first part with the others, if there is one.
fn call_rule(alloc: Global, bracket: Place, parts: &[Part]) -> Result<Option<Rule>, AllocError>
    ensures { IfOk result (λ rule. rule ≡ allowed (first_rule bracket parts.now)) }
{
    match first_rule(alloc, bracket, parts) {
        Ok(rule) => Ok(Some(rule)),
        Err(LoadFault::Memory) => Err(AllocError),
        Err(LoadFault::Refused(_)) => Ok(None),
    }
}

/// A name is started once, and its thread gives what a call would.
fn start_use(
    alloc: Global,
    local: Local,
    word: &Word,
    bracket: Place,
    parts: &[Part],
) -> Result<Option<LineUse>, AllocError>
    ensures { IfOk result (λ u. u ≡ start_use (type_of_name local.threads word.now.text) local word.now.text bracket parts.now) }
{
    if local.threads.get(&word.text).is_some() {
        return Ok(None);
    }
    let Some(rule) = call_rule(alloc, bracket, parts)? else {
        return Ok(None);
    };
    let local = with_thread(alloc, local, word, rule.gives)?;
    let asks = rule.asks;
    Ok(Some(LineUse { asks, local }))
}

/// The same type, if there is one, for another owner.
pub fn shared_type(ty: &Option<Shared<Ty>>) -> Result<Option<Shared<Ty>>, AllocError>
    ensures { IfOk result (λ copy. copy ≡ ty.now) }
{
    match ty {
        Some(ty) => Ok(Some(ty.share()?)),
        None => Ok(None),
    }
}

fn found_type(ty: Option<&Shared<Ty>>) -> Result<Option<Shared<Ty>>, AllocError>
    ensures { IfOk result (λ copy. copy ≡ option_copied ty.entry) }
{
    match ty {
        Some(ty) => Ok(Some(ty.share()?)),
        None => Ok(None),
    }
}

/// The types at which a statement without blocks uses its parts, and what is known behind it.
pub fn use_of(
    alloc: Global,
    local: Local,
    s: &Stmt,
    parts: &[Part],
) -> Result<Option<LineUse>, AllocError>
    ensures { IfOk result (λ u. u ≡ use_of local s.now parts.now) }
{
    match &s.kind {
        StmtKind::Pass => {
            let asks = Items::new(alloc);
            Ok(Some(LineUse { asks, local }))
        }
        StmtKind::Return(_, _) => {
            let ty = shared_type(&local.result)?;
            one_use(alloc, ty, local)
        }
        StmtKind::Print(_, _) => any_use(alloc, parts, local),
        StmtKind::Assign(word, _, _) => {
            let ty = found_type(local.values.get(&word.text))?;
            one_use(alloc, ty, local)
        }
        StmtKind::Write(_, word, _) => {
            let ty = first_member(alloc, parts, &word.text)?;
            write_use(alloc, ty, local)
        }
        StmtKind::Start(word, bracket, _, _) => start_use(alloc, local, word, *bracket, parts),
        StmtKind::Plain(_) => {
            let ty = new_type(alloc, TyKind::Dyn)?;
            one_use(alloc, Some(ty), local)
        }
        _ => Ok(None),
    }
}
