ghost use Rattle.std.specs.Prelude.{◌≡◌, List, [], ◌∷◌, ◌++◌, map, IfOk};
ghost use Rattle.mono_syntax.specs.Ty.{Ty};
ghost use Rattle.script_rules.specs.BlockNames as rules;
ghost use Rattle.script_rules.specs.BlockNames.{firsts};
ghost use Rattle.script_rules.specs.Scoping.{class_list, StandsAt, NamesStand};
ghost use Rattle.script_rules.specs.Writes.{WritesAny};
ghost use Rattle.class_types.specs.declared.table.ClassTypes.{ClassTypes};
ghost use Rattle.class_types.specs.Holds.{Holds, Extends};
ghost use Rattle.name_scope.specs.computed.Bound.{target_of};
ghost use Rattle.name_scope.specs.computed.Typing.{EachWrites, NamesTyped};

use crate::bound::Target;
use crate::table::NameTable;
use class_types::{ClassTypes, written_any};
use mono_syntax::{Ann, TyAt, TypedName};
use script_rules::{Occurrence, Role};
use sqlite_items::Items;
use std::alloc::{AllocError, Global};

/// The position of the type that an annotation writes.
fn written_type(
    alloc: Global,
    known: ClassTypes,
    ann: &Option<Ann>,
) -> Result<(TyAt, ClassTypes), AllocError>
    requires holds { Holds known }
    requires writes { (x : Ty) × WritesAny (class_list known.script) ann.now x }
    ensures found { IfOk result (λ r. StandsAt r.1.types r.0 (WritesAny (class_list known.script) ann.now)) }
    ensures keeps { IfOk result (λ r. Extends known r.1) }
{
    let (at, known) = written_any(alloc, known, ann)?;
    match at {
        Some(at) => Ok((at, known)),
        None => unreachable!(),
    }
}

/// The names of a block with their types so far.
#[derive(Drop)]
pub(crate) struct TypedNames {
    pub(crate) known: ClassTypes,
    pub(crate) names: Items<TypedName>,
    pub(crate) seen: NameTable,
}

/// Takes one more target.
fn with_target(alloc: Global, state: TypedNames, t: &Target<'_>) -> Result<TypedNames, AllocError>
    requires holds { Holds state.known }
    requires writes { (x : Ty) × WritesAny (class_list state.known.script) (target_of t.now).ann x }
    ensures { IfOk result (λ r. (first : ClassTypes) (ts : List rules.Target) → NamesTyped first ts state → NamesTyped first (ts ++ target_of t.now ∷ []) r) }
{
    if state.seen.roles(&t.word.text).name {
        return Ok(state);
    }
    let TypedNames {
        known,
        mut names,
        mut seen,
    } = state;
    let (ty, known) = written_type(alloc, known, t.ann)?;
    let name = t.word.text.share()?;
    names.push(TypedName { name, ty })?;
    let o = Occurrence::new(Role::Assigned, t.word)?;
    seen.note(alloc, &o)?;
    Ok(TypedNames { known, names, seen })
}

/// The names of the targets, each at its first, with their types.
pub(crate) fn typed_names(
    alloc: Global,
    known: ClassTypes,
    targets: &[Target<'_>],
) -> Result<(Items<TypedName>, ClassTypes), AllocError>
    requires holds { Holds known }
    requires writes { EachWrites (class_list known.script) (map target_of targets.now) }
    ensures stand { IfOk result (λ r. NamesStand (class_list known.script) r.1.types (firsts (map target_of targets.now)) r.0) }
    ensures keeps { IfOk result (λ r. Extends known r.1) }
{
    let names = Items::new(alloc);
    let seen = NameTable::new(alloc);
    let mut state = TypedNames { known, names, seen };
    for t in targets {
        state = with_target(alloc, state, t)?;
    }
    let TypedNames { known, names, seen } = state;
    drop(seen);
    Ok((names, known))
}
