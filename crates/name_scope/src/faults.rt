ghost use Rattle.std.specs.Prelude.{◌≡◌, [], ◌∷◌, ◌++◌, flat_map, IfOk, MatchOption};
ghost use Rattle.mono_syntax.specs.StmtView.{block};
ghost use Rattle.script_rules.specs.Definitions.{statements_of};
ghost use Rattle.script_rules.specs.FirstFault.{IsFirst, IsFaultless};
ghost use Rattle.script_rules.specs.Occurrences.{body_of, in_block};
ghost use Rattle.name_scope.specs.computed.FoundFaults.{fault_if, fault_of_both, faults_at, body_faults, first_of_all};
ghost use Rattle.script_rules.specs.NameFaults.{NameFault};
ghost use Rattle.name_scope.specs.computed.Table.{roles_in};

use crate::bodies::{class_names, defined_names, function_names, main_names};
use crate::roles::Roles;
use crate::rules::{defined_at, is_misused, is_twice, is_unknown, later};
use crate::table::{NameTable, table_of};
use class_types::sooner;
use mono_syntax::{Item, Place, Reason, Refusal, Script};
use script_rules::Occurrence;
use std::alloc::{AllocError, Global};

/// Takes a fault in where the test holds.
fn with_fault(first: Option<Refusal>, test: bool, place: Place, reason: Reason) -> Option<Refusal>
    ensures { result ≡ first_of_all first (fault_if test place reason) }
{
    if test {
        sooner(first, Refusal { place, reason })
    } else {
        first
    }
}

/// Takes a fault in where a name of a block is also defined.
fn with_both(first: Option<Refusal>, place: Place, other: Option<Place>) -> Option<Refusal>
    ensures { result ≡ first_of_all first (fault_of_both place other) }
{
    match other {
        Some(q) => with_fault(first, true, later(place, q), Reason::Twice),
        None => first,
    }
}

/// Takes the faults at one occurrence in.
#[tactic(auto, using(crate::proofs::FirstOfAll::firsts))]
fn check_one(
    first: Option<Refusal>,
    o: &Occurrence,
    body: Roles,
    before: Roles,
    script: Roles,
) -> Option<Refusal>
    ensures { result ≡ first_of_all first (faults_at o.now.role o.now.place body before script) }
{
    let (role, place) = (o.role, o.place);
    let first = with_fault(
        first,
        is_unknown(role, body, script),
        place,
        Reason::UnknownName,
    );
    let first = with_fault(first, is_twice(role, before), place, Reason::Twice);
    let first = with_both(first, place, defined_at(role, script));
    with_fault(
        first,
        is_misused(role, body, before, script),
        place,
        Reason::Misused,
    )
}

/// Takes the faults of a part of the script in.
fn check_body(
    alloc: Global,
    script: &NameTable,
    body: &[Occurrence],
    first: Option<Refusal>,
) -> Result<Option<Refusal>, AllocError>
    ensures { IfOk result (λ r. r ≡ first_of_all first (body_faults (roles_in script.now.roles) body.now)) }
{
    let whole = table_of(alloc, body)?;
    let mut before = NameTable::new(alloc);
    let mut found = first;
    for o in body {
        let there = whole.roles(&o.text);
        let so_far = before.roles(&o.text);
        found = check_one(found, o, there, so_far, script.roles(&o.text));
        before.note(alloc, o)?;
    }
    Ok(found)
}

/// Takes the faults of a class's or function's body in.
#[tactic(auto, using(crate::proofs::FirstOfAll::firsts))]
fn check_item(
    alloc: Global,
    script: &NameTable,
    item: &Item,
    first: Option<Refusal>,
) -> Result<Option<Refusal>, AllocError>
    ensures { IfOk result (λ r. r ≡ first_of_all first (flat_map (body_faults (roles_in script.now.roles)) (body_of item.now))) }
{
    match item {
        Item::Class(d) => {
            let names = class_names(alloc, d)?;
            check_body(alloc, script, names.as_slice(), first)
        }
        Item::Def(d) => {
            let names = function_names(alloc, d)?;
            check_body(alloc, script, names.as_slice(), first)
        }
        Item::Stmt(_) => Ok(first),
    }
}

/// Takes the faults of all classes and functions in.
#[tactic(auto, using(crate::proofs::FirstOfAll::firsts))]
fn check_items(
    alloc: Global,
    script: &NameTable,
    items: &[Item],
    first: Option<Refusal>,
) -> Result<Option<Refusal>, AllocError>
    ensures { IfOk result (λ r. r ≡ first_of_all first (flat_map (body_faults (roles_in script.now.roles)) (flat_map body_of items.now))) }
{
    let mut found = first;
    for item in items {
        found = check_item(alloc, script, item, found)?;
    }
    Ok(found)
}

/// The first fault of a script with these definitions and items.
#[tactic(auto, using(crate::proofs::FirstOfAll::firsts))]
fn first_fault(
    alloc: Global,
    known: &NameTable,
    defined: &[Occurrence],
    items: &[Item],
) -> Result<Option<Refusal>, AllocError>
    ensures { IfOk result (λ r. r ≡ first_of_all None (flat_map (body_faults (roles_in known.now.roles)) (defined.now ∷ flat_map body_of items.now ++ in_block (block (statements_of items.now)) ∷ []))) }
{
    let found = check_body(alloc, known, defined, None)?;
    let found = check_items(alloc, known, items, found)?;
    let main = main_names(alloc, items)?;
    check_body(alloc, known, main.as_slice(), found)
}

/// The first fault of the script's names, and none where all of them are right.
pub fn name_refusal(alloc: Global, script: &Script) -> Result<Option<Refusal>, AllocError>
    ensures { IfOk result (λ r. MatchOption r (IsFaultless (NameFault script.now)) (IsFirst (NameFault script.now))) }
{
    let items = script.items.get().as_slice();
    let defined = defined_names(alloc, items)?;
    let definitions = defined.as_slice();
    let known = table_of(alloc, definitions)?;
    let found = first_fault(alloc, &known, definitions, items)?;
    Ok(found)
}
