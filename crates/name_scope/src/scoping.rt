ghost use Rattle.std.specs.Prelude.{◌≡◌, IfOk, IfErr, IsOkUnless, MatchOption};
ghost use Rattle.mono_syntax.specs.declared.refusal.Refusal.{Refusal};
ghost use Rattle.script_rules.specs.Scoping.{class_list, IsScope};
ghost use Rattle.script_rules.specs.FirstFault.{IsFirst, IsFaultless};
ghost use Rattle.class_types.specs.Holds.{Holds};
ghost use Rattle.name_scope.specs.computed.FoundFaults.{first_of_both};
ghost use Rattle.script_rules.specs.LoadFaults.{IsFault, Refuses};
ghost use Rattle.script_rules.specs.ScopeFaults.{ScopeFault, IsRight, IsScopeRefusal, IsAnswer};
ghost use Rattle.name_scope.specs.computed.Typing.{HasTypes};

use crate::blocks::{TypedFunctions, main_scope, typed_functions};
use crate::faults::name_refusal;
use class_types::{ClassTypes, class_types, recursive_fault, size_refusal, sooner};
use mono_list::Shared;
use mono_syntax::{LoadFault, Refusal, Scoped, Script};
use std::alloc::{AllocError, Global};

/// The first of two faults, where there are any.
fn first_of_both(a: Option<Refusal>, b: Option<Refusal>) -> Option<Refusal>
    ensures { result ≡ first_of_both a b }
{
    match b {
        Some(r) => sooner(a, r),
        None => a,
    }
}

/// The first fault of names or classes.
fn first_refusal(alloc: Global, script: &Script) -> Result<Option<Refusal>, AllocError>
    ensures { IfOk result (λ r. MatchOption r (IsFaultless (ScopeFault script.now)) (IsFirst (ScopeFault script.now))) }
{
    let names = name_refusal(alloc, script)?;
    let classes = recursive_fault(alloc, script)?;
    let first = first_of_both(names, classes);
    Ok(first)
}

/// What the script is refused for, if for anything.
fn script_refusal(alloc: Global, script: &Script) -> Result<Option<Refusal>, AllocError>
    ensures { IfOk result (λ r. MatchOption r (IsRight script.now) (IsScopeRefusal script.now)) }
{
    let first = first_refusal(alloc, script)?;
    match first {
        Some(r) => Ok(Some(r)),
        None => {
            let size = size_refusal(alloc, script)?;
            Ok(size)
        }
    }
}

/// The script with the types of its names, from the types of its classes.
fn with_types(alloc: Global, script: &Script, known: ClassTypes) -> Result<Scoped, AllocError>
    requires holds { Holds known }
    requires same { known.script ≡ script.now }
    requires typed { HasTypes script.now }
    ensures { IfOk result (IsScope script.now) }
{
    let items = script.items.get().as_slice();
    let state = typed_functions(alloc, known, items)?;
    let TypedFunctions {
        known,
        types: functions,
        mut blocks,
    } = state;
    let (main, known) = main_scope(alloc, known, items)?;
    blocks.push(main)?;
    let items = script.items.share()?;
    let script = Shared::new(alloc, Script { items })?;
    let ClassTypes { types, classes, .. } = known;
    let types = types.shared(alloc)?;
    Ok(Scoped {
        script,
        types,
        classes,
        functions,
        blocks,
    })
}

/// The script with the types of its names.
fn typed_script(alloc: Global, script: &Script) -> Result<Scoped, AllocError>
    requires { IsFaultless (ScopeFault script.now) }
    ensures { IfOk result (IsScope script.now) }
{
    let known = class_types(alloc, script)?;
    match known {
        Some(known) => with_types(alloc, script, known),
        None => unreachable!(),
    }
}

fn answer(alloc: Global, script: &Script) -> Result<Scoped, LoadFault>
    ensures { IsAnswer script.now result }
{
    let refusal = script_refusal(alloc, script)?;
    match refusal {
        Some(r) => Err(LoadFault::Refused(r)),
        None => {
            let scoped = typed_script(alloc, script)?;
            Ok(scoped)
        }
    }
}

/// The script with the types of its classes, functions and names, or its first refusal. It is refused for the first
/// fault of names by place, a class that leads back to itself among them; where there is none, for the first of size.
#[tactic(auto, using(crate::proofs::Answers::answers))]
pub fn scope(alloc: Global, script: &Script) -> Result<Scoped, LoadFault>
    ensures accepted { IfOk result (IsScope script.now) }
    ensures right { IfOk result (λ _. IsRight script.now) }
    ensures refused { IfErr result (IsFault (IsScopeRefusal script.now)) }

    // What the rules accept is accepted, and what they refuse is refused so, unless there is no memory.
    ensures accepts { IsRight script.now → IsOkUnless result LoadFault.Memory }
    ensures refuses { (r : Refusal) → IsScopeRefusal script.now r → Refuses result r }
{
    answer(alloc, script)
}
