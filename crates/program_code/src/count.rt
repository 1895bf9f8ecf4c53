ghost use Rattle.std.specs.Prelude.{◌≡◌, IfOk, IfErr, Err};
ghost use Rattle.mono_syntax.specs.declared.refusal.LoadFault.TheVariants.{Refused};
ghost use Rattle.mono_syntax.specs.declared.refusal.Refusal.{Refusal};
ghost use Rattle.program_code.specs.Counts.{IsTooMany, AreFew, at_start};
ghost use Rattle.script_rules.specs.LoadFaults.{IsFault};

use mono_syntax::{CastScript, LoadFault, Place, Reason, Refusal};

/// The functions of a script, at most.
pub const MOST_FUNCTIONS: usize = 4_095;

/// The classes of a script, at most.
pub const MOST_CLASSES: usize = 1_023;

/// The sites of a script, at most.
pub const MOST_SITES: usize = 1_048_576;

fn too_many(reason: Reason) -> LoadFault
    ensures { result ≡ Refused (at_start reason) }
{
    let place = Place { line: 1, column: 1 };
    LoadFault::Refused(Refusal { place, reason })
}

/// That there are as few functions, classes and sites as there are numbers for.
pub(crate) fn counted(script: &CastScript) -> Result<(), LoadFault>
    ensures few { IfOk result (λ _. AreFew script.now) }
    ensures refused { IfErr result (IsFault (IsTooMany script.now)) }
    ensures refuses { (r : Refusal) → IsTooMany script.now r → result ≡ Err (Refused r) }
{
    if script.functions.len() > MOST_FUNCTIONS {
        return Err(too_many(Reason::TooManyFunctions));
    }
    if script.classes.len() > MOST_CLASSES {
        return Err(too_many(Reason::TooManyClasses));
    }
    if script.sites.len() > MOST_SITES {
        return Err(too_many(Reason::TooManySites));
    }
    Ok(())
}
