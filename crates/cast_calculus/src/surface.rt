ghost use Rattle.std.specs.Prelude.{◌≡◌, IfOk};
ghost use Rattle.mono_tree.specs.TypedPrograms.{IsTypedProgram};
ghost use Rattle.cast_machine.specs.Step.{is_runnable, picked, observed};
ghost use Rattle.cast_machine.specs.Typing.{IsWellTyped};
ghost use Rattle.cast_calculus.specs.computed.Runnable.{can_step};

use crate::config::Config;
use cast_machine::Observation;
use mono_syntax::CastScript;
use std::alloc::{AllocError, Global};

/// Whether a thread has a step: it is there, isn't over, and doesn't wait for another thread.
#[tactic(auto, using(crate::proofs::Able::step_same))]
pub fn runnable(c: &Config, thread: u32) -> bool
    ensures can { result ≡ can_step c.now thread }

    // In every configuration of a run of a well-typed script that is to have a step.
    ensures steps { (p : CastScript) → IsTypedProgram p → IsWellTyped p c.now → result ≡ is_runnable p c.now thread }
{
    c.can_step(thread)
}

/// The configuration after one step of a thread. For a thread without a step it is the same configuration.
pub fn step(
    alloc: Global,
    script: &CastScript,
    c: &Config,
    thread: u32,
) -> Result<Config, AllocError>
    ensures { IfOk result (λ n. n ≡ picked script.now c.now thread) }
{
    let copy = c.copied(alloc)?;
    match copy.stepped(alloc, script, thread as usize)? {
        Some(next) => Ok(next),
        None => c.copied(alloc),
    }
}

/// The printed lines, and the end once it is recorded.
pub fn observe(c: &Config) -> &Observation
    ensures { result.now ≡ observed c.now }
{
    c.observation()
}
