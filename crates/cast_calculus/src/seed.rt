ghost use Rattle.std.specs.Prelude.{◌≡◌, ◌<◌, IfOk, None};
ghost use Rattle.mono_tree.specs.TypedPrograms.{IsTypedProgram};
ghost use Rattle.cast_machine.specs.Step.{next_seed, pick, start_of};
ghost use Rattle.cast_machine.specs.computed.Seeded.{seeded_thread, picked_at};
ghost use Rattle.cast_machine.specs.Typing.{IsWellTyped};
ghost use Rattle.cast_calculus.specs.computed.Runnable.{able_threads};
ghost use Rattle.cast_calculus.specs.SeededEnds.{EndsBySeed};

use crate::config::Config;
use mono_syntax::{CastScript, MOST_THREADS};
use std::alloc::{AllocError, Global};

/// The seed behind a seed: the linear congruence of Knuth's MMIX, in 64 bits.
#[tactic(auto, unfolding(cast_machine::specs::Step::next_seed))]
pub fn next_seed(s: u64) -> u64
    ensures { result ≡ next_seed s }
{
    s.wrapping_mul(6364136223846793005)
        .wrapping_add(1442695040888963407)
}

/// The place that a seed picks among r.
#[tactic(auto, unfolding(cast_machine::specs::Step::pick))]
pub fn pick(s: u64, r: u32) -> u32
    requires { 0 < r }
    ensures { result ≡ pick s r }
{
    ((s >> 33) % r as u64) as u32
}

/// The same for a count of threads in 64 bits.
#[tactic(auto, unfolding(cast_machine::specs::Step::pick))]
fn place(s: u64, r: u64) -> u64
    requires { 0 < r }
    ensures { result ≡ pick s r }
{
    (s >> 33) % r
}

impl Config {
    /// The step of the thread that a seed picks.
    #[tactic(auto, using(crate::proofs::Seeding::seeding))]
    fn pick_by(self, alloc: Global, script: &CastScript, seed: u64) -> Result<Config, AllocError>
        requires program { IsTypedProgram script.now }
        requires typed { IsWellTyped script.now self }
        requires runs { self.end ≡ None }
        ensures { IfOk result (λ c. c ≡ picked_at script.now self (seeded_thread script.now self seed)) }
    {
        let able = self.able_count();
        let at = self.able_at(place(seed, able));
        match at {
            None => unreachable!(),
            Some(t) => match self.stepped(alloc, script, t)? {
                None => unreachable!(),
                Some(next) => Ok(next),
            },
        }
    }

    /// The run from here on in the order of a seed, to its end.
    #[tactic(auto, using(crate::proofs::Seeding::turns))]
    pub fn run_by_seed(
        self,
        alloc: Global,
        script: &CastScript,
        seed: u64,
    ) -> Result<Config, AllocError>
        requires program { IsTypedProgram script.now }
        requires starts { self ≡ start_of script.now self.settings }
        ensures { IfOk result (λ c. EndsBySeed script.now self seed c) }
    {
        let turns = MOST_THREADS as u64 * (self.fuel() + 2);
        let mut config = self;
        let mut now = seed;
        for _turn in 0..turns {
            if config.has_end() {
                return Ok(config);
            }
            now = next_seed(now);
            config = config.pick_by(alloc, script, now)?;
        }
        Ok(config)
    }
}
