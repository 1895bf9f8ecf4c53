ghost use Rattle.std.specs.Prelude.{◌≡◌, [], ◌∷◌, ◌++◌, IfOk, OnOk};
ghost use Rattle.cast_machine.specs.Rows.{goes, fails, blames, puts, leaving};

use cast_machine::{Change, End, Frame, Outcome, State, Work};
use mono_list::Stack;
use mono_syntax::Val;
use std::alloc::AllocError;

/// The thread goes on with this frame.
pub fn goes(frame: Frame, below: Stack<Frame>) -> Outcome
    ensures { result ≡ goes frame below }
{
    Outcome::Moves(Change::Same, State::Running(frame, below))
}

/// The thread fails.
pub fn fails(end: End) -> Outcome
    ensures { result ≡ fails end }
{
    Outcome::Moves(Change::Same, State::Failing(end))
}

/// The thread is blamed at a site, which has to be there.
pub fn blames(site: Option<u32>) -> Outcome
    ensures { result ≡ blames site }
{
    match site {
        None => Outcome::NoRow,
        Some(site) => fails(End::Blame(site)),
    }
}

/// A value is put on top.
pub fn puts(value: Val, mut frame: Frame, below: Stack<Frame>) -> Result<Outcome, AllocError>
    ensures { IfOk result (λ o. o ≡ puts value frame below) }
{
    frame.values.push(value)?;
    Ok(goes(frame, below))
}

/// The work that returns the top value.
pub fn push_leaving(work: &mut Stack<Work>, site: Option<u32>) -> Result<(), AllocError>
    ensures { OnOk result (work.new ≡ leaving site ++ work.old) }
{
    work.push(Work::Leave)?;
    if let Some(site) = site {
        work.push(Work::Result(site))?;
    }
    Ok(())
}
