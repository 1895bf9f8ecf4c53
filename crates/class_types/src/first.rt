ghost use Rattle.std.specs.Prelude.{◌≡◌, IsTrue, ◌↔◌, Some};
ghost use Rattle.script_rules.specs.FirstFault.{no_later, sooner};

use mono_syntax::{Place, Reason, Refusal};

/// Whether the first fault doesn't come after the second.
pub fn no_later(a: Refusal, b: Refusal) -> bool
    ensures { result ≡ no_later a b }
{
    let (at, other) = (a.place, b.place);
    at.line < other.line
        || (at.line == other.line
            && (at.column < other.column
                || (at.column == other.column && a.reason as u8 <= b.reason as u8)))
}

/// The first of the faults so far and one more.
pub fn sooner(so_far: Option<Refusal>, more: Refusal) -> Option<Refusal>
    ensures { result ≡ sooner so_far more }
{
    match so_far {
        Some(first) if no_later(first, more) => Some(first),
        _ => Some(more),
    }
}
