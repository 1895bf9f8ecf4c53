ghost use Rattle.std.specs.Prelude.{◌≡◌, ◌≤◌, ℕ, decimal, IfOk, IfErr};

use crate::fault::WordsFault;
use std::alloc::Global;

/// Reads a number from `least` to `most`. It is written as numbers are printed: no sign, and no zero before other digits.
pub(crate) fn number_in(alloc: Global, text: &str, least: u64, most: u64) -> Result<u64, WordsFault>
    ensures number { IfOk result (λ n. (least ≤ n) × (n ≤ most) × (text.now ≡ decimal n)) }
    ensures usage { IfErr result (λ e. e ≡ WordsFault.Usage → (n : ℕ) → least ≤ n → n ≤ most → text.now ≡ decimal n → ⊥) }
{
    let Ok(n) = text.parse::<u64>() else {
        return Err(WordsFault::Usage);
    };
    let printed = format!(in alloc; "{n}")?;
    if n < least || most < n || printed.as_str() != text {
        return Err(WordsFault::Usage);
    }
    Ok(n)
}
