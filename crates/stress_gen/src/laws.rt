ghost use Rattle.std.specs.Prelude.{◌≡◌, ℕ, ◌+◌, ◌*◌, length};
ghost use Rattle.stress_gen.specs.StressText.{stress_lines};

/// A stress script has twelve lines, and seven more for each task.
pub fn line_count()
    ensures { (n : ℕ) → length (stress_lines n) ≡ 12 + 7 * n }
{}
