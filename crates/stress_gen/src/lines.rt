ghost use Rattle.std.specs.Prelude.{◌≡◌, [], ◌∷◌, IfOk, string_bytes};
ghost use Rattle.stress_gen.specs.StressText.{lines_text, head_lines, task_lines, start_line, join_line};

use std::alloc::{AllocError, Global};

/// The lines before the tasks.
pub fn head() -> &'static str
    ensures { result.now ≡ lines_text head_lines }
{
    "\
class Cell:
    n: Dyn
class Num:
    n: int
def bump(c, k: int) -> int:
    i: int = 0
    while i < k:
        c.n = c.n + 1
        i = i + 1
    return i
"
}

/// The function of a task.
pub fn task(alloc: Global, j: u32) -> Result<String, AllocError>
    ensures { IfOk result (λ text. string_bytes text ≡ lines_text (task_lines j)) }
{
    format!(in alloc;
        "\
def task_{j}(k: int) -> int:
    c: Dyn = Cell({j})
    d: Num = cast(Num, c)
    bump(c, k)
    return d.n
"
    )
}

/// The line that starts a task.
pub fn start_line(alloc: Global, j: u32) -> Result<String, AllocError>
    ensures { IfOk result (λ text. string_bytes text ≡ lines_text (start_line j ∷ [])) }
{
    format!(in alloc; "t_{j} = start(task_{j}, 100)\n")
}

/// The line that adds what a task gives.
pub fn join_line(alloc: Global, j: u32) -> Result<String, AllocError>
    ensures { IfOk result (λ text. string_bytes text ≡ lines_text (join_line j ∷ [])) }
{
    format!(in alloc; "total = total + join(t_{j})\n")
}
