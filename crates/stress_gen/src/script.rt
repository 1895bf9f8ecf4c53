ghost use Rattle.std.specs.Prelude.{◌≡◌, ◌≤◌, map, flat_map, IfOk, string_bytes};
ghost use Rattle.stress_gen.specs.StressText.{lines_text, task_lines, start_line, join_line, tasks, stress_text};

use crate::lines::{head, join_line, start_line, task};
use std::alloc::{AllocError, Global};

/// The tasks of a stress script, at most.
pub const MOST_TASKS: u32 = 200;

/// The script that starts this many tasks, adds up what they give and prints the sum.
pub fn script_of(alloc: Global, n: u32) -> Result<String, AllocError>
    requires least { 1 ≤ n }
    requires most { n ≤ MOST_TASKS }
    ensures { IfOk result (λ text. string_bytes text ≡ stress_text n) }
{
    let head = head();
    let tasks = all_tasks(alloc, n)?;
    let starts = all_starts(alloc, n)?;
    let joins = all_joins(alloc, n)?;
    format!(in alloc; "{head}{tasks}total: int = 0\n{starts}{joins}print(total)\n")
}

/// The functions of the tasks.
fn all_tasks(alloc: Global, n: u32) -> Result<String, AllocError>
    ensures { IfOk result (λ text. string_bytes text ≡ lines_text (flat_map task_lines (tasks n))) }
{
    let mut text = String::new(alloc);
    for i in 0..n {
        text.push_str(task(alloc, i + 1)?.as_str())?;
    }
    Ok(text)
}

/// The lines that start them.
fn all_starts(alloc: Global, n: u32) -> Result<String, AllocError>
    ensures { IfOk result (λ text. string_bytes text ≡ lines_text (map start_line (tasks n))) }
{
    let mut text = String::new(alloc);
    for i in 0..n {
        text.push_str(start_line(alloc, i + 1)?.as_str())?;
    }
    Ok(text)
}

/// The lines that wait for them and add up what they give.
fn all_joins(alloc: Global, n: u32) -> Result<String, AllocError>
    ensures { IfOk result (λ text. string_bytes text ≡ lines_text (map join_line (tasks n))) }
{
    let mut text = String::new(alloc);
    for i in 0..n {
        text.push_str(join_line(alloc, i + 1)?.as_str())?;
    }
    Ok(text)
}
