// Which numbers walks lead to.
ghost use Rattle.std.specs.Prelude.{◌≡◌, ◌↔◌, ◌<◌, ℕ, IfOk, OnOk, length, true};
ghost use Rattle.worklist.specs.Paths.{IsReached};
ghost use Rattle.number_graphs.specs.Graphs.{At, IsGraph, next_of};
ghost use Rattle.number_graphs.specs.Marks.{IsMarking, AreBelow};

use sj_names::NoMemory;
use std::alloc::Global;

/// Whether a walk leads to each number from one of `starts`.
pub fn reached(alloc: Global, next: &[Vec<usize>], starts: &[usize]) -> Result<Vec<bool>, NoMemory>
    requires graph { IsGraph next.now }
    requires starts { AreBelow (length next.now) starts.now }
    ensures count { IfOk result (λ marks. length marks.items ≡ length next.now) }
    ensures reached { IfOk result (λ marks. (number : ℕ) → At marks.items number true ↔ IsReached (next_of next.now) starts.now number) }
{
    let mut marks = vec![in alloc; false; next.len()]?;
    let mut pending = Vec::new(alloc);
    mark_all(starts, &mut marks, &mut pending)?;
    while let Some(number) = pending.pop() {
        mark_all(&next[number], &mut marks, &mut pending)?;
    }
    Ok(marks)
}

// Marks numbers. Those that weren't marked are pending.
fn mark_all(
    numbers: &[usize],
    marks: &mut Vec<bool>,
    pending: &mut Vec<usize>,
) -> Result<(), NoMemory>
    requires { AreBelow (length marks.now.items) numbers.now }
    ensures { OnOk result (IsMarking numbers.now marks.old.items pending.old.items marks.new.items pending.new.items) }
{
    for number in numbers {
        if !marks[*number] {
            marks[*number] = true;
            pending.push(*number)?;
        }
    }
    Ok(())
}
