// What the words ask for.
ghost use Rattle.std.specs.Prelude.{◌≡◌, map, Some, None, Contains, IfOk, IsErrOf};
ghost use Rattle.bench_language.specs.Tasks.{task_of, named_tasks};

use crate::trouble::Trouble;
use std::alloc::Global;

/// What is done with a source that is read.
#[derive(Clone, Copy)]
pub enum Task {
    Print,
    Unroll,
}

// The tasks in the order of their words.
pub fn tasks_of(alloc: Global, words: &[String]) -> Result<Vec<Task>, Trouble>
    ensures tasks { IfOk result (λ tasks. map Some tasks.items ≡ named_tasks words.now) }
    ensures words { IsErrOf result Trouble.Words → Contains (named_tasks words.now) None }
{
    let mut tasks = Vec::new(alloc);
    for word in words {
        let task = task_of(word.as_str()).ok_or(Trouble::Words)?;
        tasks.push(task).map_err(|_| Trouble::Outside)?;
    }
    Ok(tasks)
}

#[tactic(auto, unfolding(crate::specs::Tasks::task_of))]
fn task_of(word: &str) -> Option<Task>
    ensures { result ≡ task_of word.now }
{
    if word == "print" {
        Some(Task::Print)
    } else if word == "unroll" {
        Some(Task::Unroll)
    } else {
        None
    }
}
