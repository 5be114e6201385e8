ghost use Rattle.std.specs.Prelude.{◌≡◌, Some, None, IfSome, IfNone};
ghost use Rattle.zns_program.specs.declared.task.Task.{Task};
ghost use Rattle.text_lines.specs.Decimals.{number_in};
ghost use Rattle.zns_program.specs.Tasks.{AskFor, IsPlain, gen_of, task_named, if_plain};

use crate::word::Word;

/// What the program is asked to do.
#[derive(Clone, Copy, Debug, PartialEq, Eq)]
pub enum Task {
    /// Serve a session in the order of its file.
    One,

    /// Serve each queue of a session with a worker of its own, side by side.
    Run,

    /// Check a result of a session against the definitions, in the order that it names.
    Check,

    /// Show a session as text.
    Show,

    /// Run the script of a host.
    Host,

    /// Serve the session of `count` commands that `number` determines, and sum it up.
    Gen { number: u64, count: u64 },
}

// The task to make a session, if both words are numbers.
fn gen_of(number: &Word, count: &Word) -> Option<Task>
    ensures { result ≡ gen_of (number_in number.now) (number_in count.now) }
{
    let number = number.number()?;
    let count = count.number()?;
    Some(Task::Gen { number, count })
}

/// The task that the words name, if they name one.
pub fn task_of(words: &[Word]) -> Option<Task>
    ensures named { result ≡ task_named words.now }
    ensures some { IfSome result (AskFor words.now) }
    ensures complete { (t : Task) → AskFor words.now t → result ≡ Some t }
{
    match words {
        [word] if word.is("one") => Some(Task::One),
        [word] if word.is("run") => Some(Task::Run),
        [word] if word.is("check") => Some(Task::Check),
        [word] if word.is("show") => Some(Task::Show),
        [word] if word.is("host") => Some(Task::Host),
        [word, number, count] if word.is("gen") => gen_of(number, count),
        _ => None,
    }
}

/// The task that the words name, unless it needs threads.
pub fn plain_task_of(words: &[Word]) -> Option<Task>
    ensures named { result ≡ if_plain (task_named words.now) }
    ensures plain { IfSome result IsPlain }
    ensures some { IfSome result (AskFor words.now) }
    ensures complete { (t : Task) → IsPlain t → AskFor words.now t → result ≡ Some t }
{
    match task_of(words) {
        Some(Task::Run) => None,
        task => task,
    }
}
