//! The words of the command line.
ghost use Rattle.std.specs.Prelude.{[], ◌∷◌, codes, ◌≡◌, ◌↔◌, ◌≤◌, ◌^◌, ◌<◌, ◌+◌, ◌*◌, List, ℕ, map, string_bytes, IfSome, IsNone};
ghost use Rattle.std.specs.Prelude.{IsTrue, Some, length};
ghost use Rattle.std.specs.List.{All};
ghost use Rattle.shell_answers.specs.Words.{Asks, AsksFor, IsDigit, IsDirectory, NameDirectory, SpellsNumber, mode_of, number_from};
ghost use Rattle.shell_answers.specs.declared.words.Job.{Job as Work};
ghost use Rattle.shell_answers.specs.declared.words.Task.{Task as Duty};

use journal::Mode;

/// A run over the disks whose history is written.
#[derive(Clone, Copy, Debug, PartialEq, Eq)]
pub enum Job {
    /// Runs the script that the source has, and writes its history in this mode.
    Run { mode: Mode },
    /// Runs the script of this number, and writes the summary.
    Gen { number: u64 },
}

/// What the program is to do. Each task has its own definition of what is due.
#[derive(Clone, Copy, Debug, PartialEq, Eq)]
pub enum Task {
    /// A run over the disks whose history is written.
    History { job: Job },
    /// Runs the script of a wire that the source has.
    Wire,
    /// Carries out the script of Ejects that wander that the source has.
    Move,
    /// Carries out the script of pairs of disks that the source has.
    Twin,
}

fn is_directory(word: &[u8]) -> bool
    ensures { IsTrue result ↔ IsDirectory word.now }
{
    match word {
        [] => false,
        [first, ..] => *first != b'-',
    }
}

// The number for which digits stand.
fn value_of(digits: &[u8]) -> u128
    requires few { length digits.now ≤ 20 }
    requires digits { All IsDigit digits.now }
    ensures { result ≡ number_from 0 digits.now }
{
    let mut value = 0;
    for digit in digits {
        value = value * 10 + u128::from(digit - b'0');
    }
    value
}

fn are_digits(word: &[u8]) -> bool
    ensures { IsTrue result ↔ All IsDigit word.now }
{
    word.iter().all(|byte| b'0' <= *byte && *byte <= b'9')
}

// 1 to 20 digits, for a number of 64 bits.
fn number(word: &[u8]) -> Option<u64>
    ensures some { IfSome result (SpellsNumber word.now) }
    ensures none { IsNone result → (n : ℕ) → SpellsNumber word.now n → ⊥ }
{
    if word.is_empty() || word.len() > 20 || !are_digits(word) {
        return None;
    }
    u64::try_from(value_of(word)).ok()
}

const PLAIN: Job = Job::Run { mode: Mode::Plain };

const TRACE: Job = Job::Run { mode: Mode::Trace };

const FULL: Job = Job::Run { mode: Mode::Full };

fn is_word(word: &str, wanted: &str) -> bool
    ensures { IsTrue result ↔ (word.now ≡ wanted.now) }
{
    word == wanted
}

// `run`
fn of_one(one: &str) -> Option<Job>
    ensures some { IfSome result (Asks (one.now ∷ [])) }
    ensures none { IsNone result → (j : Work) → Asks (one.now ∷ []) j → ⊥ }
{
    if is_word(one, "run") {
        Some(PLAIN)
    } else {
        None
    }
}

// `gen N`
fn of_number(word: &str) -> Option<Job>
    ensures some { IfSome result (Asks (codes "gen" ∷ word.now ∷ [])) }
    ensures none { IsNone result → (j : Work) → Asks (codes "gen" ∷ word.now ∷ []) j → ⊥ }
{
    match number(word.as_bytes()) {
        Some(number) => Some(Job::Gen { number }),
        None => None,
    }
}

// `run --trace`, `run --full`
fn of_mode(word: &str) -> Option<Job>
    ensures some { IfSome result (Asks (codes "run" ∷ word.now ∷ [])) }
    ensures none { IsNone result → (j : Work) → Asks (codes "run" ∷ word.now ∷ []) j → ⊥ }
{
    if is_word(word, "--trace") {
        Some(TRACE)
    } else if is_word(word, "--full") {
        Some(FULL)
    } else {
        None
    }
}

// `run --trace`, `run --full`, `host DIR`, `gen N`
fn of_two(one: &str, two: &str) -> Option<Job>
    ensures some { IfSome result (Asks (one.now ∷ two.now ∷ [])) }
    ensures none { IsNone result → (j : Work) → Asks (one.now ∷ two.now ∷ []) j → ⊥ }
{
    if is_word(one, "run") {
        of_mode(two)
    } else if is_word(one, "host") {
        if is_directory(two.as_bytes()) {
            Some(PLAIN)
        } else {
            None
        }
    } else if is_word(one, "gen") {
        of_number(two)
    } else {
        None
    }
}

// `host DIR --trace`
fn of_three(one: &str, two: &str, three: &str) -> Option<Job>
    ensures some { IfSome result (Asks (one.now ∷ two.now ∷ three.now ∷ [])) }
    ensures none { IsNone result → (j : Work) → Asks (one.now ∷ two.now ∷ three.now ∷ []) j → ⊥ }
{
    if is_word(one, "host") {
        if is_word(three, "--trace") {
            if is_directory(two.as_bytes()) {
                Some(TRACE)
            } else {
                None
            }
        } else {
            None
        }
    } else {
        None
    }
}

// What the words of a run ask for; None where they ask for no run.
fn job_of(words: &Vec<String>) -> Option<Job>
    ensures some { IfSome result (Asks (map string_bytes words.now.items)) }
    ensures none { IsNone result → (j : Work) → Asks (map string_bytes words.now.items) j → ⊥ }
{
    match words.as_slice() {
        [one] => of_one(one.as_str()),
        [one, two] => of_two(one.as_str(), two.as_str()),
        [one, two, three] => of_three(one.as_str(), two.as_str(), three.as_str()),
        _ => None,
    }
}

// Whether there is this word alone.
fn is_alone(words: &Vec<String>, wanted: &str) -> bool
    ensures { IsTrue result ↔ (map string_bytes words.now.items ≡ wanted.now ∷ []) }
{
    match words.as_slice() {
        [one] => is_word(one.as_str(), wanted),
        _ => false,
    }
}

// `wire`, `move`, `twin`
fn of_word(words: &Vec<String>) -> Option<Task>
    ensures some { IfSome result (AsksFor (map string_bytes words.now.items)) }
    ensures wire { IsNone result → AsksFor (map string_bytes words.now.items) Task.Wire → ⊥ }
    ensures moves { IsNone result → AsksFor (map string_bytes words.now.items) Task.Move → ⊥ }
    ensures twins { IsNone result → AsksFor (map string_bytes words.now.items) Task.Twin → ⊥ }
{
    if is_alone(words, "wire") {
        Some(Task::Wire)
    } else if is_alone(words, "move") {
        Some(Task::Move)
    } else if is_alone(words, "twin") {
        Some(Task::Twin)
    } else {
        None
    }
}

/// What the words ask for; None where they are no line of words that is known.
pub fn task_of(words: &Vec<String>) -> Option<Task>
    ensures some { IfSome result (AsksFor (map string_bytes words.now.items)) }
    ensures none { IsNone result → (task : Duty) → AsksFor (map string_bytes words.now.items) task → ⊥ }
{
    if let Some(task) = of_word(words) {
        return Some(task);
    }
    match job_of(words) {
        Some(job) => Some(Task::History { job }),
        None => None,
    }
}

/// In which mode the history of a job is written.
pub fn mode_of(job: Job) -> Mode
    ensures { result ≡ mode_of job }
{
    match job {
        Job::Run { mode } => mode,
        Job::Gen { .. } => Mode::Summary,
    }
}

// Whether the words name a directory.
fn is_host(one: &str, two: &str) -> bool
    ensures { IsTrue result ↔ ((one.now ≡ codes "host") × IsDirectory two.now) }
{
    is_word(one, "host") && is_directory(two.as_bytes())
}

/// The directory of a `host` line. By it alone the program decides whether it opens files.
pub fn host_dir(words: &Vec<String>) -> Option<&String>
    ensures some { IfSome result (λ dir. NameDirectory (map string_bytes words.now.items) (string_bytes dir.now)) }
    ensures none { IsNone result → (dir : List ℕ) → NameDirectory (map string_bytes words.now.items) dir → ⊥ }
{
    match words.as_slice() {
        [one, two] if is_host(one.as_str(), two.as_str()) => Some(two),
        [one, two, three]
            if is_host(one.as_str(), two.as_str()) && is_word(three.as_str(), "--trace") => {
            Some(two)
        }
        _ => None,
    }
}
