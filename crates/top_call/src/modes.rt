//! What the words behind the program's name ask for.
ghost use Rattle.std.specs.Prelude.{ℕ, ◌≡◌, map, string_bytes, MatchOption, ◌∷◌, []};
ghost use Rattle.top_call.specs.declared.modes.Mode.{Mode};
ghost use Rattle.top_call.specs.Modes.{AsksWith, NameWorkers, NameBoth, mode_name, input_limit};
ghost use Rattle.top_call.specs.Wanted.{IsWanted};

use text_lines::read_numeral;

/// What the program is asked to do.
#[derive(Clone, Copy, Debug, Drop, PartialEq, Eq)]
pub enum Mode {
    /// Read a script, and write its report.
    Run,
    /// Read a report, and write the verdict on it.
    Check,
}

impl Mode {
    /// The most bytes that are read.
    pub(crate) fn input_limit(self) -> u32
        ensures { result ≡ input_limit self }
    {
        match self {
            Mode::Run => 4_194_304,
            Mode::Check => 67_108_864,
        }
    }
}

/// What the words ask for: a mode, and how many workers there may be, from 1 to 16.
#[derive(Clone, Copy, Debug, Drop)]
pub(crate) struct Wanted {
    pub(crate) mode: Mode,
    pub(crate) workers: u32,
}

/// What the words ask for.
pub(crate) fn read_words(words: &[String]) -> Option<Wanted>
    ensures { MatchOption result ((mode : Mode) (k : ℕ) → AsksWith (map string_bytes words.now) mode k → ⊥) (λ w. IsWanted (map string_bytes words.now) w) }
{
    if words.len() == 1 {
        return wanted_alone(words[0].as_str());
    }
    if words.len() != 3 {
        return None;
    }
    wanted_around(words[0].as_str(), words[1].as_str(), words[2].as_str())
}

/// What the name of a mode asks for.
fn wanted_alone(name: &str) -> Option<Wanted>
    ensures { MatchOption result ((mode : Mode) (k : ℕ) → AsksWith (name.now ∷ []) mode k → ⊥) (λ w. IsWanted (name.now ∷ []) w) }
{
    let Some(mode) = mode_of(name) else {
        return None;
    };
    Some(Wanted { mode, workers: 1 })
}

/// What three words ask for: the number of workers stands behind the name of the mode, or before it.
fn wanted_around(first: &str, second: &str, third: &str) -> Option<Wanted>
    ensures { MatchOption result
        ((mode : Mode) (k : ℕ) → AsksWith (first.now ∷ second.now ∷ third.now ∷ []) mode k → ⊥)
        (λ w. IsWanted (first.now ∷ second.now ∷ third.now ∷ []) w) }
{
    if let Some(found) = wanted_of(second, third, first) {
        return Some(found);
    }
    let Some(found) = wanted_of(first, second, third) else {
        return None;
    };
    Some(found)
}

/// What the words for workers and the name of a mode ask for.
fn wanted_of(option: &str, number: &str, name: &str) -> Option<Wanted>
    ensures { MatchOption result
        ((mode : Mode) (k : ℕ) → NameBoth option.now number.now name.now mode k → ⊥)
        (λ w. NameBoth option.now number.now name.now w.mode w.workers) }
{
    let Some(workers) = workers_of(option, number) else {
        return None;
    };
    let Some(mode) = mode_of(name) else {
        return None;
    };
    Some(Wanted { mode, workers })
}

/// The number of workers that two words say.
fn workers_of(option: &str, number: &str) -> Option<u32>
    ensures { MatchOption result ((k : ℕ) → NameWorkers option.now number.now k → ⊥) (λ k. NameWorkers option.now number.now k) }
{
    if option != "--workers" {
        return None;
    }
    let Some(found) = read_numeral(number.as_bytes(), 16) else {
        return None;
    };
    if found == 0 {
        return None;
    }
    Some(found as u32)
}

/// The mode that has this name.
fn mode_of(word: &str) -> Option<Mode>
    ensures { MatchOption result ((mode : Mode) → word.now ≡ mode_name mode → ⊥) (λ mode. word.now ≡ mode_name mode) }
{
    if word == "run" {
        return Some(Mode::Run);
    }
    if word == "check" {
        return Some(Mode::Check);
    }
    None
}
