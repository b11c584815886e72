//! What holds of answers. The functions do nothing: their contracts are laws.
ghost use Rattle.std.specs.Prelude.{ℕ, ◌≡◌, List, []};
ghost use Rattle.script_types.specs.declared.Script.{Script};
ghost use Rattle.script_lang.specs.Scripts.{IsScript};
ghost use Rattle.script_answers.specs.Answers.{HasFewPaths};
ghost use Rattle.top_call.specs.declared.outcome.Outcome.{Outcome};
ghost use Rattle.top_call.specs.declared.outcome.Outcome.TheVariants.{Done};
ghost use Rattle.top_call.specs.declared.modes.Mode.TheVariants.{Run, Check};
ghost use Rattle.top_call.specs.Answers.{Answers};
ghost use Rattle.top_call.specs.Expected.{IsGood};

/// What `run` writes with Done is a report that `check` accepts, where it is not too long: it is read as a report, and the conditions hold of all its claims.
pub fn written_reports_are_accepted()
    ensures { (input text : List ℕ) → Answers Run Done input text → IsGood Check text }
{}

/// Of a script without statements, with at most 4,096 paths shorter than its bound, nothing is refused.
pub fn scripts_without_statements_are_good()
    ensures { (input : List ℕ) (script : Script) → IsScript input script → HasFewPaths script → script.statements ≡ [] → IsGood Run input }
{}

/// `check` has one answer to an input: however many workers the words ask for, the outcome and the text are the same where there was memory and no fault.
pub fn workers_change_no_answer()
    ensures { (input text other : List ℕ) (o p : Outcome) → Answers Check o input text → Answers Check p input other → (o ≡ p) × (text ≡ other) }
{}
