//! What holds of statements and of reports that answer a script. The functions do nothing: their contracts are laws.

ghost use Rattle.std.specs.Prelude.{ℕ, ◌≡◌, [], ◌++◌, List};
ghost use Rattle.path_algebra.specs.Allowed.{IsAllowed};
ghost use Rattle.script_types.specs.declared.Script.{Script};
ghost use Rattle.script_types.specs.declared.Statement.{Statement};
ghost use Rattle.report_types.specs.declared.claims.Record.{Record};
ghost use Rattle.report_types.specs.declared.reports.Report.{Report};
ghost use Rattle.report_types.specs.declared.reports.Why.{Why};
ghost use Rattle.report_types.specs.declared.reports.End.TheVariants.{Done, Refused};
ghost use Rattle.script_answers.specs.Settings.{Setting};
ghost use Rattle.script_answers.specs.Taken.{IsTaken, IsRefused};
ghost use Rattle.script_answers.specs.Answers.{HasFewPaths, AnswersScript, BeginsToAnswer, IsUnrefused, RefusesStatement};

/// A statement that is taken with some records is not refused, neither at once nor behind some of them.
pub fn taken_is_not_refused()
    ensures { (at : Setting) (s : Statement) (records shown rest : List Record) (w : Why) → IsTaken at s records → records ≡ shown ++ rest
        → IsRefused at s shown w → ⊥ }
{}

/// Behind given records, or at once, a statement is refused for one reason.
pub fn one_refusal()
    ensures { (at : Setting) (s : Statement) (records : List Record) (v w : Why) → IsAllowed at.header → IsRefused at s records v → IsRefused at s records w → v ≡ w }
{}

/// The records of a report that answers a script have begun to answer it, and so has each front of them.
pub fn fronts_begin()
    ensures { (script : Script) (report : Report) (front rest : List Record) → AnswersScript script report → report.records ≡ front ++ rest
        → BeginsToAnswer script front }
{}

/// Where at most 4,096 paths are shorter than the bound, nothing but a statement is refused. So of a script without statements nothing is: a
/// report that answers it ends with Done. And only where there are so few paths does a report end so.
pub fn only_statements_are_refused()
    ensures statement { (script : Script) (report : Report) (line : ℕ) (w : Why) → HasFewPaths script → AnswersScript script report → report.end ≡ Refused line w
        → RefusesStatement script line w }
    ensures done { (script : Script) (report : Report) → HasFewPaths script → script.statements ≡ [] → AnswersScript script report → report.end ≡ Done }
    ensures few { (script : Script) (report : Report) → AnswersScript script report → report.end ≡ Done → HasFewPaths script }
{}

/// Where a statement is refused, some statement meets a refusal over the records that were made. Of a script without statements none does.
pub fn refusals_are_met()
    ensures met { (script : Script) (report : Report) (line : ℕ) (w : Why) → HasFewPaths script → AnswersScript script report → report.end ≡ Refused line w
        → IsUnrefused script report.records → ⊥ }
    ensures none { (script : Script) (records : List Record) → script.statements ≡ [] → IsUnrefused script records }
{}
