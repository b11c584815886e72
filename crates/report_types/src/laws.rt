//! What holds of reports. The functions do nothing: their contracts are laws.

ghost use Rattle.std.specs.Prelude.{◌≡◌, ◌<◌, ◌≤◌, ℕ, List, [], ◌∷◌, All, Option, Some, length, take};
ghost use Rattle.fp_linear.specs.Matrix.{PlainMatrix};
ghost use Rattle.quiver_paths.specs.declared.Path.{Path as PathView};
ghost use Rattle.path_algebra.specs.declared.Header.{Header as HeaderView};
ghost use Rattle.path_algebra.specs.declared.rules.Rule.{Rule as RuleView};
ghost use Rattle.path_algebra.specs.declared.rules.Step.{Step as StepView};
ghost use Rattle.path_algebra.specs.Allowed.{IsAllowed};
ghost use Rattle.path_algebra.specs.Words.{AreNormalWords};
ghost use Rattle.module_types.specs.declared.TermRows.{TermRows as Term};
ghost use Rattle.claim_conditions.specs.declared.Clause.{Clause as Name};
ghost use Rattle.claim_conditions.specs.declared.Clause.TheVariants as clause;
ghost use Rattle.claim_conditions.specs.declared.Residue.{Residue as Form};
ghost use Rattle.claim_conditions.specs.Conditions.{AllHold, IsAnswer, names};
ghost use Rattle.claim_conditions.specs.Modules.{Sides, ModuleHolds};
ghost use Rattle.report_types.specs.declared.claims.Claim.TheVariants as claim;
ghost use Rattle.report_types.specs.declared.claims.PartClaim.{PartClaim as Part};
ghost use Rattle.report_types.specs.declared.claims.Record.{Record as RecordView};
ghost use Rattle.report_types.specs.declared.claims.Translation.TheVariants.{Tau, Transpose, Taui};
ghost use Rattle.report_types.specs.declared.reports.Report.{Report as ReportView};
ghost use Rattle.report_types.specs.declared.verdicts.Verdict.{Verdict as VerdictView};
ghost use Rattle.report_types.specs.Numbers.{module_of, map_of, record_of, claim_of, NamesModule, NamesMap, NamesClaim};
ghost use Rattle.report_types.specs.NamedClaims.{IsHomOf, IsResolutionOf, IsLocalOf, hom_in};
ghost use Rattle.report_types.specs.WordDimensions.{printed_words};
ghost use Rattle.report_types.specs.Conditions.{before_claim, claim_conditions, conditions_of};
ghost use Rattle.report_types.specs.Holding.{IsHomomorphism, HoldsOver};
ghost use Rattle.report_types.specs.Lawful.{IsReport};
ghost use Rattle.report_types.specs.Verdicts.{NormalWords, sides_by, ConditionsHold, Holds, IsVerdict, followed_by};

/// Where the conditions hold of claims 1 to k of a report, claim k holds. And then the words that claim 1 prints are the normal words of the header.
pub fn conditions_suffice()
    ensures holds { (report : ReportView) (k : ℕ) → IsReport report → ((j : ℕ) → j ≤ k → ConditionsHold report j) → Holds report k }
    ensures words { (report : ReportView) → IsReport report → 1 ≤ length report.records → ((j : ℕ) → j ≤ 1 → ConditionsHold report j)
        → AreNormalWords report.header (printed_words report.records) }
{}

/// Where a claim holds, each module of its own record is read as one over the algebra, and each map as a homomorphism.
pub fn objects_hold()
    ensures modules { (report : ReportView) (k : ℕ) (r : RecordView) → IsAllowed report.header → Holds report k → record_of report.records k ≡ Some r
        → All (ModuleHolds report.header) r.modules }
    ensures maps { (report : ReportView) (k : ℕ) (r : RecordView) → IsAllowed report.header → Holds report k → record_of report.records k ≡ Some r
        → All (IsHomomorphism report.header (take k report.records)) r.maps }
{}

/// An allowed header has normal words, so nothing is said of nothing; and a report over it has at most one verdict.
pub fn one_verdict()
    ensures words { (h : HeaderView) → IsAllowed h → NormalWords h }
    ensures once { (report : ReportView) (v w : VerdictView) → IsAllowed report.header → IsVerdict report v → IsVerdict report w → v ≡ w }
{}

/// The conditions on a claim, and what it says, are on the records up to its own: more records behind change nothing.
pub fn only_what_stands_before()
    ensures answer_stays { (report : ReportView) (T : Sides report.header) (more : List RecordView) (k : ℕ) → k ≤ length report.records → (r : Option Name)
        → IsAnswer (conditions_of report T k) r → IsAnswer (conditions_of (followed_by report more) T k) r }
    ensures answer_stood { (report : ReportView) (T : Sides report.header) (more : List RecordView) (k : ℕ) → k ≤ length report.records → (r : Option Name)
        → IsAnswer (conditions_of (followed_by report more) T k) r → IsAnswer (conditions_of report T k) r }
    ensures holds_stays { (report : ReportView) (T : Sides report.header) (more : List RecordView) (k : ℕ) → k ≤ length report.records
        → HoldsOver report T k → HoldsOver (followed_by report more) T k }
    ensures holds_stood { (report : ReportView) (T : Sides report.header) (more : List RecordView) (k : ℕ) → k ≤ length report.records
        → HoldsOver (followed_by report more) T k → HoldsOver report T k }
{}

/// The number of an earlier claim, over the records up to a claim, is smaller than that claim's own; and what a number names over these records, a
/// claim, a module or a map, it names in the whole report.
pub fn names_are_earlier()
    ensures claims { (report : ReportView) (k n : ℕ) → NamesClaim (take k report.records) n → n < k }
    ensures same_claim { (report : ReportView) (k n : ℕ) → NamesClaim (take k report.records) n → claim_of (take k report.records) n ≡ claim_of report.records n }
    ensures same_module { (report : ReportView) (k n : ℕ) → NamesModule (take k report.records) n → module_of (take k report.records) n ≡ module_of report.records n }
    ensures same_map { (report : ReportView) (k n : ℕ) → NamesMap (take k report.records) n → map_of (take k report.records) n ≡ map_of report.records n }
{}

/// The conditions by their names in the order in which they are tried: on the basis, on the objects of a record, and on some kinds of claims; those of
/// all kinds are a law of `claim_conditions`.
pub fn names_in_order()
    ensures basis { (h : HeaderView) (T : Sides h) (rs : List RecordView) (words : List PathView) (steps : List StepView) (rules : List RuleView)
        → names (claim_conditions h T rs (claim.Basis words steps rules)) ≡ clause.Step ∷ clause.Rule ∷ clause.Reduced ∷ clause.Words ∷ clause.Action ∷ [] }
    ensures no_objects { (h : HeaderView) (rs : List RecordView) (r : RecordView) (words : List PathView) (steps : List StepView) (rules : List RuleView)
        → names (before_claim h rs r (claim.Basis words steps rules)) ≡ [] }
    ensures objects { (h : HeaderView) (rs : List RecordView) (r : RecordView) (a b : ℕ) (rows : PlainMatrix)
        → names (before_claim h rs r (claim.Hom a b rows)) ≡ clause.Relations ∷ clause.Commutes ∷ [] }
    ensures module_objects { (h : HeaderView) (rs : List RecordView) (r : RecordView) (m : ℕ)
        → names (before_claim h rs r (claim.Module m)) ≡ clause.Relations ∷ clause.Commutes ∷ [] }
    ensures of_module { (h : HeaderView) (T : Sides h) (rs : List RecordView) (m : ℕ) → names (claim_conditions h T rs (claim.Module m)) ≡ [] }
    ensures of_hom { (h : HeaderView) (T : Sides h) (rs : List RecordView) (a b : ℕ) (rows : PlainMatrix)
        → names (claim_conditions h T rs (claim.Hom a b rows)) ≡ clause.Objects ∷ clause.Reduced ∷ clause.Homs ∷ clause.All ∷ [] }
    ensures of_ext { (h : HeaderView) (T : Sides h) (rs : List RecordView) (n a b : ℕ) (rows : PlainMatrix) (c : ℕ)
        → names (claim_conditions h T rs (claim.Ext n a b rows c)) ≡ clause.Objects ∷ clause.Cocycles ∷ clause.Reduced ∷ clause.All ∷ [] }
    ensures of_local { (h : HeaderView) (T : Sides h) (rs : List RecordView) (m c : ℕ) (ideal : PlainMatrix) (power : ℕ) (residue : Form)
        → names (claim_conditions h T rs (claim.Local m c ideal power residue)) ≡ clause.Objects ∷ clause.Nonzero ∷ clause.Ideal ∷ clause.Power ∷ clause.Residue ∷ [] }
{}

/// Some of what `objects` asks of the numbers that claims name: where all conditions hold, the resolution, the Hom claim or the local claim that is named
/// is one of the module that is asked.
pub fn claims_name_what_they_need()
    ensures ext { (h : HeaderView) (T : Sides h) (rs : List RecordView) (n a b : ℕ) (rows : PlainMatrix) (c : ℕ)
        → AllHold (claim_conditions h T rs (claim.Ext n a b rows c)) → IsResolutionOf (claim_of rs c) a }
    ensures tau { (h : HeaderView) (T : Sides h) (rs : List RecordView) (n a c : ℕ) (rows : List PlainMatrix)
        → AllHold (claim_conditions h T rs (claim.Translate Tau n a c rows)) → IsResolutionOf (claim_of rs c) a }
    ensures transpose { (h : HeaderView) (T : Sides h) (rs : List RecordView) (n a c : ℕ) (rows : List PlainMatrix)
        → AllHold (claim_conditions h T rs (claim.Translate Transpose n a c rows)) → IsResolutionOf (claim_of rs c) a }
    ensures taui { (h : HeaderView) (T : Sides h) (rs : List RecordView) (b n a c : ℕ) (rows : List PlainMatrix)
        → AllHold (claim_conditions h T rs (claim.Translate (Taui b) n a c rows)) → IsResolutionOf (claim_of rs c) b }
    ensures local { (h : HeaderView) (T : Sides h) (rs : List RecordView) (m c : ℕ) (ideal : PlainMatrix) (power : ℕ) (residue : Form)
        → AllHold (claim_conditions h T rs (claim.Local m c ideal power residue)) → IsHomOf (claim_of rs c) m m }
    ensures decomposition { (h : HeaderView) (T : Sides h) (rs : List RecordView) (a s f g : ℕ) (parts : List Part)
        → AllHold (claim_conditions h T rs (claim.Decomposition a s f g parts)) → All (λ (p : Part). IsLocalOf (claim_of rs p.local) p.module) parts }
    ensures almost_split { (h : HeaderView) (T : Sides h) (rs : List RecordView) (n e a f g c l : ℕ) (phi : List ℕ) (left middle : List PlainMatrix)
        → AllHold (claim_conditions h T rs (claim.AlmostSplit n e a f g c l phi left middle)) → IsHomOf (claim_of rs (hom_in (claim_of rs l))) a a }
{}
