//! Laws of scripts as texts.
ghost use Rattle.std.specs.Prelude.{ℕ, ◌≡◌, ◌≤◌, ◌⊎◌, List, length};
ghost use Rattle.script_types.specs.declared.Script.{Script};
ghost use Rattle.script_lang.specs.Scripts.{IsScript, IsBadLine};
ghost use Rattle.script_types.specs.Lawful.{IsLawful};

/// A text reads as exactly one script or has exactly one first bad line, and never both.
pub fn texts_are_read_once()
    ensures one { (text : List ℕ) (s t : Script) → IsScript text s → IsScript text t → s ≡ t }
    ensures one_bad { (text : List ℕ) (j k : ℕ) → IsBadLine text j → IsBadLine text k → j ≡ k }
    ensures not_bad { (text : List ℕ) (s : Script) (k : ℕ) → IsScript text s → ¬ IsBadLine text k }
    ensures read_or_bad { (text : List ℕ) → ((s : Script) × IsScript text s) ⊎ ((k : ℕ) × IsBadLine text k) }
{}

/// The script that a text of at most 4,194,304 bytes reads as is lawful: its header is allowed, its statements are such as
/// the grammar allows, and their lines ascend behind those of the header.
pub fn scripts_are_lawful()
    ensures { (text : List ℕ) (s : Script) → length text ≤ 4194304 → IsScript text s → IsLawful s }
{}
