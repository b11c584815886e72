//! The laws of sums of local modules of which no two are isomorphic. Chapters are those of Assem, Simson, Skowroński, volume 1.

ghost use Rattle.std.specs.Prelude.{◌≡◌, ◌≢◌, ◌<◌, ℕ};
ghost use Rattle.linear_algebra.specs.Field.{Gf};
ghost use Rattle.representations.specs.Quiver.{Quiver};
ghost use Rattle.representations.specs.Rep.{Rep};
ghost use Rattle.representations.specs.Hom.{Hom, ◌≫◌, ◌⊕◌, identity, negative_hom, multiple, zero_hom};
ghost use Rattle.representations.specs.Module.{IsIso, IsNilpotent};
ghost use Rattle.representations.specs.Sum.{sum_family};
ghost use Rattle.local_modules.specs.Local.{IsLocal};
ghost use Rattle.local_modules.specs.Isomorphic.{Isomorphic};
ghost use Rattle.local_modules.specs.RadicalOfSum.{AreLocalAndApart, part, IsRadical, composite_of};

/// An endomorphism of a sum of local modules, no two of them isomorphic, is an isomorphism where its component from each part to itself is.
/// From one part to another and back is nilpotent. (Chapter I, 4.)
pub fn endomorphisms_by_parts()
    ensures pairwise { (q : Gf) (Q : Quiver) (n : ℕ) (Y : ℕ → Rep q Q) → ((k : ℕ) → k < n → IsLocal (Y k))
        → ((k l : ℕ) → k < n → l < n → k ≢ l → Isomorphic (Y k) (Y l) → ⊥) → AreLocalAndApart n Y }
    ensures nilpotent { (q : Gf) (Q : Quiver) (n : ℕ) (Y : ℕ → Rep q Q) → AreLocalAndApart n Y
        → (k l : ℕ) → k < n → l < n → k ≢ l → (f : Hom (Y k) (Y l)) (g : Hom (Y l) (Y k)) → IsNilpotent (f ≫ g) }
    ensures isomorphism { (q : Gf) (Q : Quiver) (n : ℕ) (Y : ℕ → Rep q Q) → AreLocalAndApart n Y
        → (x : Hom (sum_family n Y) (sum_family n Y)) → ((k : ℕ) → k < n → IsIso (part n Y x k k)) → IsIso x }
{}

/// The endomorphisms of such a sum whose components from each part to itself are nilpotent are the radical of the endomorphism ring: they are
/// an ideal, a power of it is zero, the identity less a member is an isomorphism, and each x is a member for which the identity less x ≫ y
/// is an isomorphism whatever y is. (Chapter I, 1 and 4, and appendix, 3.)
pub fn radical_of_a_sum()
    ensures sums { (q : Gf) (Q : Quiver) (n : ℕ) (Y : ℕ → Rep q Q) (C : AreLocalAndApart n Y)
        → (x y : Hom (sum_family n Y) (sum_family n Y)) → IsRadical C x → IsRadical C y → IsRadical C (x ⊕ y) }
    ensures multiples { (q : Gf) (Q : Quiver) (n : ℕ) (Y : ℕ → Rep q Q) (C : AreLocalAndApart n Y)
        → (c : ℕ) (x : Hom (sum_family n Y) (sum_family n Y)) → IsRadical C x → IsRadical C (multiple c x) }
    ensures right { (q : Gf) (Q : Quiver) (n : ℕ) (Y : ℕ → Rep q Q) (C : AreLocalAndApart n Y)
        → (x y : Hom (sum_family n Y) (sum_family n Y)) → IsRadical C x → IsRadical C (x ≫ y) }
    ensures left { (q : Gf) (Q : Quiver) (n : ℕ) (Y : ℕ → Rep q Q) (C : AreLocalAndApart n Y)
        → (y x : Hom (sum_family n Y) (sum_family n Y)) → IsRadical C x → IsRadical C (y ≫ x) }
    ensures power { (q : Gf) (Q : Quiver) (n : ℕ) (Y : ℕ → Rep q Q) (C : AreLocalAndApart n Y)
        → (m : ℕ) × ((h : ℕ → Hom (sum_family n Y) (sum_family n Y)) → ((i : ℕ) → i < m → IsRadical C (h i))
        → composite_of h m ≡ zero_hom (sum_family n Y) (sum_family n Y)) }
    ensures inverses { (q : Gf) (Q : Quiver) (n : ℕ) (Y : ℕ → Rep q Q) (C : AreLocalAndApart n Y)
        → (x : Hom (sum_family n Y) (sum_family n Y)) → IsRadical C x → IsIso (identity (sum_family n Y) ⊕ negative_hom x) }
    ensures all { (q : Gf) (Q : Quiver) (n : ℕ) (Y : ℕ → Rep q Q) (C : AreLocalAndApart n Y)
        → (x : Hom (sum_family n Y) (sum_family n Y))
        → ((y : Hom (sum_family n Y) (sum_family n Y)) → IsIso (identity (sum_family n Y) ⊕ negative_hom (x ≫ y))) → IsRadical C x }
{}
