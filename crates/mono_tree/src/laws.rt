//! What holds of precision and meets whatever the types.
ghost use Rattle.std.specs.Prelude.{◌≡◌, ◌↔◌, ℕ, List, Some, None, Contains, option_and_then};
ghost use Rattle.mono_syntax.specs.Ty.{Ty, dyn};
ghost use Rattle.mono_tree.specs.ClosedList.{IsClosed, IsClosedList, AreDistinct, IsOrdered, with_row};
ghost use Rattle.mono_tree.specs.Meet.{IsMeet, AreApart, meet_of, meet_three};
ghost use Rattle.mono_tree.specs.Precise.{Precise};

/// Precision is a partial order with `Dyn` above every type. Two types with a common lower bound have a meet, which is
/// the greatest one, and meets are commutative, idempotent and associative.
pub fn meet_laws()
    ensures reflexive { (a : Ty) → Precise a a }
    ensures antisymmetric { (a b : Ty) → Precise a b → Precise b a → a ≡ b }
    ensures transitive { (a b c : Ty) → Precise a b → Precise b c → Precise a c }
    ensures top { (a : Ty) → Precise a dyn }

    // The computed `meet`, of which the laws below speak, is the greatest common lower bound.
    ensures greatest { (a b m : Ty) → (meet_of a b ≡ Some m) ↔ IsMeet m a b }
    ensures apart { (a b : Ty) → (meet_of a b ≡ None) ↔ AreApart a b }
    ensures exists { (x a b : Ty) → Precise x a → Precise x b → (m : Ty) × IsMeet m a b }

    ensures commutative { (a b : Ty) → meet_of a b ≡ meet_of b a }
    ensures idempotent { (a : Ty) → meet_of a a ≡ Some a }
    ensures associative { (a b c : Ty) → meet_three a b c ≡ option_and_then (λ m. meet_of a m) (meet_of b c) }

    // All groupings of three types, in all their orders, give one type, or all of them fail.
    ensures swapped { (a b c : Ty) → meet_three a b c ≡ meet_three b a c }
    ensures turned { (a b c : Ty) → meet_three a b c ≡ meet_three b c a }
{}

/// Of given types there is one closed list. It is finite, has each type once, each part of a type before it, and its
/// members are the closed set: the base types, the given types, their parts, and all meets. To close it again adds nothing.
pub fn closed_list_laws()
    ensures exists { (types : List Ty) → (l : List Ty) × IsClosedList types l }
    ensures unique { (types l m : List Ty) → IsClosedList types l → IsClosedList types m → l ≡ m }
    ensures distinct { (types l : List Ty) → IsClosedList types l → AreDistinct l }
    ensures ordered { (types l : List Ty) → IsClosedList types l → IsOrdered l }
    ensures still { (types l : List Ty) (n : ℕ) → IsClosedList types l → with_row l n ≡ l }
    ensures members { (types l : List Ty) (t : Ty) → IsClosedList types l → (IsClosed types t ↔ Contains l t) }
{}
