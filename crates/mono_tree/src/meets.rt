ghost use Rattle.std.specs.Prelude.{List, IsTrue, ◌↔◌};
ghost use Rattle.mono_syntax.specs.Ty.{Ty};
ghost use Rattle.mono_tree.specs.Precise.{Precise};
ghost use Rattle.mono_tree.specs.TypeNumbers.{IsInRange, Names, IsMeetNumber};

use mono_syntax::TypeNo;

/// Precision and meets of the types of a list, by their numbers. The meet of two types of the list is in the list too.
pub trait Meets {
    ghost types: { Self → List Ty };

    /// The number of the meet of the two types; None where there is none.
    fn meet_no(&self, a: TypeNo, b: TypeNo) -> Option<TypeNo>
        requires first { IsInRange (types self.now) a }
        requires second { IsInRange (types self.now) b }
        ensures meet { (x y : Ty) → Names (types self.now) a x → Names (types self.now) b y → IsMeetNumber (types self.now) result x y };

    /// Whether the first type is at least as precise as the second.
    fn precise_no(&self, a: TypeNo, b: TypeNo) -> bool
        requires first { IsInRange (types self.now) a }
        requires second { IsInRange (types self.now) b }
        ensures precise { (x y : Ty) → Names (types self.now) a x → Names (types self.now) b y → (IsTrue result ↔ Precise x y) };
}
