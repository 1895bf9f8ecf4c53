ghost use Rattle.std.specs.Prelude.{◌≡◌, ◌↔◌, ◌<◌, ◌^◌, ℕ, Some, None};
ghost use Rattle.mono_syntax.specs.declared.value.TypeNo.{TypeNo};
ghost use Rattle.mono_syntax.specs.declared.value.Value.{Value};
ghost use Rattle.field_word.specs.Words.{word_of, Fits, IsWordOf, IsNoWord};
ghost use Rattle.field_word.specs.computed.Unpacked.{unpacked};

/// A pair that fits has a word of 64 bits, which unpacks to the pair. A word that unpacks is its pair's, so no two pairs
/// have one word, and a word that is no pair's unpacks to nothing.
pub fn words_and_pairs()
    ensures small { (t : TypeNo) (v : Value) → Fits t v → word_of t v < 2 ^ 64 }
    ensures unpacks { (t : TypeNo) (v : Value) → Fits t v → unpacked (word_of t v) ≡ Some (t, v) }
    ensures packs { (w : ℕ) (t : TypeNo) (v : Value) → unpacked w ≡ Some (t, v) → IsWordOf t v w }
    ensures one_pair { (w : ℕ) (t u : TypeNo) (v x : Value) → IsWordOf t v w → IsWordOf u x w → (t ≡ u) × (v ≡ x) }
    ensures nothing { (w : ℕ) → (unpacked w ≡ None) ↔ IsNoWord w }
{}
