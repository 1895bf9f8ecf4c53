//! Functions as values. A function and a type come in, and what comes out is the function as a cast to that type leaves it, or none; the
//! contract says that it is the same function, merged to the meet of its merged type and the other.
#![tactic(auto)]

ghost use Rattle.mono_syntax.specs.Ty.{Ty};
ghost use Rattle.mono_tree.specs.TypeNumbers.{IsInRange, Names};
ghost use Rattle.function_wrap.specs.Narrowed.{Narrows};

use mono_tree::{FnValue, Meets, TypeNo};

/// The function as a cast to this type leaves it: the same function, with the meet of its merged type and the type as its merged type.
/// None where there is no such meet, and then the cast fails. A merged type so only gains precision, whatever the casts and their order.
pub fn narrow<M: Meets>(f: FnValue, to: TypeNo, meets: &M) -> Option<FnValue>
    requires merged { IsInRange (M.types meets.now) f.merged }
    requires target { IsInRange (M.types meets.now) to }
    ensures { (a b : Ty) → Names (M.types meets.now) f.merged a → Names (M.types meets.now) to b → Narrows (M.types meets.now) f a b result }
{
    let merged = meets.meet_no(f.merged, to)?;
    Some(FnValue {
        func: f.func,
        merged,
    })
}
