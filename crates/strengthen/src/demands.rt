ghost use Rattle.std.specs.Prelude.{◌≡◌, ◌≤◌, ◌<◌, ◌+◌, ◌^◌};
ghost use Rattle.mono_syntax.specs.Ty.{Ty};
ghost use Rattle.mono_syntax.specs.declared.value.TypeNo.{TypeNo};
ghost use Rattle.mono_syntax.specs.declared.value.Value.{Value};
ghost use Rattle.mono_tree.specs.TypeNumbers.{IsInRange, Names};
ghost use Rattle.field_word.specs.Words.{Fits, FitsPayload, IsWordOf};
ghost use Rattle.step_expr.specs.Fits.{IsOfTable};
ghost use Rattle.strengthen.specs.Demands.{IsCellWord, SetsCellWord, IsSet, IsOpened, IsAtMeet, IsVerdict};

use crate::data::{Demand, Obligation, Verdict};
use field_word::{pack, unpack};
use mono_syntax::{TypeNo, Value};
use mono_tree::Meets;
use step_expr::{Fit, fit};
use type_numbers::TypeTable;

/// What the obligation on top asks for: the word of its cell.
pub fn next_demand(top: &Obligation) -> Demand
    requires { top.now.object + top.now.field < 2 ^ 32 }
    ensures { result ≡ Demand.Look (top.now.object + top.now.field) }
{
    Demand::Look(top.object + top.field)
}

/// An object that has the names of the meet: its fields come first, unless it was made ready.
fn at_object(top: Obligation, seen: u64, value: Value, met: TypeNo) -> Verdict
    requires { Fits met value }
    ensures { IsOpened top seen value met result }
{
    let new = pack(met, value);
    if top.ready == new {
        Verdict::Set {
            expected: seen,
            new,
        }
    } else {
        Verdict::Ready(Obligation { ready: new, ..top })
    }
}

/// The word of a fitted value.
fn set_fitted(seen: u64, met: TypeNo, fitted: Value) -> Verdict
    requires { Fits met fitted }
    ensures { IsSet seen met fitted result }
{
    Verdict::Set {
        expected: seen,
        new: pack(met, fitted),
    }
}

/// The recorded type is to become the meet.
fn at_meet(top: Obligation, seen: u64, value: Value, met: TypeNo, table: &TypeTable) -> Verdict
    requires range { IsInRange table.now.types met }
    requires value { IsOfTable table.now value }
    requires payload { FitsPayload value }
    ensures verdict { (meet : Ty) → Names table.now.types met meet → IsAtMeet table.now top seen value met meet result }
    ensures word { SetsCellWord table.now result }
{
    // The numbers of types fit their bits of a word.
    let _count = table.count();
    match fit(value, met, table) {
        Fit::Unfit => Verdict::Unfit,
        Fit::Holds(fitted) => set_fitted(seen, met, fitted),
        Fit::Opens => at_object(top, seen, value, met),
    }
}

fn at_pair(top: Obligation, seen: u64, recorded: TypeNo, value: Value, table: &TypeTable) -> Verdict
    requires recorded { IsInRange table.now.types recorded }
    requires target { IsInRange table.now.types top.to }
    requires value { IsOfTable table.now value }
    requires payload { FitsPayload value }
    ensures verdict { (r t : Ty) → Names table.now.types recorded r → Names table.now.types top.to t
        → IsVerdict table.now top seen value r t result }
    ensures word { SetsCellWord table.now result }
{
    if table.precise_no(recorded, top.to) {
        return Verdict::Dropped;
    }
    match table.meet_no(recorded, top.to) {
        Some(met) => at_meet(top, seen, value, met, table),
        None => Verdict::Unfit,
    }
}

/// Decides the obligation on top by the word that was seen in its cell. The word tells the recorded type and the value. `Dropped` where the
/// recorded type is at least as precise as what is asked; `Unfit` where the two have no meet, or the value doesn't fit it; `Ready` where
/// the value is an object that wasn't made ready for the meet; `Set` else, with the meet and the value, a function narrowed to the meet.
pub fn resume_demand(top: Obligation, seen: u64, table: &TypeTable) -> Verdict
    requires word { IsCellWord table.now seen }
    requires target { IsInRange table.now.types top.to }
    ensures verdict { (n : TypeNo) (w : Value) (r t : Ty) → IsWordOf n w seen → Names table.now.types n r → Names table.now.types top.to t
        → IsVerdict table.now top seen w r t result }
    ensures word { SetsCellWord table.now result }
{
    match unpack(seen) {
        Some((recorded, value)) => at_pair(top, seen, recorded, value, table),
        // The word of a cell is a pair's.
        None => unreachable!(),
    }
}
