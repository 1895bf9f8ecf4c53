use mono_list::Shared;
use mono_syntax::{Kind, Place, Ty};

/// A site with its types themselves. A site of a kind that has no types has `Dyn` for both.
#[derive(Drop)]
pub struct TypedSite {
    pub place: Place,
    pub kind: Kind,
    pub source: Shared<Ty>,
    pub target: Shared<Ty>,
}
