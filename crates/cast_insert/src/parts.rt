ghost use Rattle.std.specs.Prelude.{◌≡◌};
ghost use Rattle.cast_insert.specs.computed.Inserted.{no_parts};

use cast_rules::TypedSite;
use mono_list::Shared;
use mono_syntax::{CastExpr, Ty};
use rule_choice::Part;
use sqlite_items::Items;
use std::alloc::Global;

/// The parts of a construct so far, in source order, what they became, and all sites so far.
#[derive(Drop)]
pub struct Parts {
    pub parts: Items<Part>,
    pub exprs: Items<Shared<CastExpr>>,
    pub sites: Items<TypedSite>,
}

/// Parts with the casts of their uses, and all sites so far.
#[derive(Drop)]
pub struct Used {
    pub exprs: Items<Shared<CastExpr>>,
    pub sites: Items<TypedSite>,
}

/// An expression with its casts, its type, and all sites so far.
#[derive(Drop)]
pub struct Whole {
    pub ty: Shared<Ty>,
    pub expr: Shared<CastExpr>,
    pub sites: Items<TypedSite>,
}

pub fn no_parts(alloc: Global, sites: Items<TypedSite>) -> Parts
    ensures { result ≡ no_parts sites }
{
    let parts = Items::new(alloc);
    let exprs = Items::new(alloc);
    Parts {
        parts,
        exprs,
        sites,
    }
}
