ghost use Rattle.std.specs.Prelude.{◌≡◌, IfOk};
ghost use Rattle.mono_syntax.specs.Ty.{dyn};
ghost use Rattle.cast_rules.specs.Sites.{site_from, plain_site, site_at_dyn, tested_site};
ghost use Rattle.rule_choice.specs.GivenParts.{types_of};
ghost use Rattle.cast_nodes.specs.computed.Placed.{no_slots, with_slot, cast_site, put_casts, put_tested};

use cast_rules::TypedSite;
use known_names::{is_dyn, is_fully_static, is_precise, new_type};
use mono_list::Shared;
use mono_syntax::{Kind, Place, Ty, TyKind};
use rule_choice::Part;
use sqlite_items::Items;
use std::alloc::{AllocError, Global};

/// The numbers of a construct's sites in their order, `None` where one need not stand, and all sites so far.
#[derive(Drop)]
pub struct Slots {
    pub numbers: Items<Option<u32>>,
    pub sites: Items<TypedSite>,
}

/// No slots behind these sites.
pub fn no_slots(alloc: Global, sites: Items<TypedSite>) -> Slots
    ensures { result ≡ no_slots sites }
{
    let numbers = Items::new(alloc);
    Slots { numbers, sites }
}

/// One more slot, with the number of its site where one stands.
pub fn with_slot(slots: Slots, site: Option<TypedSite>) -> Result<Slots, AllocError>
    ensures { IfOk result (λ more. more ≡ with_slot slots site) }
{
    let Slots {
        mut numbers,
        mut sites,
    } = slots;
    let Some(site) = site else {
        numbers.push(None)?;
        return Ok(Slots { numbers, sites });
    };
    // There are never as many: a script of 2^20 bytes has no more than three sites for each byte.
    let Ok(number) = u32::try_from(sites.len()) else {
        return Err(AllocError);
    };
    numbers.push(Some(number))?;
    sites.push(site)?;
    Ok(Slots { numbers, sites })
}

// ---- sites that may stand

/// A site of a use of a type at another.
pub fn site_from(
    place: Place,
    kind: Kind,
    source: &Shared<Ty>,
    target: &Shared<Ty>,
) -> Result<TypedSite, AllocError>
    ensures { IfOk result (λ site. site ≡ site_from place kind source.now target.now) }
{
    let source = source.share()?;
    let target = target.share()?;
    Ok(TypedSite {
        place,
        kind,
        source,
        target,
    })
}

/// A site of a kind that has no types.
pub fn plain_site(alloc: Global, place: Place, kind: Kind) -> Result<TypedSite, AllocError>
    ensures { IfOk result (λ site. site ≡ plain_site place kind) }
{
    let dynamic = new_type(alloc, TyKind::Dyn)?;
    site_from(place, kind, &dynamic, &dynamic)
}

/// A site where the first of these parts is `Dyn`.
#[tactic(auto, using(crate::proofs::DynSites::first_dyn))]
pub fn site_at_dyn(
    alloc: Global,
    kind: Kind,
    place: Place,
    parts: &[Part],
) -> Result<Option<TypedSite>, AllocError>
    ensures { IfOk result (λ site. site ≡ site_at_dyn kind place (types_of parts.now)) }
{
    let Some(part) = parts.first() else {
        return Ok(None);
    };
    if is_dyn(part.ty.get()) {
        return Ok(Some(plain_site(alloc, place, kind)?));
    }
    Ok(None)
}

/// The site of a test where a part goes to a place of a type, unless the type is fully static.
pub fn tested_site(
    kind: Kind,
    part: &Part,
    ty: &Shared<Ty>,
) -> Result<Option<TypedSite>, AllocError>
    ensures { IfOk result (λ site. site ≡ tested_site kind part.now.place part.now.ty ty.now) }
{
    if is_fully_static(ty.get()) {
        return Ok(None);
    }
    Ok(Some(site_from(part.place, kind, &part.ty, ty)?))
}

/// The cast of a part's use at a type, where one must stand.
fn cast_site(part: &Part, ty: &Shared<Ty>) -> Result<Option<TypedSite>, AllocError>
    ensures { IfOk result (λ site. site ≡ cast_site part.now ty.now) }
{
    if is_precise(part.ty.get(), ty.get()) {
        return Ok(None);
    }
    Ok(Some(site_from(part.place, Kind::Cast, &part.ty, ty)?))
}

// ---- rows

/// The casts of parts that are each used at a type, where they must stand.
#[tactic(auto, using(crate::proofs::Rows::over))]
pub fn put_casts(slots: Slots, parts: &[Part], asks: &[Shared<Ty>]) -> Result<Slots, AllocError>
    ensures { IfOk result (λ more. more ≡ put_casts slots parts.now asks.now) }
{
    let mut slots = slots;
    for (part, asked) in parts.iter().zip(asks) {
        slots = with_slot(slots, cast_site(part, asked)?)?;
    }
    Ok(slots)
}

/// The tests of parts that each go to a place of a type, where they stand.
#[tactic(auto, using(crate::proofs::Rows::over))]
pub fn put_tested(
    kind: Kind,
    slots: Slots,
    parts: &[Part],
    asks: &[Shared<Ty>],
) -> Result<Slots, AllocError>
    ensures { IfOk result (λ more. more ≡ put_tested kind slots parts.now asks.now) }
{
    let mut slots = slots;
    for (part, asked) in parts.iter().zip(asks) {
        slots = with_slot(slots, tested_site(kind, part, asked)?)?;
    }
    Ok(slots)
}
