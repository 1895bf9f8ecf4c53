ghost use Rattle.std.specs.Prelude.{◌≡◌, ◌<◌, [], ◌∷◌, ◌++◌, length, IfOk, IfSome};
ghost use Rattle.name_places.specs.Places.{place_in};
ghost use Rattle.name_places.specs.computed.Firsts.{IsNoted};

use mono_syntax::Name;
use sqlite_items::Items;
use std::alloc::{AllocError, Global};
use std::collections::BTreeMap;
use std::marker::Model;

/// Names in a row. Contracts see the list.
#[derive(Drop)]
pub struct NamePlaces {
    names: Items<Name>,
    /// The first place of each name.
    firsts: BTreeMap<Vec<u8>, usize>,
}

impl Model for NamePlaces {
    ghost use Rattle.std.specs.Prelude.{List, ℕ};
    ghost use Rattle.name_places.specs.computed.Firsts.{AreFirsts};

    ghost Value = { List (List ℕ) };

    ghost view = { λ n. n.names };

    ghost invariant = { λ n. AreFirsts n.firsts n.names };
}

impl NamePlaces {
    /// No names.
    pub fn new(alloc: Global) -> NamePlaces
        ensures { result ≡ [] }
    {
        let names = Items::new(alloc);
        let firsts = BTreeMap::new(alloc);
        NamePlaces { names, firsts }
    }

    /// One more name, which may stand there already.
    pub fn push(self, alloc: Global, name: &Name) -> Result<NamePlaces, AllocError>
        ensures { IfOk result (λ r. r ≡ self ++ name.now ∷ []) }
    {
        let NamePlaces { mut names, firsts } = self;
        let firsts = noted(alloc, firsts, name, names.len())?;
        names.push(name.share()?)?;
        Ok(NamePlaces { names, firsts })
    }

    /// The first place of a name.
    pub fn place(&self, name: &Name) -> Option<usize>
        ensures place { result ≡ place_in self.now name.now }
        ensures within { IfSome result (λ i. i < length self.now) }
    {
        match self.firsts.get(name.as_slice()) {
            Some(at) => Some(*at),
            None => None,
        }
    }
}

/// The places so far, and that of one more name where it is new.
fn noted(
    alloc: Global,
    mut firsts: BTreeMap<Vec<u8>, usize>,
    name: &Name,
    at: usize,
) -> Result<BTreeMap<Vec<u8>, usize>, AllocError>
    ensures { IfOk result (IsNoted firsts name.now at) }
{
    if firsts.get(name.as_slice()).is_none() {
        let key = Vec::from_slice(alloc, name.as_slice())?;
        firsts.insert(key, at)?;
    }
    Ok(firsts)
}
