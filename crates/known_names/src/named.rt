ghost use Rattle.std.specs.Prelude.{◌≡◌, [], ◌∷◌, ◌++◌, IfOk, length, map};
ghost use Rattle.std.specs.Option.{option_copied, option_map};
ghost use Rattle.mono_tree.specs.TypedPrograms.{type_of_name};
ghost use Rattle.name_places.specs.Places.{place_in};

use mono_list::Shared;
use mono_syntax::{Name, NamedType, Ty};
use name_places::NamePlaces;
use sqlite_items::Items;
use std::alloc::{AllocError, Global};
use std::marker::Model;

/// Names with their types, in a row. Contracts see the list.
#[derive(Drop)]
pub struct NamedTypes {
    items: Items<NamedType>,
    places: NamePlaces,
}

impl Model for NamedTypes {
    ghost use Rattle.std.specs.Prelude.{◌≡◌, List, map};
    ghost use Rattle.mono_syntax.specs.declared.cast.NamedType.{NamedType};
    ghost use Rattle.std.specs.Coded.{coded_list};
    ghost use Rattle.mono_syntax.specs.contracts.cast.NamedType as named;

    ghost Value = { List NamedType };

    ghost coded = { coded_list named.the_row.coded };

    ghost view = { λ n. n.items };

    ghost invariant = { λ n. n.places ≡ map (λ k. k.name) n.items };
}

impl NamedTypes {
    /// No names.
    pub fn new(alloc: Global) -> NamedTypes
        ensures { result ≡ [] }
    {
        let items = Items::new(alloc);
        let places = NamePlaces::new(alloc);
        NamedTypes { items, places }
    }

    /// One more name. Of names that stand there more than once, the first counts.
    pub fn push(self, alloc: Global, known: NamedType) -> Result<NamedTypes, AllocError>
        ensures { IfOk result (λ r. r ≡ self ++ known ∷ []) }
    {
        let NamedTypes { mut items, places } = self;
        let places = places.push(alloc, &known.name)?;
        items.push(known)?;
        Ok(NamedTypes { items, places })
    }

    /// The type of a name.
    pub fn get(&self, name: &Name) -> Option<&Shared<Ty>>
        ensures { option_copied result ≡ type_of_name self.now name.now }
    {
        match self.places.place(name) {
            Some(at) => type_of(self.items.get(at)),
            None => None,
        }
    }

    /// The first place of a name.
    pub fn place(&self, name: &Name) -> Option<usize>
        ensures { result ≡ place_in (map (λ k. k.name) self.now) name.now }
    {
        self.places.place(name)
    }

    pub fn len(&self) -> usize
        ensures { result ≡ length self.now }
    {
        self.items.len()
    }

    pub fn as_slice(&self) -> &[NamedType]
        ensures { result.now ≡ self.now }
    {
        self.items.as_slice()
    }

    /// The list itself.
    pub fn into_items(self) -> Items<NamedType>
        ensures { result ≡ self }
    {
        self.items
    }
}

fn type_of(known: Option<&NamedType>) -> Option<&Shared<Ty>>
    ensures { option_copied result ≡ option_map (λ k. k.ty) (option_copied known.entry) }
{
    match known {
        Some(known) => Some(&known.ty),
        None => None,
    }
}
