ghost use Rattle.std.specs.Prelude.{◌≡◌, [], ◌∷◌, ◌++◌, IfOk, length, map};
ghost use Rattle.std.specs.Option.{option_copied};
ghost use Rattle.name_places.specs.Places.{place_in};
ghost use Rattle.known_names.specs.computed.KnownNames.{known_class};

use crate::known::KnownClass;
use mono_syntax::Name;
use name_places::NamePlaces;
use sqlite_items::Items;
use std::alloc::{AllocError, Global};
use std::marker::Model;

/// Classes in source order. Contracts see the list.
#[derive(Drop)]
pub struct KnownClasses {
    items: Items<KnownClass>,
    places: NamePlaces,
}

impl Model for KnownClasses {
    ghost use Rattle.std.specs.Prelude.{◌≡◌, List, map};
    ghost use Rattle.known_names.specs.declared.known.KnownClass.{KnownClass};
    ghost use Rattle.std.specs.Coded.{coded_list};
    ghost use Rattle.known_names.specs.contracts.known.KnownClass as class;

    ghost Value = { List KnownClass };

    ghost coded = { coded_list class.the_row.coded };

    ghost view = { λ n. n.items };

    ghost invariant = { λ n. n.places ≡ map (λ k. k.name) n.items };
}

impl KnownClasses {
    /// No classes.
    pub fn new(alloc: Global) -> KnownClasses
        ensures { result ≡ [] }
    {
        let items = Items::new(alloc);
        let places = NamePlaces::new(alloc);
        KnownClasses { items, places }
    }

    /// One more class.
    pub fn push(self, alloc: Global, class: KnownClass) -> Result<KnownClasses, AllocError>
        ensures { IfOk result (λ r. r ≡ self ++ class ∷ []) }
    {
        let KnownClasses { mut items, places } = self;
        let places = places.push(alloc, &class.name)?;
        items.push(class)?;
        Ok(KnownClasses { items, places })
    }

    /// The first class of a name.
    pub fn get(&self, name: &Name) -> Option<&KnownClass>
        ensures { option_copied result ≡ known_class self.now name.now }
    {
        match self.places.place(name) {
            Some(at) => self.items.get(at),
            None => None,
        }
    }

    /// The first place of a name.
    pub fn place(&self, name: &Name) -> Option<usize>
        ensures { result ≡ place_in (map (λ k. k.name) self.now) name.now }
    {
        self.places.place(name)
    }

    pub fn len(&self) -> usize
        ensures { result ≡ length self.now }
    {
        self.items.len()
    }

    pub fn as_slice(&self) -> &[KnownClass]
        ensures { result.now ≡ self.now }
    {
        self.items.as_slice()
    }
}
