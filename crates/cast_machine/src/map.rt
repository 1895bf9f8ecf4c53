ghost use Rattle.std.specs.Prelude.{◌≡◌, [], ◌∷◌, ◌++◌, OnOk, OnErr};
ghost use Rattle.std.specs.Option.{option_copied};
ghost use Rattle.cast_machine.specs.Maps.{lookup, update, place_of};

use mono_syntax::Name;
use std::alloc::{AllocError, Global};
use std::marker::Model;

/// A finite map from names. Contracts see it as the list of its pairs, in the order in which they were added.
#[derive(Drop)]
pub struct NameMap<V> {
    entries: Vec<(Name, V)>,
}

impl<V> Model for NameMap<V> {
    ghost use Rattle.std.specs.Prelude.{List, ℕ};
    ghost use Rattle.std.specs.Coded.{coded_list, coded×, coded_ℕ};

    ghost Value = { List (List ℕ × V) };

    ghost coded = { coded_list (coded× (coded_list coded_ℕ) V.code) };

    ghost view = { λ m. m.entries.items };
}

impl<V> NameMap<V> {
    /// The map without a name.
    pub fn new(alloc: Global) -> NameMap<V>
        ensures { result ≡ [] }
    {
        NameMap {
            entries: Vec::new(alloc),
        }
    }

    /// The pairs in order.
    pub fn entries(&self) -> &[(Name, V)]
        ensures { result.now ≡ self.now }
    {
        self.entries.as_slice()
    }
}

/// Where a name stands, from 0.
fn place_in<V>(entries: &[(Name, V)], name: &[u8]) -> Option<usize>
    ensures { result ≡ place_of entries.now name.now }
{
    for (at, entry) in entries.iter().enumerate() {
        if entry.0.as_slice() == name {
            return Some(at);
        }
    }
    None
}

/// Gives a name another value where it stands.
fn set_in<V: Drop>(entries: &mut Vec<(Name, V)>, name: &[u8], value: V)
    ensures { entries.new.items ≡ update entries.old.items name.now value }
{
    if let Some(at) = place_in(entries, name) {
        entries[at].1 = value;
    }
}

impl<V> NameMap<V> {
    /// The value of a name.
    pub fn get(&self, name: &[u8]) -> Option<&V>
        ensures { option_copied result ≡ lookup self.now name.now }
    {
        for entry in &self.entries {
            if entry.0.as_slice() == name {
                return Some(&entry.1);
            }
        }
        None
    }
}

impl<V: Drop> NameMap<V> {
    /// Gives a name that stands in the map another value. Another name changes nothing.
    pub fn set(&mut self, name: &[u8], value: V)
        ensures { self.new ≡ update self.old name.now value }
    {
        set_in(&mut self.entries, name, value);
    }

    /// Adds a name behind the others.
    pub fn push(&mut self, name: Name, value: V) -> Result<(), AllocError>
        ensures ok { OnOk result (self.new ≡ self.old ++ (name, value) ∷ []) }
        ensures err { OnErr result (self.new ≡ self.old) }
    {
        self.entries.push((name, value))?;
        Ok(())
    }
}
