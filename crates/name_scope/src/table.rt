ghost use Rattle.std.specs.Prelude.{◌≡◌, ℕ, List, bytes_eq, if◌then◌else◌, OnOk, IfOk};
ghost use Rattle.name_scope.specs.computed.NameRoles.{no_roles, alone, together, roles_of};
ghost use Rattle.name_scope.specs.computed.Table.{roles_in};

use crate::roles::{Roles, alone, no_roles, together};
use mono_syntax::Name;
use script_rules::Occurrence;
use std::alloc::{AllocError, Global};
use std::collections::BTreeMap;

/// What each name is by the occurrences that were noted.
#[derive(Drop)]
pub(crate) struct NameTable {
    roles: BTreeMap<Vec<u8>, Roles>,
}

impl NameTable {
    /// The table of no occurrence.
    pub(crate) fn new(alloc: Global) -> NameTable
        ensures { (x : List ℕ) → roles_in result.roles x ≡ no_roles }
    {
        NameTable {
            roles: BTreeMap::new(alloc),
        }
    }

    /// What a name is.
    pub(crate) fn roles(&self, name: &Name) -> Roles
        ensures { result ≡ roles_in self.now.roles name.now }
    {
        match self.roles.get(name.as_slice()) {
            Some(roles) => *roles,
            None => no_roles(),
        }
    }

    /// Takes one more occurrence.
    pub(crate) fn note(&mut self, alloc: Global, o: &Occurrence) -> Result<(), AllocError>
        ensures { OnOk result ((x : List ℕ) → roles_in self.new.roles x ≡ (if bytes_eq o.now.text x then together (roles_in self.old.roles x) (alone o.now.role o.now.place) else roles_in self.old.roles x)) }
    {
        let roles = together(self.roles(&o.text), alone(o.role, o.place));
        let key = Vec::from_slice(alloc, o.text.as_slice())?;
        self.roles.insert(key, roles)?;
        Ok(())
    }
}

/// The table of all these occurrences.
pub(crate) fn table_of(alloc: Global, all: &[Occurrence]) -> Result<NameTable, AllocError>
    ensures { IfOk result (λ table. (x : List ℕ) → roles_in table.roles x ≡ roles_of all.now x) }
{
    let mut table = NameTable::new(alloc);
    for o in all {
        table.note(alloc, o)?;
    }
    Ok(table)
}
