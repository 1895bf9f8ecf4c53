ghost use Rattle.std.specs.Prelude.{◌≡◌, IfOk};
ghost use Rattle.cast_insert.specs.computed.Scripted.{with_site, with_sites, no_sites};

use cast_rules::TypedSite;
use mono_syntax::Site;
use sqlite_items::Items;
use std::alloc::{AllocError, Global};
use type_list::{TypeList, with_type};

/// Sites with their types by position, and the list of these types.
#[derive(Drop)]
pub struct Table {
    pub types: TypeList,
    pub sites: Items<Site>,
}

/// One more site.
fn with_site(table: Table, site: &TypedSite) -> Result<Table, AllocError>
    ensures { IfOk result (λ b. b ≡ with_site table site.now) }
{
    let Table { types, mut sites } = table;
    let source = with_type(types, &site.source)?;
    let target = with_type(source.types, &site.target)?;
    sites.push(Site {
        place: site.place,
        kind: site.kind,
        source: source.at,
        target: target.at,
    })?;
    let types = target.types;
    Ok(Table { types, sites })
}

/// All sites, with their types by position in the list of those that occur.
pub fn table_of(alloc: Global, all: &[TypedSite]) -> Result<Table, AllocError>
    ensures { IfOk result (λ b. b ≡ with_sites no_sites all.now) }
{
    let types = TypeList::new(alloc);
    let sites = Items::new(alloc);
    let mut table = Table { types, sites };
    for site in all {
        table = with_site(table, site)?;
    }
    Ok(table)
}
