ghost use Rattle.std.specs.Prelude.{◌≡◌, [], IfOk};
ghost use Rattle.cast_lines.specs.CastLines.{rank, AreRows};
ghost use Rattle.cast_lines.specs.computed.Rows.{rows_behind, with_row};

use mono_syntax::{Kind, Site};
use std::alloc::{AllocError, Global};
use std::cmp::Ordering;

/// A site of the list: the line and the column where it stands, the place of its kind among the kinds, and its number.
#[derive(Clone, Copy, PartialEq, Eq, Drop)]
pub struct Row {
    pub line: u32,
    pub column: u32,
    pub rank: u8,
    pub number: usize,
}

impl Ord for Row {
    ghost use Rattle.std.proofs.Common.{rules};
    ghost use Rattle.std.specs.Cmp.Rules.{comparing};
    ghost use Rattle.cast_lines.specs.Order.{order};

    ghost cmp = { order };

    ghost total = { Prim.search (comparing, rules) depth 9 };

    ghost matches_partial_cmp = { Prim.search (comparing, rules) depth 9 };

    ghost matches_eq = { Prim.search (comparing, rules) depth 9 };

    fn cmp(&self, other: &Row) -> Ordering {
        let by_line = self.line.cmp(&other.line);
        let by_column = self.column.cmp(&other.column);
        let by_kind = self.rank.cmp(&other.rank);
        let by_number = self.number.cmp(&other.number);
        by_line.then(by_column.then(by_kind.then(by_number)))
    }
}

impl PartialOrd for Row {
    ghost use Rattle.std.proofs.Common.{rules};
    ghost use Rattle.std.specs.Cmp.{partial_order_from_own_ties};
    ghost use Rattle.std.specs.Cmp.Rules.{comparing};
    ghost use Rattle.std.specs.Ordering.{as_partial_cmp};
    ghost use Rattle.cast_lines.specs.Order.{order};

    ghost partial_cmp = { as_partial_cmp order };

    ghost laws = { partial_order_from_own_ties (Prim.search (comparing, rules) depth 9) (Prim.search (comparing, rules) depth 9) };

    fn partial_cmp(&self, other: &Row) -> Option<Ordering> {
        Some(self.cmp(other))
    }
}

/// The place of a kind in the list's order; the last two kinds aren't in it.
fn rank(kind: Kind) -> Option<u8>
    ensures { result ≡ rank kind }
{
    match kind {
        Kind::Cast => Some(0),
        Kind::Argument => Some(1),
        Kind::Write => Some(2),
        Kind::Return => Some(3),
        Kind::Operator => Some(4),
        Kind::Member => Some(5),
        Kind::Call => Some(6),
        Kind::Arithmetic | Kind::Name => None,
    }
}

fn with_row(mut rows: Vec<Row>, number: usize, site: &Site) -> Result<Vec<Row>, AllocError>
    ensures { IfOk result (λ more. more.items ≡ with_row rows.items number site.now) }
{
    if let Some(rank) = rank(site.kind) {
        let line = site.place.line;
        let column = site.place.column;
        rows.push(Row {
            line,
            column,
            rank,
            number,
        })?;
    }
    Ok(rows)
}

/// The rows of the sites by their numbers.
fn numbered_rows(alloc: Global, sites: &[Site]) -> Result<Vec<Row>, AllocError>
    ensures { IfOk result (λ rows. rows.items ≡ rows_behind [] 0 sites.now) }
{
    let mut rows = Vec::new(alloc);
    for (number, site) in sites.iter().enumerate() {
        rows = with_row(rows, number, site)?;
    }
    Ok(rows)
}

/// The rows of the sites in the list's order.
pub fn rows_of(alloc: Global, sites: &[Site]) -> Result<Vec<Row>, AllocError>
    ensures { IfOk result (λ rows. AreRows sites.now rows.items) }
{
    let mut rows = numbered_rows(alloc, sites)?;
    rows.sort_unstable();
    Ok(rows)
}
