use crate::met_no;
use sqlite_items::Items;
use std::test::Fail;

// The table of `Dyn`, `int`, `{x: Dyn}` and `{x: int}`.
#[test]
fn numbers_of_meets(rt: HostRuntime) -> Result<(), Fail> {
    let alloc = rt.alloc();
    let table: [&[Option<u16>]; 4] = [&[], &[Some(1)], &[Some(2), None], &[Some(3), None, Some(3)]];
    let mut rows = Vec::new(alloc);
    for entries in table {
        let mut row = Items::new(alloc);
        for entry in entries {
            row.push(*entry)?;
        }
        rows.push(row)?;
    }
    let met = [
        (0, 3, Some(3)),
        (1, 2, None),
        (2, 3, Some(3)),
        (3, 2, Some(3)),
        (2, 2, Some(2)),
    ];
    for (a, b, wanted) in met {
        assert!(rt; met_no(rows.as_slice(), a, b) == wanted);
    }
    Ok(())
}
