use crate::{Grouped, Joining, Leaving, Mark, Named, Over};
use iv_span::Span;
use row_index::Query;
use row_table::RowTable;
use std::alloc::Global;
use std::test::Fail;

fn mark(name: u64, start: i32, size: u64) -> Result<Mark, Fail> {
    let start = i64::from(start);
    Ok(Mark {
        name,
        span: Span::new(start, start + 100_000)?,
        group: None,
        size,
    })
}

// Six rows: two of one name, and two that start where the first two end.
fn six(alloc: Global) -> Result<RowTable<Mark>, Fail> {
    let mut table = RowTable::new(alloc);
    for (name, start, size) in [
        (7, 0, 30),
        (9, 50_000, 20),
        (7, 100_000, 10),
        (2, 150_000, 20),
        (4, 900_000, 50),
        (11, -100_000, 20),
    ] {
        table.push(mark(name, start, size)?)?;
    }
    Ok(table)
}

fn sizes<Q: Query<Mark>>(
    alloc: Global,
    table: &RowTable<Mark>,
    query: &Q,
) -> Result<Vec<u64>, Fail> {
    let mut sizes = Vec::new(alloc);
    for row in table.all(alloc, query)? {
        sizes.push(row.size)?;
    }
    Ok(sizes)
}

fn names(alloc: Global, table: &RowTable<Mark>) -> Result<Vec<u64>, Fail> {
    let mut names = Vec::new(alloc);
    for row in table.iter() {
        names.push(row.name)?;
    }
    Ok(names)
}

fn first_size<Q: Query<Mark>>(table: &RowTable<Mark>, query: &Q) -> Option<u64> {
    table.first(query).map(|row| row.size)
}

#[test]
fn finds_rows_whose_digests_collide(rt: HostRuntime) -> Result<(), Fail> {
    let table = six(rt.alloc())?;
    for (name, size) in [
        (7, Some(30)),
        (9, Some(20)),
        (11, Some(20)),
        (5, None),
        (4, Some(50)),
    ] {
        assert_eq!(rt; first_size(&table, &Named { name }), size);
        assert_eq!(rt; table.any(&Named { name }), size.is_some());
    }
    assert_eq!(rt;
        table.least(&Named { name: 7 }).map(|row| row.size),
        Some(10)
    );
    Ok(())
}

#[test]
fn finds_rows_over_a_span(rt: HostRuntime) -> Result<(), Fail> {
    let alloc = rt.alloc();
    let table = six(alloc)?;
    let near = Over {
        span: Span::new(60_000, 140_000)?,
    };
    let far = Over {
        span: Span::new(2_000_000, 3_000_000)?,
    };
    assert_eq!(rt;
        sizes(alloc, &table, &near)?.as_slice(),
        [30, 20, 10].as_slice()
    );
    assert_eq!(rt; table.least(&near).map(|row| row.name), Some(7));
    assert!(rt; !table.any(&far));
    Ok(())
}

#[test]
fn rows_change_and_go(rt: HostRuntime) -> Result<(), Fail> {
    let alloc = rt.alloc();
    let mut table = six(alloc)?;
    for name in [7, 2, 4, 11] {
        table.update_first(Joining { name, group: 3 })?;
    }
    assert_eq!(rt;
        sizes(alloc, &table, &Grouped { group: 3 })?.as_slice(),
        [30, 20, 50, 20].as_slice()
    );
    table.change_all(&Leaving { group: 3 });
    table.remove_all(&Named { name: 7 });
    assert!(rt; !table.any(&Grouped { group: 3 }));
    assert_eq!(rt; names(alloc, &table)?.as_slice(), [9, 2, 4, 11].as_slice());
    Ok(())
}

#[test]
fn several_changes_come_at_once(rt: HostRuntime) -> Result<(), Fail> {
    let alloc = rt.alloc();
    let mut table = six(alloc)?;
    let updates = vec![in alloc;
        Joining { name: 9, group: 1 },
        Joining { name: 6, group: 1 },
        Joining { name: 9, group: 5 },
    ]?;
    let rows = vec![in alloc; mark(9, 0, 1)?, mark(6, 0, 2)?]?;
    table.apply(updates, rows)?;
    assert_eq!(rt;
        sizes(alloc, &table, &Grouped { group: 5 })?.as_slice(),
        [20].as_slice()
    );
    assert!(rt; !table.any(&Grouped { group: 1 }));
    assert_eq!(rt;
        (table.count(), first_size(&table, &Named { name: 6 })),
        (8, Some(2))
    );
    Ok(())
}
