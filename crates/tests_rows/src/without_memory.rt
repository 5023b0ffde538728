//! Changes that memory may lack for: each leaves the table as it was, and can be asked for again.
//!
//! In a run of the tests as they are, memory never lacks. Run with one allocation after another
//! failing (`rt try --test --fail-alloc N`), these tests pass at each N: what comes before a change
//! is tried twice.
use crate::{Joining, Mark};
use iv_span::Span;
use row_table::{OutOfMemory, RowTable};
use std::alloc::Global;
use std::test::Fail;

const BEFORE: [(u64, Option<u64>); 3] = [(7, None), (9, None), (2, None)];

fn mark(name: u64, span: Span) -> Mark {
    Mark {
        name,
        span,
        group: None,
        size: 1,
    }
}

fn made(alloc: Global, span: Span) -> Result<RowTable<Mark>, OutOfMemory> {
    let mut table = RowTable::new(alloc);
    for name in [7, 9, 2] {
        table.push(mark(name, span))?;
    }
    Ok(table)
}

fn three(alloc: Global, span: Span) -> Result<RowTable<Mark>, OutOfMemory> {
    match made(alloc, span) {
        Ok(table) => Ok(table),
        Err(_) => made(alloc, span),
    }
}

fn listed(alloc: Global, span: Span) -> Result<Vec<Mark>, OutOfMemory> {
    let mut rows = Vec::new(alloc);
    for name in [4, 11, 4] {
        rows.push(mark(name, span))?;
    }
    Ok(rows)
}

fn rows_to_add(alloc: Global, span: Span) -> Result<Vec<Mark>, OutOfMemory> {
    match listed(alloc, span) {
        Ok(rows) => Ok(rows),
        Err(_) => listed(alloc, span),
    }
}

fn joins(alloc: Global) -> Result<Vec<Joining>, OutOfMemory> {
    let mut updates = Vec::new(alloc);
    for name in [2, 7] {
        updates.push(Joining { name, group: name })?;
    }
    Ok(updates)
}

fn joins_to_do(alloc: Global) -> Result<Vec<Joining>, OutOfMemory> {
    match joins(alloc) {
        Ok(updates) => Ok(updates),
        Err(_) => joins(alloc),
    }
}

// Whether these are the names and groups of the rows. It takes no memory.
fn are(table: &RowTable<Mark>, rows: &[(u64, Option<u64>)]) -> bool {
    let mut at = 0;
    for row in table.iter() {
        match rows.get(at) {
            Some(want) if row.name == want.0 && row.group == want.1 => at += 1,
            _ => return false,
        }
    }
    at == rows.len()
}

#[test]
fn a_push_is_whole_or_nothing(rt: HostRuntime) -> Result<(), Fail> {
    let span = Span::new(0, 100_000)?;
    let mut table = three(rt.alloc(), span)?;
    if table.push(mark(4, span)).is_err() {
        assert!(rt; are(&table, &BEFORE));
        table.push(mark(4, span))?;
    }
    let after = [(7, None), (9, None), (2, None), (4, None)];
    assert!(rt; are(&table, &after));
    Ok(())
}

#[test]
fn several_pushes_are_whole_or_nothing(rt: HostRuntime) -> Result<(), Fail> {
    let span = Span::new(0, 100_000)?;
    let mut table = three(rt.alloc(), span)?;
    if table.push_all(rows_to_add(rt.alloc(), span)?).is_err() {
        assert!(rt; are(&table, &BEFORE));
        table.push_all(rows_to_add(rt.alloc(), span)?)?;
    }
    let after = [
        (7, None),
        (9, None),
        (2, None),
        (4, None),
        (11, None),
        (4, None),
    ];
    assert!(rt; are(&table, &after));
    Ok(())
}

#[test]
fn an_update_is_whole_or_nothing(rt: HostRuntime) -> Result<(), Fail> {
    let span = Span::new(0, 100_000)?;
    let mut table = three(rt.alloc(), span)?;
    if table.update_first(Joining { name: 9, group: 3 }).is_err() {
        assert!(rt; are(&table, &BEFORE));
        table.update_first(Joining { name: 9, group: 3 })?;
    }
    let after = [(7, None), (9, Some(3)), (2, None)];
    assert!(rt; are(&table, &after));
    Ok(())
}

#[test]
fn updates_with_pushes_are_whole_or_nothing(rt: HostRuntime) -> Result<(), Fail> {
    let span = Span::new(0, 100_000)?;
    let alloc = rt.alloc();
    let mut table = three(alloc, span)?;
    if table
        .apply(joins_to_do(alloc)?, rows_to_add(alloc, span)?)
        .is_err()
    {
        assert!(rt; are(&table, &BEFORE));
        table.apply(joins_to_do(alloc)?, rows_to_add(alloc, span)?)?;
    }
    let after = [
        (7, Some(7)),
        (9, None),
        (2, Some(2)),
        (4, None),
        (11, None),
        (4, None),
    ];
    assert!(rt; are(&table, &after));
    Ok(())
}
