//! Offsets that replicas told.
ghost use Rattle.std.specs.Prelude.{◌≡◌, ◌++◌, IfOk};
ghost use Rattle.book_rows.specs.Reports.{both_told, ends_told, first_bad, greater};

use crate::OutOfMemory;
use book_rows::{Offset, Report};
use std::alloc::Global;

fn greater(a: u64, b: u64) -> u64
    ensures { result ≡ greater a b }
{
    if a < b { b } else { a }
}

// Puts the greater offset of each partition behind these.
fn push_both(out: &mut Vec<Offset>, told: &[Offset], again: &[Offset]) -> Result<(), OutOfMemory>
    ensures { IfOk result (λ _. out.new.items ≡ out.old.items ++ both_told told.now again.now) }
{
    match told {
        [] => Ok(()),
        [a, rest @ ..] => match again {
            [] => {
                out.extend_from_slice(told)?;
                Ok(())
            }
            [b, later @ ..] => {
                out.push(Offset {
                    partition: a.partition,
                    offset: greater(a.offset, b.offset),
                })?;
                push_both(out, rest, later)
            }
        },
    }
}

/// The greater offset of each partition. The error is want of memory.
pub fn both_told(
    alloc: Global,
    told: &[Offset],
    again: &[Offset],
) -> Result<Vec<Offset>, OutOfMemory>
    ensures { IfOk result (λ made. made.items ≡ both_told told.now again.now) }
{
    let mut out = Vec::new(alloc);
    push_both(&mut out, told, again)?;
    Ok(out)
}

/// The greatest offset of each partition that the reports tell, none below these. The error is want
/// of memory.
pub fn ends_told(
    alloc: Global,
    starts: &[Offset],
    reports: &[Report],
) -> Result<Vec<Offset>, OutOfMemory>
    ensures { IfOk result (λ made. made.items ≡ ends_told starts.now reports.now) }
{
    let mut at = Vec::from_slice(alloc, starts)?;
    for report in reports {
        at = both_told(alloc, at.as_slice(), report.offsets.as_slice())?;
    }
    Ok(at)
}

/// The least partition that is missing, foreign, or told below its start.
pub fn first_bad(starts: &[Offset], offsets: &[Offset]) -> Option<u32>
    ensures { result ≡ first_bad starts.now offsets.now }
{
    match starts {
        [] => match offsets {
            [] => None,
            [offset, ..] => Some(offset.partition),
        },
        [start, starts @ ..] => match offsets {
            [] => Some(start.partition),
            [offset, offsets @ ..] => {
                if offset.partition < start.partition {
                    Some(offset.partition)
                } else if start.partition < offset.partition || offset.offset < start.offset {
                    Some(start.partition)
                } else {
                    first_bad(starts, offsets)
                }
            }
        },
    }
}
