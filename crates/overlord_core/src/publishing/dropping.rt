//! `drop`.
ghost use Rattle.std.specs.Prelude.{◌≡◌, IfOk, length};
ghost use Rattle.book_rows.specs.Outcome.{changed, no_room};
ghost use Rattle.book_rows.specs.PublishSteps.{commit_reply, dropped};
ghost use Rattle.book_rows.specs.Rewrite.{after_drop, drop_fault};
ghost use Rattle.book_rows.specs.declared.kinds.PubKind.TheVariants as PubKinds;
ghost use Rattle.publish_core.specs.Answers.{IsPassed};
ghost use Rattle.publish_rows.specs.Room.{drop_tables};
ghost use Rattle.book_core.specs.Done.{IsDone};

use book_core::{Core, OutOfMemory, Outcome, changed, drop_publication, publish_refusal, refused};
use book_rows::{Refusal, Reply, Table};
use iv_span::Span;
use publish_core::{PublishFault, check_drop};
use seg_names::Name;
use std::alloc::Global;

fn drop_fault(core: &Core, alloc: Global, source: &Name, span: Span) -> Result<(), PublishFault>
    ensures { IsPassed result (drop_fault core.now.posses core.now.segments source.now span) }
{
    check_drop(alloc, &core.segments, &core.posses, source, span)
}

fn room_for_drop(core: &Core, source: &Name, span: Span) -> Option<Table>
    ensures { result ≡ no_room drop_tables (after_drop source.now span core.now) }
{
    publish_rows::room_for_drop(&core.streams)
}

fn put_drop(
    core: &mut Core,
    alloc: Global,
    source: &Name,
    span: Span,
) -> Result<Outcome, OutOfMemory>
    ensures { IfOk result (λ o. IsDone o core.new (changed (after_drop source.now span core.old) (commit_reply PubKinds.Drop (length core.old.publications)))) }
{
    let publication = drop_publication(alloc, source, span)?;
    let number = core.streams.count();
    core.segments.unuse(source, span);
    publish_rows::commit(&mut core.streams, alloc, publication)?;
    Ok(changed(Reply::Drop { commit: number }))
}

/// Marks all segments within the span as unused.
pub fn drop_within(
    core: &mut Core,
    alloc: Global,
    source: &Name,
    span: Span,
) -> Result<Outcome, OutOfMemory>
    ensures { IfOk result (λ o. IsDone o core.new (dropped core.old source.now span)) }
{
    match drop_fault(core, alloc, source, span) {
        Ok(()) => match room_for_drop(core, source, span) {
            Some(table) => Ok(refused(Refusal::TableFull { table })),
            None => put_drop(core, alloc, source, span),
        },
        Err(fault) => Ok(refused(publish_refusal(fault)?)),
    }
}
