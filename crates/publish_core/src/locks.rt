//! The lock of each span.
ghost use Rattle.std.specs.Prelude.{◌++◌, ◌∷◌, ◌≡◌, IfOk, Ok, OnOk, [], map};
ghost use Rattle.std.specs.Option.{option_copied};
ghost use Rattle.book_rows.specs.Kinds.{same_kind};
ghost use Rattle.book_rows.specs.Lists.{on_ok};
ghost use Rattle.book_rows.specs.Locks.{is_held, is_lost, least};
ghost use Rattle.book_rows.specs.Over.{held_for, target_of, targets};
ghost use Rattle.publish_core.specs.Answers.{IsAnswered, IsChecked, IsHeld};

use crate::OutOfMemory;
use crate::faults::PublishFault;
use crate::targets::Target;
use book_rows::{LockKind, PosseRow, TaskRow};
use iv_span::Span;
use lock_posse::{LockTest, Posses, has_member};
use std::alloc::Global;

fn is_of_kind(row: &PosseRow, kind: LockKind) -> bool
    ensures { result ≡ same_kind row.now.lock_kind kind }
{
    row.lock_kind == kind
}

/// The revoked locks over a span that have a task as a member.
#[derive(Drop)]
struct Lost<'a> {
    task: &'a TaskRow,
    span: Span,
}

impl LockTest for Lost<'_> {
    ghost passes = { λ q p. is_lost q.task.now.task q.task.now.source q.span p };

    fn passes(&self, row: &PosseRow) -> bool {
        row.revoked
            && row.source == self.task.source
            && row.span.overlaps(self.span)
            && has_member(row, &self.task.task)
    }
}

/// The valid locks of a kind round a span that have a task as a member.
#[derive(Drop)]
struct Held<'a> {
    task: &'a TaskRow,
    span: Span,
    kind: LockKind,
}

impl LockTest for Held<'_> {
    ghost passes = { λ q p. is_held q.task.now.task q.task.now.source q.span q.kind p };

    fn passes(&self, row: &PosseRow) -> bool {
        !row.revoked
            && row.source == self.task.source
            && is_of_kind(row, self.kind)
            && row.span.contains(self.span)
            && has_member(row, &self.task.task)
    }
}

fn lost_over<'a>(posses: &'a Posses, task: &TaskRow, span: Span) -> Option<&'a PosseRow>
    ensures { option_copied result ≡ least (is_lost task.now.task task.now.source span) posses.now }
{
    posses.least_over(&task.source, span, &Lost { task, span })
}

fn held_over<'a>(
    posses: &'a Posses,
    task: &TaskRow,
    kind: LockKind,
    span: Span,
) -> Option<&'a PosseRow>
    ensures { option_copied result ≡ least (is_held task.now.task task.now.source span kind) posses.now }
{
    // The span isn't empty, so what contains it overlaps it.
    let _start = span.start();
    posses.least_over(&task.source, span, &Held { task, span, kind })
}

fn target_of(span: Span, lock: &PosseRow) -> Target
    ensures { result ≡ target_of span lock.now }
{
    Target {
        span,
        lock: lock.number,
        version: lock.version,
        since: lock.since,
    }
}

/// The least lock of the kind that the task holds for the span, unless the task lost one there.
pub fn lock_for<'a>(
    posses: &'a Posses,
    task: &TaskRow,
    kind: LockKind,
    span: Span,
) -> Result<&'a PosseRow, PublishFault>
    ensures { IsHeld result (held_for posses.now task.now kind span) }
{
    if let Some(lost) = lost_over(posses, task, span) {
        return Err(PublishFault::LockRevoked(lost.number));
    }
    match held_over(posses, task, kind, span) {
        Some(held) => Ok(held),
        None => Err(PublishFault::LockMissing(span)),
    }
}

// The span with its lock.
fn target_for(
    posses: &Posses,
    task: &TaskRow,
    kind: LockKind,
    span: Span,
) -> Result<Target, PublishFault>
    ensures { IsAnswered result (on_ok (held_for posses.now task.now kind span) (λ q. Ok (target_of span q))) }
{
    match lock_for(posses, task, kind, span) {
        Ok(lock) => Ok(target_of(span, lock)),
        Err(fault) => Err(fault),
    }
}

fn put(targets: &mut Vec<Target>, target: Target) -> Result<(), OutOfMemory>
    ensures { OnOk result (targets.new.items ≡ targets.old.items ++ target ∷ []) }
{
    targets.push(target)?;
    Ok(())
}

/// Each span with its lock.
pub fn targets(
    alloc: Global,
    posses: &Posses,
    task: &TaskRow,
    kind: LockKind,
    spans: &[Span],
) -> Result<Vec<Target>, PublishFault>
    ensures found { IsChecked result (targets posses.now task.now kind spans.now) }
    ensures spans { IfOk result (λ v. map (λ x. x.span) v.items ≡ spans.now) }
{
    let mut targets = Vec::new(alloc);
    for span in spans {
        put(&mut targets, target_for(posses, task, kind, *span)?)?;
    }
    Ok(targets)
}
