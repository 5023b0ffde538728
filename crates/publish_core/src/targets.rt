//! A span with what its lock says.

use iv_span::Span;
use std::marker::Model;

/// A span that is filled, with the number, the version and the `since` of its lock. Contracts see
/// the target of the rules.
#[derive(Clone, Copy)]
pub struct Target {
    /// The span.
    pub span: Span,
    /// The number of its lock.
    pub lock: u64,
    /// The version of its lock, which its ids have.
    pub version: i64,
    /// How many publications there were when the lock was made.
    pub since: u64,
}

impl Model for Target {
    ghost use Rattle.book_rows.specs.Over.{Target as TargetRow};

    ghost Value = { TargetRow };

    ghost view = { λ a. record { span = a.span; lock = a.lock; version = a.version; since = a.since } };

    ghost inverse = { λ x. record { span = x.span; lock = x.lock; version = x.version; since = x.since } };
}
