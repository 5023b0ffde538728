//! What is kept of a lock while ids are checked.

/// A lock, and whether a task is a member of it.
#[derive(Clone, Copy)]
pub struct Membership {
    /// The lock's number.
    pub lock: u64,
    /// Whether the task is a member.
    pub is_member: bool,
}
