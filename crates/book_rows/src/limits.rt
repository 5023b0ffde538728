//! The limits of tables, lists and numbers. The definitions of the rules cite them.

/// The most rows of a table.
pub const ROW_LIMIT: usize = 262_144;

/// The most parts of a chunk.
pub const PART_LIMIT: u64 = 1_000_000;

/// Each number of a lock is below it, so that a JSON number says it exactly: 2^53.
pub const NUMBER_LIMIT: u64 = 9_007_199_254_740_992;

/// The most ids, spans, ranges or offsets of a list, and the most partitions or tasks of a supervisor.
pub const ITEM_LIMIT: usize = 4_096;

/// The most locks that a task waits for.
pub const WANT_LIMIT: usize = 64;

/// The most replicas of a group of a supervisor's tasks.
pub const REPLICA_LIMIT: u32 = 16;

/// The highest priority of a task.
pub const PRIORITY_LIMIT: u32 = 1_000_000;

/// The greatest number of a partition of a stream.
pub const PARTITION_LIMIT: u32 = 2_147_483_647;

/// The greatest offset in a partition.
pub const OFFSET_LIMIT: u64 = 9_223_372_036_854_775_807;
