//! Runs a machine on items, batch by batch, with a journal of its changes in a store.
#![tactic(auto)]

mod feed;
mod filling;
mod journal;
mod line_run;
mod lines;
mod machine;
mod one_log;
mod opening;
mod run;
mod running;
mod saying;
mod stop;
mod storing;

pub use feed::Feed;
pub use filling::{BATCH_BYTES, End};
pub use journal::Journal;
pub use line_run::run_lines;
pub use lines::{Line, LineFeed};
pub use machine::Machine;
pub use one_log::OneLog;
pub use opening::open_store;
pub use run::run_store;
pub use running::answer_items;
pub use stop::{Bounds, Stop};
pub use storing::store_batch;
