//! What words ask for.

/// What the words ask for.
#[derive(Clone, Copy, Debug, PartialEq, Eq)]
pub enum Form<'a> {
    /// `run STORE`: to run the lines of the input against a store.
    Run(&'a str),
    /// `load NUMBER BLOCKS STORE`: to run the commands of a generated load against a store.
    Load {
        /// The number that the load is generated from.
        number: u64,
        /// How many blocks it has, from 1 to 50,000.
        blocks: u64,
        store: &'a str,
    },
}
