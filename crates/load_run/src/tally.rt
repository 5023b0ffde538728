//! How many items were done, and how many refused.
ghost use Rattle.std.specs.Prelude.{◌+◌, ◌<◌, ◌^◌, ◌≡◌};
ghost use Rattle.load_run.specs.Loads.{counted, no_items};

/// How many items were done, and how many were refused.
#[derive(Clone, Copy, Debug, PartialEq, Eq)]
pub struct Tally {
    pub done: u64,
    pub refused: u64,
}

impl Tally {
    /// That of no items.
    pub fn none() -> Tally
        ensures { result ≡ no_items }
    {
        Tally {
            done: 0,
            refused: 0,
        }
    }

    /// With one item more, which was refused or done.
    pub fn counted(self, refused: bool) -> Tally
        requires { self.done + self.refused + 1 < 2 ^ 64 }
        ensures { result ≡ counted self refused }
    {
        if refused {
            Tally {
                done: self.done,
                refused: self.refused + 1,
            }
        } else {
            Tally {
                done: self.done + 1,
                refused: self.refused,
            }
        }
    }
}
