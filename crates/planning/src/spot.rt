// Where a rewriting has come to.
ghost use Rattle.std.specs.Prelude.{◌≡◌, ◌<◌, ◌+◌};

// Where the reading and the writing have come to, and whether cH was met free in a fixed scope's own handlers.
#[derive(Clone, Copy)]
pub(crate) struct Spot {
    pub(crate) at: usize,
    pub(crate) to: usize,
    pub(crate) caught: bool,
    ghost begun: { 0 < at },
}

impl Spot {
    // One word read, the next written at `to`.
    pub(crate) fn next(self, to: usize) -> Spot
        requires { self.at < 18446744073709551615 }
        ensures { (result.at ≡ self.at + 1) × (result.to ≡ to) × (result.caught ≡ self.caught) }
    {
        Spot {
            at: self.at + 1,
            to,
            caught: self.caught,
        }
    }

    // The same place of reading, another of writing.
    pub(crate) fn writing(self, to: usize) -> Spot
        ensures { (result.at ≡ self.at) × (result.to ≡ to) × (result.caught ≡ self.caught) }
    {
        Spot {
            at: self.at,
            to,
            caught: self.caught,
        }
    }
}
