// Limits that fuel and scratch are made for, up to the standard ones, and how short a configuration is that less serves.
ghost use Rattle.std.specs.Prelude.{◌≤◌};

use layout::limit::{self, Limits};

#[derive(Clone, Copy)]
pub struct Modest {
    pub limits: Limits,
    pub ghost low: { limits.deepest ≤ 64 },
    pub ghost few: { limits.longest ≤ 8192 },
}

// A short configuration has so many words at most.
pub const SHORT: usize = 512;

pub const STANDARD: Modest = Modest {
    limits: limit::STANDARD,
};

pub const SMALL: Modest = Modest {
    limits: limit::SMALL,
};
