// What a survey gives.
ghost use Rattle.std.specs.Prelude.{◌≡◌, ◌+◌, ◌-◌, ◌<◌, ◌≤◌, get_or, MatchOption};

use layout::limit::VALUES;

// How many engines there are, and where each one's process begins; behind the last, where the next would.
#[derive(Clone, Copy)]
pub struct Starts {
    pub engines: usize,
    pub starts: [usize; 9],
    pub ghost some: { 0 < engines },
    pub ghost few: { engines ≤ 8 },
}

impl Starts {
    // Where an engine's process begins and where it ends, before the next engine's values; none if there is no such engine.
    pub fn process(&self, e: usize) -> Option<(usize, usize)>
        ensures { MatchOption result (self.now.engines ≤ e) (λ p. (e < self.now.engines) × (p.0 ≡ get_or self.now.starts e 0) × (p.1 ≡ get_or self.now.starts (e + 1) 0 - 64)) }
    {
        if self.engines <= e {
            return None;
        }
        Some((self.starts[e], self.starts[e + 1].saturating_sub(VALUES)))
    }
}
