// The one refusal: the width or the operation is out of range, or no run of the width gives the window.
ghost use Rattle.std.specs.Prelude.{◌≡◌, Some, codes};

use std::error::Error;
use std::fmt;

// Document 02's number of it, "window width".
const WINDOW_WIDTH: u8 = 18;

#[derive(Clone, Copy, Debug, PartialEq, Eq)]
pub struct Refusal;

impl From<Refusal> for u8 {
    ghost from_gives = { λ _ number. number ≡ 18 };

    fn from(_refusal: Refusal) -> u8 {
        WINDOW_WIDTH
    }
}

impl fmt::Display for Refusal {
    ghost output = { λ _. Some (codes "window width") };

    fn fmt<W: fmt::Write>(&self, f: &mut fmt::Formatter<W>) -> fmt::Result {
        write!(f, "window width")
    }
}

impl Error for Refusal {}
