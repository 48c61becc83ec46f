// An answer handed on to the window, and the question for an operation's faults.
ghost use Rattle.std.specs.Prelude.{◌≡◌};
ghost use Rattle.window.specs.Window.{next_number, next_window, count_of, number_as, count_as};
ghost use Rattle.window.specs.Entering.{IsAfter};

use crate::answer::{ACCEPTED, Answer, entry};
use crate::bounded::{Operation, Width, Within};
use crate::entries::Window;
use crate::layout::{WIDEST, WORDS};
use crate::refusal::Refusal;

// The words after an answer is handed on; none where it does not enter.
pub(crate) fn words_after(
    width: u16,
    answer: Answer,
    words: [u16; WORDS],
) -> Result<Option<[u16; WORDS]>, Refusal>
    ensures { IsAfter width answer words result }
{
    let width = Width::try_from(width)?;
    let operation = Operation::try_from(answer.operation)?;
    let mut window = Window::of(width, words)?;
    if answer.number != ACCEPTED {
        return Ok(None);
    }
    window.enter(width, entry(answer.fault, operation));
    Ok(Some(window.into_words()))
}

// The faults of an operation in the window that the words are.
pub(crate) fn count_among(operation: u16, words: [u16; WORDS]) -> Result<u16, Refusal>
    ensures { count_as result ≡ count_of operation words }
{
    let operation = Operation::try_from(operation)?;
    let widest = Within { number: WIDEST };
    let window = Window::of(widest, words)?;
    Ok(window.count(operation))
}

// Hands an answer on, and the window after it. It is refused if the width is not from 1 to 1,024, the operation is above 63 or the window is
// one that no run of this width gives. An answer whose number is not 0, and a refusal, change no word.
pub fn window_next(width: u16, answer: Answer, window: &mut [u16]) -> Result<(), Refusal>
    ensures number { number_as result ≡ next_number width answer window.old }
    ensures words { window.new ≡ next_window width answer window.old }
{
    let Some((words, _)) = window.split_first_chunk() else {
        return Err(Refusal);
    };
    if let Some(next) = words_after(width, answer, *words)? {
        window[..WORDS].copy_from_slice(&next);
    }
    Ok(())
}

// The faults of an operation in the window; refused if there is no such operation or the window is one that no run gives.
pub fn window_count(operation: u16, window: &[u16]) -> Result<u16, Refusal>
    ensures { count_as result ≡ count_of operation window.now }
{
    let Some((words, _)) = window.split_first_chunk() else {
        return Err(Refusal);
    };
    count_among(operation, *words)
}
