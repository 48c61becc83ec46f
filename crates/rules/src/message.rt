// The variables of a message: lists of one to four, whose first variable stands in the head of the process and the others behind the list's
// count. For each of the three messages that carry values: where the two lists stand, whether they have as many variables, and what the
// receiver takes.
ghost use Rattle.std.specs.Prelude.{◌≡◌};
ghost use Rattle.rules.specs.Storing.{storing};
ghost use Rattle.rules.specs.Messages.{listed_w, taking_w, carried_w, alike_w, hears_w, heard_w, serves_w, served_w, answers_w, answered_w};

use crate::store::{NO_VARIABLE, Store, Taking};
use evaluating::evaluate::variable;
use layout::field::{first_variable, second_of};
use layout::number::{further, wide, word};
use layout::own::variables_end;
use std::array;

// The words that the sender begins, the values of its engine's variables, and the words in which the receiver stands.
#[derive(Clone, Copy)]
pub struct Message<'a> {
    pub part: &'a [u16],
    pub values: &'a [u16],
    pub other: &'a [u16],
}

// Variable i, from 0 on, of the process at `at` whose list has its count at `count`.
#[tactic(auto, unfolding(crate::specs::Messages::listed_w))]
fn listed(ws: &[u16], at: usize, count: usize, i: usize) -> usize
    ensures { result ≡ listed_w ws.now at count i }
{
    if i == 0 {
        return second_of(word(ws, at));
    }
    if wide(word(ws, count)) <= i {
        return NO_VARIABLE;
    }
    first_variable(word(ws, further(count, i)))
}

impl<'a> Message<'a> {
    // Variable i of the receiver takes the value of variable i of the sender.
    #[tactic(auto, unfolding(crate::specs::Messages::taking_w))]
    fn taking(&self, sent: usize, at: usize, heard: usize, i: usize) -> Taking
        ensures { result ≡ taking_w self.now.part.now sent self.now.values.now self.now.other.now at heard i }
    {
        let x = listed(self.other, at, heard, i);
        let y = listed(self.part, 0, sent, i);
        Taking {
            variable: x,
            value: variable(self.values, y),
        }
    }

    // What the receiver at `at` takes; `sent` and `heard` are the positions of the two counts.
    #[tactic(auto, unfolding(crate::specs::Messages::carried_w))]
    fn carried(&self, sent: usize, at: usize, heard: usize) -> Store
        ensures { storing result ≡ carried_w self.now.part.now sent self.now.values.now self.now.other.now at heard }
    {
        array::from_fn(|i| self.taking(sent, at, heard, i))
    }

    // Whether the two lists have as many variables, by the positions of their counts.
    #[tactic(auto, unfolding(crate::specs::Messages::alike_w))]
    fn alike(&self, sent: usize, heard: usize) -> bool
        ensures { result ≡ alike_w self.now.part.now sent self.now.other.now heard }
    {
        word(self.part, sent) == word(self.other, heard)
    }

    // A notify in the one-way at `guard`.
    #[tactic(auto, unfolding(crate::specs::Messages::hears_w))]
    pub fn hears(&self, guard: usize) -> bool
        ensures { result ≡ hears_w self.now.part.now self.now.other.now guard }
    {
        self.alike(2, further(guard, 1))
    }

    #[tactic(auto, unfolding(crate::specs::Messages::heard_w))]
    pub fn heard(&self, guard: usize) -> Store
        ensures { storing result ≡ heard_w self.now.part.now self.now.values.now self.now.other.now guard }
    {
        self.carried(2, guard, further(guard, 1))
    }

    // A solicit in the request at `guard`: its y are for the request's x, and it wants for its x what the request has in y.
    #[tactic(auto, unfolding(crate::specs::Messages::serves_w))]
    pub fn serves(&self, guard: usize) -> bool
        ensures { result ≡ serves_w self.now.part.now self.now.other.now guard }
    {
        let asked = further(guard, 2);
        let wanted = variables_end(self.part, 2);
        let offered = variables_end(self.other, asked);
        if self.alike(2, asked) {
            return self.alike(wanted, offered);
        }
        false
    }

    #[tactic(auto, unfolding(crate::specs::Messages::served_w))]
    pub fn served(&self, guard: usize) -> Store
        ensures { storing result ≡ served_w self.now.part.now self.now.values.now self.now.other.now guard }
    {
        self.carried(2, guard, further(guard, 2))
    }

    // An executor's reply in the waiter that begins the words `other`.
    #[tactic(auto, unfolding(crate::specs::Messages::answers_w))]
    pub fn answers(&self) -> bool
        ensures { result ≡ answers_w self.now.part.now self.now.other.now }
    {
        self.alike(3, 3)
    }

    #[tactic(auto, unfolding(crate::specs::Messages::answered_w))]
    pub fn answered(&self) -> Store
        ensures { storing result ≡ answered_w self.now.part.now self.now.values.now self.now.other.now }
    {
        self.carried(3, 0, 3)
    }
}
