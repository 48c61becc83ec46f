// Writing the result, once it is known to fit: the words of the configuration, with an edit's in the place of an engine's process.
ghost use Rattle.std.specs.Prelude.{◌≡◌};
ghost use Rattle.rules.specs.Storing.{storing};
ghost use Rattle.rules.specs.Editing.{made};
ghost use Rattle.stepping.specs.Writing.{written, reached, copy_w, process_w, value_w, store_w, lent_w, engine_w};

use crate::bundles::Change;
use layout::field::{high_word, low_word};
use layout::limit::{VALUES, VARIABLES};
use layout::number::further;
use rules::store::Store;
use writers::write::{copy, put};

// The output, and the place behind what is written.
#[derive(Drop)]
pub struct Output<'a> {
    pub words: &'a mut [u16],
    pub to: usize,
}

impl<'a> Output<'a> {
    // The words from..upto of ws.
    #[tactic(auto, unfolding(crate::specs::Writing::copy_w))]
    pub fn copy(&mut self, ws: &[u16], from: usize, upto: usize)
        ensures same_output { self.new.words.ghost_name ≡ self.old.words.ghost_name }
        ensures written { reached self.new ≡ copy_w ws.now from upto (reached self.old) }
    {
        self.to = copy(ws, from, upto, self.words, self.to);
    }

    // Variable x of the values that end here takes v, if there is one.
    #[tactic(auto, unfolding(crate::specs::Writing::value_w))]
    fn value(&mut self, x: usize, v: u32)
        ensures same_output { self.new.words.ghost_name ≡ self.old.words.ghost_name }
        ensures written { reached self.new ≡ written self.old.to (value_w self.old.words.now self.old.to x v) }
    {
        if VARIABLES <= x || self.to < VALUES || self.words.len() < self.to {
            return;
        }
        let at = self.to - VALUES + x * 2;
        put(self.words, at, high_word(v));
        put(self.words, at + 1, low_word(v));
    }

    // The variables of a store take their values, if the first is one.
    #[tactic(auto, using(crate::proofs::Turns::values_turn, crate::proofs::Turns::values_done, crate::proofs::Turns::values_all), unfolding(crate::specs::Writing::store_w))]
    fn store(&mut self, s: Store)
        ensures same_output { self.new.words.ghost_name ≡ self.old.words.ghost_name }
        ensures written { reached self.new ≡ written self.old.to (store_w self.old.words.now self.old.to (storing s)) }
    {
        if VARIABLES <= s[0].variable {
            return;
        }
        for taking in s {
            self.value(taking.variable, taking.value);
        }
    }

    // The output's part from here on is lent to the process writer.
    #[tactic(auto, unfolding(crate::specs::Writing::lent_w))]
    fn lend(&mut self, ws: &[u16], p: &Change)
        ensures same_output { self.new.words.ghost_name ≡ self.old.words.ghost_name }
        ensures written { reached self.new ≡ lent_w ws.now p.now.start p.now.end (made p.now.edit) p.now.fresh.now self.old.words.now self.old.to }
    {
        if self.words.len() < self.to {
            return;
        }
        let n = process_words(ws, p, &mut self.words[self.to..]);
        self.to = further(self.to, n);
    }

    // The words from the place given to where the process begins, which end in the engine's values, and its process.
    #[tactic(auto, unfolding(crate::specs::Writing::engine_w))]
    pub fn engine(&mut self, ws: &[u16], from: usize, p: &Change)
        ensures same_output { self.new.words.ghost_name ≡ self.old.words.ghost_name }
        ensures written { reached self.new ≡ engine_w ws.now from p.now.start p.now.end (made p.now.edit) p.now.fresh.now self.old.words.now self.old.to }
    {
        self.copy(ws, from, p.start);
        self.store(p.edit.store);
        self.lend(ws, p);
    }
}

// The process under an edit, into the output's part from where it begins: what the edit puts in front, up to its second fresh
// words, and what it puts behind.
#[tactic(auto, unfolding(crate::specs::Writing::process_w, crate::specs::Writing::front_w, crate::specs::Writing::back_w, crate::specs::Writing::copy_w))]
pub fn process_words(ws: &[u16], p: &Change, out: &mut [u16]) -> usize
    ensures place { result ≡ (process_w ws.now p.now.start p.now.end (made p.now.edit) p.now.fresh.now out.old).to }
    ensures written { out.new ≡ (process_w ws.now p.now.start p.now.end (made p.now.edit) p.now.fresh.now out.old).out }
{
    let edit = p.edit;
    let mut output = Output { words: out, to: 0 };
    output.copy(ws, p.start, edit.list);
    output.copy(p.fresh, 0, edit.listed);
    output.copy(ws, edit.past, edit.from);
    output.copy(p.fresh, edit.listed, edit.fresh);
    output.copy(ws, edit.upto, edit.gap);
    output.copy(ws, edit.end, p.end);
    output.to
}
