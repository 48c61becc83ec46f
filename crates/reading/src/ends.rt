// Ends: how many waiting and working ends a serial has. They stand only enabled, so the walk goes where processes are enabled and
// passes over code by reading it.
ghost use Rattle.std.specs.Prelude.{ℕ, ◌≡◌, ◌<◌, ◌≤◌, length, get_or};
ghost use Rattle.sock.specs.Configuration.{standard};
ghost use Rattle.sock.specs.Calls as calls;
ghost use Rattle.reading.specs.Walk.{executor_own, process_end};
ghost use Rattle.reading.specs.Answers.{counts_in};
ghost use Rattle.reading.specs.Tally.{serial_at, seq_tally, par_tally, scope_tally, executor_tally, tally_at, total_from};

use crate::context::{CODE, RUNNING};
use crate::reader::Reader;
use crate::starts::Starts;
use crate::survey::survey;
use layout::context::ROOT;
use layout::kind::Kind;
use layout::limit::{DEEPEST, STANDARD};
use layout::number::{wide, word, word_of};
use layout::refusal::Refusal;
use layout::unit::WORD;

// Waiters, and executors plus notices, up to `end`.
#[derive(Clone, Copy)]
pub struct Counted {
    pub end: usize,
    pub waiters: usize,
    pub workers: usize,
}

// What the call answers: the two counts.
#[derive(Clone, Copy)]
pub struct EndCounts {
    pub waiters: u16,
    pub workers: u16,
}

// 1 if the end at `at` has the serial.
#[tactic(auto, unfolding(crate::specs::Tally::serial_at))]
fn serial_at(ws: &[u16], at: usize, serial: usize) -> usize
    requires { at < length ws.now }
    ensures { (result ≡ serial_at ws.now at serial) × (result ≤ 1) }
{
    usize::from(ws.get(at + 2).is_some_and(|w| serial == wide(*w)))
}

// What stays the same all through a tally: the reader, and the serial.
#[derive(Clone, Copy)]
struct Tally<'a> {
    reader: Reader<'a>,
    serial: usize,
    ghost short: { length reader.ws.now ≤ 65536 },
}

impl<'a> Tally<'a> {
    // The ends of the serial in the process at `at`.
    #[cycle(executor_par_scope_seq_tally)]
    #[tactic(auto, unfolding(crate::specs::Tally::tally_at, crate::specs::Tally::node_tally, crate::specs::Tally::counted), using(crate::proofs::Sets::running_is, crate::proofs::Sets::running_context))]
    fn tally(&self, at: usize, depth: usize) -> Option<Counted>
        ensures { result ≡ tally_at depth self.now.reader.ws.now self.now.serial self.now.reader.bound at }
    {
        if depth == 0 {
            return None;
        }
        if self.reader.ws.len() <= at {
            return None;
        }
        let d = depth - 1;
        match Kind::of(self.reader.ws[at]) {
            Kind::Seq => self.seq(at + 1, d),
            Kind::Par => self.par(at + 1, d),
            Kind::Scope => self.scope(at + 2, d),
            Kind::Executor => self.executor(at, d),
            Kind::Waiter => Some(Counted {
                end: self.reader.process(at, depth, RUNNING)?,
                waiters: serial_at(self.reader.ws, at, self.serial),
                workers: 0,
            }),
            Kind::Notice => Some(Counted {
                end: self.reader.process(at, depth, RUNNING)?,
                waiters: 0,
                workers: serial_at(self.reader.ws, at, self.serial),
            }),
            _ => Some(Counted {
                end: self.reader.process(at, depth, RUNNING)?,
                waiters: 0,
                workers: 0,
            }),
        }
    }

    // Of a seq only the first part is enabled.
    #[cycle(executor_par_scope_seq_tally)]
    #[tactic(auto, unfolding(crate::specs::Tally::seq_tally, crate::specs::Tally::counted, crate::specs::Tally::after), using(crate::proofs::Sets::code_is, crate::proofs::Sets::code_context))]
    fn seq(&self, at: usize, depth: usize) -> Option<Counted>
        ensures { result ≡ seq_tally (tally_at depth self.now.reader.ws.now self.now.serial self.now.reader.bound) (process_end depth self.now.reader.ws.now self.now.reader.bound) at }
    {
        let p = self.tally(at, depth)?;
        Some(Counted {
            end: self.reader.process(p.end, depth, CODE)?,
            ..p
        })
    }

    #[cycle(executor_par_scope_seq_tally)]
    #[tactic(auto, unfolding(crate::specs::Tally::par_tally, crate::specs::Tally::after), using(crate::proofs::Counting::par_below))]
    fn par(&self, at: usize, depth: usize) -> Option<Counted>
        ensures { result ≡ par_tally (tally_at depth self.now.reader.ws.now self.now.serial self.now.reader.bound) at }
    {
        let p = self.tally(at, depth)?;
        let q = self.tally(p.end, depth)?;
        Some(Counted {
            end: q.end,
            waiters: p.waiters + q.waiters,
            workers: p.workers + q.workers,
        })
    }

    // A scope's list, and its body.
    #[cycle(executor_par_scope_seq_tally)]
    #[tactic(auto, unfolding(crate::specs::Tally::scope_tally), using(crate::proofs::Sets::code_is, crate::proofs::Sets::code_context))]
    fn scope(&self, at: usize, depth: usize) -> Option<Counted>
        ensures { result ≡ scope_tally (tally_at depth self.now.reader.ws.now self.now.serial self.now.reader.bound) (process_end depth self.now.reader.ws.now self.now.reader.bound) self.now.reader.ws.now at }
    {
        let body = self.reader.list(at, depth, CODE, None)?;
        self.tally(body, depth)
    }

    #[cycle(executor_par_scope_seq_tally)]
    #[tactic(auto, unfolding(crate::specs::Tally::executor_tally, crate::specs::Tally::after), using(crate::proofs::Counting::executor_below))]
    fn executor(&self, at: usize, depth: usize) -> Option<Counted>
        requires { at < length self.now.reader.ws.now }
        ensures { result ≡ executor_tally (tally_at depth self.now.reader.ws.now self.now.serial self.now.reader.bound) self.now.reader.ws.now self.now.serial at (executor_own self.now.reader.ws.now self.now.reader.bound at) }
    {
        let body = self.reader.executor_own(at)?;
        let p = self.tally(body, depth)?;
        Some(Counted {
            workers: p.workers + serial_at(self.reader.ws, at, self.serial),
            ..p
        })
    }

    // The waiters and the workers of the serial in all engines.
    #[tactic(auto, unfolding(crate::specs::Tally::waiters_in, crate::specs::Tally::workers_in), using(crate::proofs::Counting::tally_below, crate::proofs::Counting::total_turn, crate::proofs::Counting::total_end, crate::proofs::Counting::front_length, crate::proofs::Counting::front_at))]
    fn total(&self, s: Starts, depth: usize) -> (usize, usize)
        ensures { result ≡ total_from (tally_at depth self.now.reader.ws.now self.now.serial self.now.reader.bound) s.starts s.engines 0 0 0 }
    {
        let mut waiters = 0;
        let mut workers = 0;
        for at in &s.starts[..s.engines] {
            if let Some(t) = self.tally(*at, depth) {
                waiters += t.waiters;
                workers += t.workers;
            }
        }
        (waiters, workers)
    }
}

// Ends: refused if the configuration is not readable, then if the serial is 0 or above issued.
#[tactic(auto, using(crate::proofs::Totals::ends_unread, crate::proofs::Totals::ends_unissued, crate::proofs::Totals::ends_counted))]
pub fn ends(ws: &[u16], serial: u16) -> Result<EndCounts, Refusal>
    ensures { counts_in result ≡ calls.ends standard ws.now serial }
{
    let s = survey(ws, STANDARD, ROOT).ok_or(Refusal::Unreadable)?;
    let issued = word(ws, 1);
    if !(1..=issued).contains(&serial) {
        return Err(Refusal::NoSerial);
    }
    let tally = Tally {
        reader: Reader {
            ws,
            bound: s.engines * WORD + wide(issued),
        },
        serial: wide(serial),
    };
    let (waiters, workers) = tally.total(s, DEEPEST);
    // There are no more ends than words, so neither count is cut.
    Ok(EndCounts {
        waiters: word_of(waiters),
        workers: word_of(workers),
    })
}
