// What the step hands on in one: the numbers of a call, the engines of a configuration, a process found in one of them, and what becomes of it.
ghost use Rattle.std.specs.Prelude.{◌≡◌, ◌≤◌};
ghost use Rattle.layout.specs.Kinds.{number_of};
ghost use Rattle.rules.specs.Editing.{made};
ghost use Rattle.stepping.specs.Answering.{changing, changed};
ghost use Rattle.stepping.specs.Bundles.{engines_of, placed, bound_of, start_at, side_of, met, encounter_of};

use finding::find::Site;
use layout::kind::Kind;
use layout::limit::VALUES;
use layout::number::wide;
use layout::unit::WORD;
use reading::starts::Starts;
use rules::edit::Edit;
pub use rules::edit::Side;

// Engine and position of the process that moves; a second engine, a position there, and a branch.
#[derive(Clone, Copy)]
pub struct Numbers {
    pub engine: u16,
    pub position: u16,
    pub second: u16,
    pub second_position: u16,
    pub branch: u16,
}

// How many engines there are and where each one's process begins, and the serials issued.
#[derive(Clone, Copy)]
pub struct Engines {
    pub found: Starts,
    pub issued: u16,
}

impl Engines {
    // Where an engine's process begins; 0 for one beyond those that a survey has places for.
    pub fn start(self, e: usize) -> usize
        ensures { result ≡ start_at (engines_of self) e }
    {
        self.found.starts.get(e).copied().unwrap_or(0)
    }

    // As plain numbers.
    pub fn places(self) -> Places
        ensures { placed result ≡ engines_of self }
    {
        let starts = self.found.starts;
        Places {
            count: self.found.engines,
            issued: self.issued,
            starts,
        }
    }
}

// The same as plain numbers, of which nothing is known: they need not be a survey's.
#[derive(Clone, Copy)]
pub struct Places {
    pub count: usize,
    pub issued: u16,
    pub starts: [usize; 9],
}

impl Places {
    fn start(self, e: usize) -> usize
        ensures { result ≡ start_at (placed self) e }
    {
        self.starts.get(e).copied().unwrap_or(0)
    }
}

// The bound of engines and serials, as the reader takes it.
pub fn bound(g: Places) -> usize
    requires { g.count ≤ 8 }
    ensures { result ≡ bound_of (placed g) }
{
    g.count * WORD + wide(g.issued)
}

pub fn side_in(g: Places, engine: u16, site: Site) -> Side
    ensures { result ≡ side_of (placed g) engine site }
{
    let e = wide(engine);
    Side {
        start: g.start(e),
        end: g.start(e + 1).saturating_sub(VALUES),
        site,
    }
}

// An engine's process start..end, and the edit of it with its fresh words.
#[derive(Clone, Copy)]
pub struct Change<'a> {
    pub start: usize,
    pub end: usize,
    pub edit: Edit,
    pub fresh: &'a [u16],
}

// What becomes of the process of a side.
pub(crate) fn changed<'a>(side: Side, edit: Edit, fresh: &'a [u16]) -> Change<'a>
    ensures change { changing result ≡ changed side.start side.end (made edit) }
    ensures fresh { result.fresh.now ≡ fresh.now }
{
    Change {
        start: side.start,
        end: side.end,
        edit,
        fresh,
    }
}

// Two processes that may exchange something: the kind of the one that sends, both engines, the branch, and where the two were found.
#[derive(Clone, Copy)]
pub struct Encounter {
    pub kind: Kind,
    pub engine: u16,
    pub second: u16,
    pub branch: usize,
    pub sender: Side,
    pub receiver: Side,
}

pub fn meeting_of(g: Places, k: Numbers, kind: Kind, a: Site, b: Site) -> Encounter
    ensures { met result ≡ encounter_of (placed g) k (number_of kind) a b }
{
    let sender = side_in(g, k.engine, a);
    let receiver = side_in(g, k.second, b);
    let branch = wide(k.branch);
    Encounter {
        kind,
        engine: k.engine,
        second: k.second,
        branch,
        sender,
        receiver,
    }
}
