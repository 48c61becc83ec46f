// Where a process stands, as the set of the kinds that may stand there: of what runs, of code, and of code that may hold cH; each with nil and
// without. A root, and what begins a branch, are told before (`reader`).
ghost use Rattle.std.specs.Prelude.{◌≡◌, ◌+◌, ◌<◌, ◌%◌, ◌/◌, ◌^◌, eqb, leb};
ghost use Rattle.reading.specs.Sets.{kinds_in, context_in};
ghost use Rattle.layout.specs.Contexts.{not_nil, code, handlers, running};
ghost use Rattle.reading.specs.Walk.{context_of, rest_of};

// Bit k for kind k; the lowest bit is nil's.
#[derive(Clone, Copy)]
pub struct Context {
    pub kinds: usize,
    pub ghost known: { kinds ≡ kinds_in (context_in kinds) },
}

pub const CODE: Context = Context { kinds: 32767 };

pub const HANDLERS: Context = Context { kinds: 65535 };

pub const RUNNING: Context = Context { kinds: 491519 };

// What runs and is not nil.
pub const ENABLED: Context = Context { kinds: 491518 };

// All kinds that are code.
const CODES: usize = 65536;

impl Context {
    // Whether a kind may stand here.
    pub(crate) fn has(self, kind: usize) -> bool
        requires { kind < 32 }
        ensures { result ≡ eqb (self.kinds / 2 ^ kind % 2) 1 }
    {
        (self.kinds >> kind) % 2 == 1
    }

    // The context of a part that runs where its node does.
    #[tactic(auto, using(crate::proofs::Sets::anywhere_known, crate::proofs::Sets::anywhere_in))]
    pub fn anywhere(self) -> Context
        ensures { context_in result.kinds ≡ context_of (context_in self.kinds) }
    {
        Context {
            kinds: self.kinds / 2 * 2 + 1,
        }
    }

    // The same, but it is not nil.
    #[tactic(auto, using(crate::proofs::Sets::not_nil_known, crate::proofs::Sets::not_nil_in))]
    pub fn not_nil(self) -> Context
        ensures { context_in result.kinds ≡ context_of (context_in self.kinds) + not_nil }
    {
        Context {
            kinds: self.kinds / 2 * 2,
        }
    }

    // The context of a part that is code in any case.
    #[tactic(auto, using(crate::proofs::Sets::code_known, crate::proofs::Sets::code_in))]
    pub fn code(self) -> Context
        ensures { context_in result.kinds ≡ rest_of (context_in self.kinds) }
    {
        Context {
            kinds: self.kinds / 2 * 2 % CODES + 1,
        }
    }

    // Whether what stands here runs.
    #[tactic(auto, using(crate::proofs::Sets::runs_in))]
    pub fn runs(self) -> bool
        ensures { result ≡ leb running (context_in self.kinds) }
    {
        CODES <= self.kinds
    }
}
