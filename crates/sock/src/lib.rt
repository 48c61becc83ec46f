// The fixed table of the nineteen kinds, for code: what follows each one's head.
#![tactic(auto)]

ghost use Rattle.std.specs.Prelude.{◌≡◌};
ghost use Rattle.sock.specs.Counts.{counts_of};

// How many fixed words, lists of variables, expressions, lists and processes follow the head of a kind; for a choice, processes per branch.
#[derive(Clone, Copy)]
pub struct Counts {
    pub fixed: u8,
    pub variables: u8,
    pub expressions: u8,
    pub lists: u8,
    pub processes: u8,
}

const KINDS: [Counts; 19] = [
    Counts {
        fixed: 0,
        variables: 0,
        expressions: 0,
        lists: 0,
        processes: 0,
    },
    Counts {
        fixed: 0,
        variables: 0,
        expressions: 1,
        lists: 0,
        processes: 0,
    },
    Counts {
        fixed: 0,
        variables: 0,
        expressions: 0,
        lists: 0,
        processes: 2,
    },
    Counts {
        fixed: 0,
        variables: 0,
        expressions: 0,
        lists: 0,
        processes: 2,
    },
    Counts {
        fixed: 0,
        variables: 0,
        expressions: 1,
        lists: 0,
        processes: 2,
    },
    Counts {
        fixed: 0,
        variables: 0,
        expressions: 1,
        lists: 0,
        processes: 1,
    },
    Counts {
        fixed: 0,
        variables: 0,
        expressions: 0,
        lists: 0,
        processes: 2,
    },
    Counts {
        fixed: 0,
        variables: 1,
        expressions: 0,
        lists: 0,
        processes: 0,
    },
    Counts {
        fixed: 1,
        variables: 2,
        expressions: 0,
        lists: 0,
        processes: 1,
    },
    Counts {
        fixed: 1,
        variables: 1,
        expressions: 0,
        lists: 0,
        processes: 0,
    },
    Counts {
        fixed: 1,
        variables: 2,
        expressions: 0,
        lists: 1,
        processes: 0,
    },
    Counts {
        fixed: 1,
        variables: 0,
        expressions: 0,
        lists: 1,
        processes: 1,
    },
    Counts {
        fixed: 0,
        variables: 0,
        expressions: 0,
        lists: 1,
        processes: 0,
    },
    Counts {
        fixed: 0,
        variables: 0,
        expressions: 0,
        lists: 0,
        processes: 0,
    },
    Counts {
        fixed: 0,
        variables: 0,
        expressions: 0,
        lists: 0,
        processes: 0,
    },
    Counts {
        fixed: 0,
        variables: 0,
        expressions: 0,
        lists: 0,
        processes: 0,
    },
    Counts {
        fixed: 2,
        variables: 1,
        expressions: 0,
        lists: 0,
        processes: 1,
    },
    Counts {
        fixed: 2,
        variables: 1,
        expressions: 0,
        lists: 1,
        processes: 0,
    },
    Counts {
        fixed: 2,
        variables: 0,
        expressions: 0,
        lists: 0,
        processes: 0,
    },
];

pub fn counts_of(kind: usize) -> Counts
    ensures { result ≡ counts_of kind }
{
    if kind < 19 {
        KINDS[kind]
    } else {
        Counts {
            fixed: 0,
            variables: 0,
            expressions: 0,
            lists: 0,
            processes: 0,
        }
    }
}
