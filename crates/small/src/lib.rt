// The swing bridge cabinet (document 02, i): the calls on words at its limits, 2,048 words and depth 32. Its configurations are the large cabinet's
// too. Nothing here decides: the calls are those of `reading`, `stepping` and `journal`, at limits and with scratch of its own.
#![tactic(auto)]

pub mod calls;
