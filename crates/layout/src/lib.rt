// The room for the format: kinds, marks and expressions by name, the fields of heads and fixed words, the heads that rules write, where
// processes stand, keys, the limits, and small total functions on words and positions. The crates above ask for kinds, marks and
// fields here, but for those that read (`reading`, `noting`): they look kinds up by number and test what stands below a field, and so divide a
// head by `unit` themselves. Below, the fixed table of `sock` has the kinds in their order.
#![tactic(auto)]

pub mod context;
pub mod field;
pub mod head;
pub mod key;
pub mod killed;
pub mod kind;
pub mod limit;
pub mod mark;
pub mod number;
pub mod own;
pub mod refusal;
pub mod tag;
pub mod unit;
