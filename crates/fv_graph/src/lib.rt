//! Finite graphs: an order of the nodes in which each comes after all that its edges lead to, what
//! is made along that order, and the trees that nodes unfold to.
#![tactic(auto)]

mod edges;
mod flatten;
mod laws;
mod search;
mod tables;
mod weighing;

pub use edges::are_within;
pub use flatten::{Hand, Spot, preorder};
pub use laws::{tree_len, tree_unfolds, unfolds, unfolds_at, weight_unfolds, weight_unfolds_at};
pub use search::{order, order_rest};
pub use tables::{Combine, table};
pub use weighing::{capped_sum, weigh, weigh_all};
