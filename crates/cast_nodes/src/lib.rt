//! One construct with its casts: the sites that stand at an expression or a statement without blocks, those of its parts' uses and its
//! own, and the node that it becomes over its parts. The contracts say that these are the values of definitions that compute as the code
//! does; that they are what the rules of casts put is shown here in proofs, and said by `cast_insert`.
#![tactic(auto)]

mod line_nodes;
mod nodes;
mod numbers;
mod sites;
mod slots;

pub use line_nodes::{line_node, put_line};
pub use nodes::{fit_all, node, part_at, site_at};
pub use sites::put_own;
pub use slots::{Slots, no_slots, put_casts, tested_site, with_slot};
