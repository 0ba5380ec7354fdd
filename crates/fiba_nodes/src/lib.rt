//! B-trees of partial aggregates whose nodes lie in an arena, with 1 to 3 items each, as the tree
//! that FiBA stands on (Tangwongsan, Hirzel, Schneider, "Optimal and general out-of-order
//! sliding-window aggregation", VLDB 2019): the nodes, changes to a tree of them, and folds over it.
//!
//! *Stands on* `agg_laws` and `slab`. *Promise*: a node that is written or closed has its items and
//! children in their order and the aggregate that its place asks for, its children know it as their
//! parent, and all other nodes stay as they are. An item that is put, replaced or taken out changes
//! the list of pairs so and leaves a sound tree; a fold is that of the pairs of its range; and the
//! work grows with the height.
//!
//! A tree of height 0 is empty, whatever its number, so a leaf is a node like any other. All calls
//! that change a tree go one way: down to the place of the key, and on the way back each child that
//! was opened is closed again, as one node or two, or together with a neighbour where it has no
//! item left. What a node's aggregate covers goes by its place, so a tree whose edges leave out the
//! outermost children can stand on the same functions.
#![tactic(auto)]

mod applied;
mod applying;
mod bound;
mod change;
mod changed;
mod item;
mod leaf;
mod least;
mod nest;
mod node;
mod nodes;
mod open;
mod place;
mod root;
mod rooting;
mod row;
mod settling;
mod slot;
mod spans;
mod totals;
mod writing;

pub use applied::Applied;
pub use applying::{apply, apply_low};
pub use bound::Bound;
pub use change::Change;
pub use changed::Changed;
pub use item::Item;
pub use least::first_item;
pub use nest::Nest;
pub use node::Node;
pub use nodes::Nodes;
pub use open::Open;
pub use place::Place;
pub use root::Root;
pub use rooting::{change_root, plant};
pub use row::Row;
pub use settling::settle;
pub use slot::Slot;
pub use spans::fold_span;
pub use totals::{total_of, with_kid};
pub use writing::{close, create, write};
