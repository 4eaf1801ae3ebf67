//! What a flow graph's edges weigh by the loops round them, and which of them are witnesses: the edges off a maximum spanning forest.
#![tactic(auto)]

mod all_depths;
mod back;
mod block_depth;
mod by_depth;
mod cells;
mod certifying;
mod checking;
mod edges;
mod farthest;
mod forest;
mod growing;
mod heads;
mod limit;
mod rows;
mod spans;
mod waiting;
mod weights;

pub use all_depths::depths;
pub use block_depth::depth;
pub use certifying::certificate;
pub use checking::{WorkRow, check_edges, check_forest};
pub use edges::edges_in;
pub use forest::{Forest, witnesses};
pub use limit::DEPTH_LIMIT;
pub use weights::Weights;
