//! Trees of block hashes built, or compared with stored ones, in one pass over the data; and single blocks checked by the
//! hash blocks above them.
#![tactic(auto)]

mod building;
mod comparing;
pub mod laws;
mod link;
mod part;
mod pass;
mod path;
mod plain_root;
mod store;

pub use building::{BuildFault, build, root_only};
pub use comparing::{CompareFault, compare};
pub use link::{LinkFault, check_link, check_top};
pub use part::Part;
pub use path::{PathFault, check_block};
pub use plain_root::root_by_levels;
pub use store::Store;
