//! The steps by which every tree of block hashes is made, whoever brings the data: hash blocks are open, one a level, take
//! the digests of what stands below, and close. With the definitions of trees that all else speaks of.
#![tactic(auto)]

mod closing;
mod hash_block;
mod known_zeros;
pub mod laws;
mod open_blocks;
mod plans;
mod side_by_side;
mod window;

pub use closing::{
    Progress, close_next, digest_at_the_top, handed_out, last_block_of_fed, most_closed,
    root_of_fed,
};
pub use hash_block::HashBlock;
pub use known_zeros::KnownZeros;
pub use open_blocks::{add_digest, carry_up};
pub use plans::planned;
pub use window::window_length;
