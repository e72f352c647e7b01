//! What the library for C answers: its structs, its faults with their statuses and texts, the definitions of what each
//! of its calls answers, and the laws of these answers. The calls themselves are in `verity_c`, a static library, which
//! no other crate can use.
#![tactic(auto)]

mod build;
mod fault;
pub mod laws;
mod parameters;

pub use build::{VerityBuild, VerityFed, VerityJoin, VerityPart};
pub use fault::{DONE, Fault, link_status, path_status};
pub use parameters::{FsverityParams, VerityParams};
