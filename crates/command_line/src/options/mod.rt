//! What the texts of options mean.

pub(crate) mod algorithms;
pub(crate) mod numbers;
pub(crate) mod salts;
