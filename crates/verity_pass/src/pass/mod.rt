//! The one pass over the data, which building and comparing share.

pub(crate) mod comparing;
pub(crate) mod on_closed;
pub(crate) mod one_pass;
pub(crate) mod pass_fault;
pub(crate) mod reading;
pub(crate) mod writing;
