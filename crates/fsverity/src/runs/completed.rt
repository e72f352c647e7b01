//! What only a run that is done answers.

/// What a run answers when all is done, or a `Done` that holds it. Only the runs make such a value, and `end_run` makes a
/// status 0 of nothing else; so no step between a command line and its run can say that all is done without one.
pub(crate) trait Completed {}
