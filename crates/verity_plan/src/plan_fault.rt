//! Why there is no plan.

/// Why there is no plan.
#[derive(Clone, Copy, Debug, PartialEq, Eq)]
pub enum PlanFault {
    /// There is no data.
    NoData,
    /// The data area or the hash area would be larger than 2^63 - 1 bytes.
    TooLarge,
}
