//! Why no tree can be made by some parameters.

/// The first parameter that no tree can be made by.
#[derive(Clone, Copy, Debug, PartialEq, Eq)]
pub enum SettingFault {
    /// fs-verity does not know the algorithm.
    Algorithm,
    /// The data block size is no power of two, or past its limits.
    DataBlockSize,
    /// The hash block size is no power of two, or past its limits.
    HashBlockSize,
    /// The salt is too long.
    SaltSize,
}
