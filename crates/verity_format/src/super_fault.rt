//! Why some bytes are not a superblock.

/// The first test that bytes fail as a superblock, in this order (cryptsetup's on-disk format page, "dm-verity
/// header").
#[derive(Clone, Copy, Debug, PartialEq, Eq)]
pub enum SuperFault {
    /// There are fewer than 512 bytes.
    Short,
    /// The first eight bytes are not `verity` and two zeros.
    Signature,
    /// The version is this number and not 1.
    Version(u32),
    /// No hash type has this number.
    HashType(u32),
    /// The data block size is this number: no power of two, or not from 512 to 524288.
    DataBlockSize(u32),
    /// The hash block size is this number: no power of two, or not from 512 to 524288.
    HashBlockSize(u32),
    /// The name is not that of a known algorithm.
    Algorithm,
    /// The salt size is this number, above 256.
    SaltSize(u16),
    /// There are no data blocks.
    NoData,
    /// The data has more than 2^63 - 1 bytes.
    TooLarge,
}
