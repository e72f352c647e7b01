//! Why the options are refused.

/// The first option that is refused, in this order.
#[derive(Clone, Copy, Debug, PartialEq, Eq)]
pub enum FsOptionFault {
    /// fs-verity has no hash algorithm of this name.
    UnknownHash,
    /// The block size is not a number, or not a power of two from twice the digest's length to 524288.
    BadBlockSize,
    /// The salt is not an even number of hexadecimal digits, or is longer than 32 bytes.
    BadSalt,
    /// An output file is named, and more than one input file.
    OneFileOnly,
}
