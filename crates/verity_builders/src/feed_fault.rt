//! Why a builder takes no more bytes, or has no root hash or last hash block.

/// Why a builder takes no more bytes, has no root hash yet, or can't name its last hash block.
#[derive(Clone, Copy, Debug, PartialEq, Eq)]
pub enum FeedFault {
    /// There are more bytes than the plan wants, or than a part has; of a join, more digests than there are parts.
    TooLong,
    /// The bytes end before the end of this data block, counted from 0, of a part within the part. Of a join: this many
    /// digests came, fewer than there are parts.
    TooShort(u64),
    /// There are more bytes than a tree can stand above.
    TooLarge,
    /// A hash block that has closed was not handed out yet: feed is to be called again.
    Waiting,
    /// The builder isn't one that the calls before left: more levels have closed than the tree has, or, of a join, none
    /// although all digests came; or the tree has no such level or part.
    Level,
}
