//! How far a tree is built, and what a call has handed out.

/// How far a dm-verity tree is built: `struct verity_build` of verity.h. Any numbers may stand in it; each call checks
/// them.
#[repr(C)]
#[derive(Clone, Copy)]
pub struct VerityBuild {
    /// How many bytes were fed.
    pub fed: u64,
    /// Of how many levels the hash blocks above the latest byte were handed out since it was fed.
    pub closed: usize,
}

/// How far a part of a tree is built: `struct verity_part` of verity.h. Any numbers may stand in it; each call checks
/// them.
#[repr(C)]
#[derive(Clone, Copy)]
pub struct VerityPart {
    /// The level whose part it is, counted from 0 next to the data: the part has the levels below.
    pub level: usize,
    /// Its number in the level, counted from 0.
    pub part: u64,
    /// How many of its bytes were fed.
    pub fed: u64,
    /// Of how many levels the hash blocks above the latest byte were handed out since it was fed.
    pub closed: usize,
}

/// How far the parts of a level are joined: `struct verity_join` of verity.h. Any numbers may stand in it; each call
/// checks them.
#[repr(C)]
#[derive(Clone, Copy)]
pub struct VerityJoin {
    /// The level whose parts are joined, counted from 0 next to the data: the join has this level and those above.
    pub level: usize,
    /// How many digests were taken.
    pub taken: u64,
    /// Of how many levels the hash blocks above the latest digest were handed out since it was taken.
    pub closed: usize,
}

/// How much of a piece was taken, and the hash block that is handed out: `struct verity_fed` of verity.h.
#[repr(C)]
#[derive(Clone, Copy)]
pub struct VerityFed {
    /// How many bytes of the piece, or of the digests, were taken.
    pub taken: usize,
    /// The length of the hash block that is handed out, in bytes: 0 if none is, and then the numbers below are 0 too.
    pub block_length: usize,
    /// The byte of the memory at which it stands until bytes are taken or the next one is handed out.
    pub block_at: usize,
    /// The byte of the hash device or of the file's tree at which it goes; 0 if that isn't known.
    pub block_start: u64,
    /// Its number in its level, counted from 0.
    pub block_index: u64,
    /// Its level, counted from 0 next to the data.
    pub block_level: usize,
}
