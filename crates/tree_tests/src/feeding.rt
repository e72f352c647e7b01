//! Trees that are built as pieces of their data come, beside trees made from plain lists of bytes.
use crate::cases::{AFTER, BEFORE, Case, PADDED, Row, SHA1, SHA224, SHA256, SHA384, SHA512};
use crate::trees::small;
use fixtures::same;
use std::alloc::Global;
use std::test::Fail;
use verity_hash::{Algorithm, Digest};
use verity_io::MOST_BYTES;
use verity_tree::{
    Device, Fed, FeedFault, FileBuilder, HashBlock, MemoryDevice, Plan, TreeBuilder, TreeSettings,
};

/// Powers of the fan-out, a block more and less, a single block, and a last block that isn't full; plain and salted,
/// and hashed alone and side by side.
pub const SHAPES: [Row; 11] = [
    (BEFORE, SHA256, b"", (512, 512), (16, 32), (512, 0)),
    (BEFORE, SHA256, b"", (512, 512), (16, 32), (8192, 1)),
    (BEFORE, SHA256, b"salt", (512, 512), (16, 32), (8704, 2)),
    (BEFORE, SHA1, b"", (512, 512), (16, 32), (8192, 1)),
    (AFTER, SHA384, b"salt", (512, 1024), (16, 48), (9216, 2)),
    (BEFORE, SHA224, b"salt", (1024, 512), (16, 32), (15_360, 1)),
    (BEFORE, SHA512, b"salt", (4096, 512), (8, 64), (40_960, 2)),
    (PADDED, SHA256, b"salt", (512, 512), (16, 32), (1, 0)),
    (PADDED, SHA256, b"", (64, 64), (2, 32), (1024, 4)),
    (PADDED, SHA256, b"salt", (64, 64), (2, 32), (1025, 5)),
    (PADDED, SHA512, b"salt", (128, 128), (2, 64), (1153, 4)),
];

/// The lengths of pieces: fewer bytes than a block, a block, more, all at once, and 0 for lengths that change.
const PIECES: [usize; 8] = [1, 7, 512, 4095, 4096, 4097, 50_000, 0];

/// Trees of several windows, of eight data blocks, of four and of one, and about the end of a window.
const WINDOWS: [Row; 7] = [
    (BEFORE, SHA256, b"", (512, 512), (16, 32), (66_048, 2)),
    (PADDED, SHA256, b"salt", (512, 512), (16, 32), (4097, 1)),
    (PADDED, SHA256, b"", (4096, 4096), (128, 32), (32_767, 1)),
    (PADDED, SHA256, b"", (4096, 4096), (128, 32), (32_768, 1)),
    (PADDED, SHA256, b"", (4096, 4096), (128, 32), (98_305, 1)),
    (
        BEFORE,
        SHA256,
        b"",
        (131_072, 4096),
        (128, 32),
        (655_361, 1),
    ),
    (
        BEFORE,
        SHA256,
        b"",
        (524_288, 4096),
        (128, 32),
        (1_048_577, 1),
    ),
];

/// The lengths of their pieces: about those of a sector, a page and a window, some windows, and all at once.
const LENGTHS: [usize; 13] = [
    511, 512, 513, 4095, 4096, 4097, 32_767, 32_768, 32_769, 98_304, 524_288, 524_289, 2_000_000,
];

/// The length of the next piece: this one, or for 0 one below 5000, another at each step, and 0 at every fourth.
pub fn next_length(piece: usize, step: usize) -> usize {
    if piece > 0 {
        return piece;
    }
    if step % 4 == 0 {
        return 0;
    }
    step.wrapping_mul(2_654_435_761) % 5000
}

/// Writes a hash block that was handed out at its place.
fn write(to: &mut MemoryDevice, memory: &[u8], block: HashBlock, size: usize) -> Result<(), Fail> {
    let Some(bytes) = memory.get(block.at..block.at.saturating_add(size)) else {
        return Err("a hash block outside the memory".into());
    };
    match block.start.checked_add(bytes.len() as u64) {
        Some(end) if end <= MOST_BYTES => {}
        _ => return Err("a hash block too far out".into()),
    }
    let written = to.write_at(block.start, bytes);
    Ok(written.map_err(|_| "cannot write")?)
}

/// A builder that is fed in pieces and hands out the hash blocks of a plan. Memory of another length than it wants is
/// an error.
pub trait Builder {
    /// Feeds a piece.
    fn take(&mut self, memory: &mut [u8], piece: &[u8]) -> Result<Fed, Fail>;

    /// The hash block that was handed out last.
    fn last(&self) -> Result<Option<HashBlock>, FeedFault>;

    /// The digest at the end.
    fn digest(&self, memory: &mut [u8]) -> Result<Digest, Fail>;
}

impl Builder for TreeBuilder {
    fn take(&mut self, memory: &mut [u8], piece: &[u8]) -> Result<Fed, Fail> {
        if memory.len() != TreeBuilder::memory_length(&self.plan) {
            return Err("another length".into());
        }
        Ok(self.feed(memory, piece)?)
    }

    fn last(&self) -> Result<Option<HashBlock>, FeedFault> {
        self.last_block()
    }

    fn digest(&self, memory: &mut [u8]) -> Result<Digest, Fail> {
        if memory.len() != TreeBuilder::memory_length(&self.plan) {
            return Err("another length".into());
        }
        Ok(self.end(memory)?)
    }
}

/// The root hash of what was fed of a file, with memory of the right length.
pub fn end_file(builder: &FileBuilder, memory: &mut [u8]) -> Result<Digest, Fail> {
    if memory.len() != FileBuilder::memory_length(&builder.settings) {
        return Err("another length".into());
    }
    Ok(builder.end(memory)?)
}

/// Feeds a piece of a file, in memory of the right length.
pub fn feed_file(builder: &mut FileBuilder, memory: &mut [u8], piece: &[u8]) -> Result<(), Fail> {
    if memory.len() != FileBuilder::memory_length(&builder.settings) {
        return Err("another length".into());
    }
    Ok(builder.feed(memory, piece)?)
}

/// Feeds some bytes in pieces of a length, in so many steps at most, with each hash block of a size written as it is
/// handed out, and named again by the builder. The last of them, if nothing was fed after it.
pub fn feed_all<B: Builder>(
    builder: &mut B,
    memory: &mut [u8],
    bytes: &[u8],
    (piece, steps): (usize, usize),
    size: usize,
    device: &mut MemoryDevice,
) -> Result<Option<HashBlock>, Fail> {
    let (mut rest, mut last) = (bytes, None);
    for step in 0..steps {
        let next = &rest[..next_length(piece, step).min(rest.len())];
        let fed = builder.take(memory, next)?;
        rest = rest.get(fed.taken..).ok_or("more than there are")?;
        if fed.hash_block.is_some() || fed.taken > 0 {
            last = fed.hash_block;
        }
        if builder.last()? != last {
            return Err("another last hash block".into());
        }
        match fed.hash_block {
            Some(block) => write(device, memory, block, size)?,
            None if rest.is_empty() => break,
            None => {}
        }
    }
    Ok(last)
}

/// The digest of some data that is fed in pieces by `feed_all`. It is asked for twice.
pub fn digest_of<B: Builder>(
    builder: &mut B,
    memory: &mut [u8],
    data: &[u8],
    piece: usize,
    size: usize,
    device: &mut MemoryDevice,
) -> Result<Digest, Fail> {
    let steps = data.len().saturating_mul(2).saturating_add(8);
    let last = feed_all(builder, memory, data, (piece, steps), size, device)?;
    let first = builder.digest(memory)?;
    if builder.digest(memory)? != first || builder.last()? != last {
        return Err("another end".into());
    }
    Ok(first)
}

/// Whether a tree that is built in pieces of a length is that from plain lists.
fn has_tree(alloc: Global, case: &Case, piece: usize) -> Result<bool, Fail> {
    let (data, size) = (case.data.as_slice(), case.plan.hash_block());
    let mut device = case.device(alloc)?;
    let mut memory = vec![in alloc; 0xa5u8; TreeBuilder::memory_length(&case.plan)]?;
    let memory = memory.as_mut_slice();
    let mut builder = TreeBuilder::begin(&case.plan, memory);
    let root = digest_of(&mut builder, memory, data, piece, size, &mut device)?;
    Ok(root == case.root && case.is_on(alloc, &device)?)
}

/// The root hash of a file that is fed in pieces of a length. It is asked for after each of them, or only at the end.
fn file_root(alloc: Global, case: &Case, piece: usize, is_asked: bool) -> Result<Digest, Fail> {
    let (settings, mut rest) = (case.plan.settings(), case.data.as_slice());
    let mut memory = vec![in alloc; 0xa5u8; FileBuilder::memory_length(settings)]?;
    let memory = memory.as_mut_slice();
    let mut builder = FileBuilder::begin(settings, memory);
    for step in 0..rest.len().saturating_mul(2).saturating_add(8) {
        let (next, after) = rest.split_at(next_length(piece, step).min(rest.len()));
        feed_file(&mut builder, memory, next)?;
        rest = after;
        if is_asked {
            end_file(&builder, memory)?;
        }
        if rest.is_empty() {
            break;
        }
    }
    end_file(&builder, memory)
}

/// An error unless a tree that is built in pieces of a length is that from plain lists, and so is a file's root hash.
fn try_pieces(alloc: Global, case: &Case, piece: usize) -> Result<(), Fail> {
    let row = &case.row;
    let mut is_right = has_tree(alloc, case, piece)?;
    for is_asked in [false, true] {
        if row.0 == PADDED && file_root(alloc, case, piece, is_asked)? != case.root {
            is_right = false;
        }
    }
    same(format_args!("{row:?} in pieces of {piece}"), is_right, true)
}

/// An error unless all rows' trees are built in pieces of each length.
fn try_rows(alloc: Global, rows: &[Row], pieces: &[usize]) -> Result<(), Fail> {
    for row in rows {
        let case = Case::new(alloc, row)?;
        for &piece in pieces {
            try_pieces(alloc, &case, piece)?;
        }
    }
    Ok(())
}

#[test]
fn trees_are_built_in_pieces(rt: HostRuntime) -> Result<(), Fail> {
    try_rows(rt.alloc(), &SHAPES, &PIECES)
}

#[test]
fn trees_of_several_windows_are_built_in_pieces(rt: HostRuntime) -> Result<(), Fail> {
    try_rows(rt.alloc(), &WINDOWS, &LENGTHS)
}

/// The function, the size of a block, and how long the memory for a file is.
const MEMORY: [(Algorithm, u32, usize); 6] = [
    (SHA256, 64, 57 * 64 + 2 * 64),
    (SHA512, 128, 56 * 128 + 2 * 128),
    (SHA256, 4096, 8 * 4096 + 8 * 4096),
    (SHA512, 4096, 9 * 4096 + 8 * 4096),
    (SHA512, 131_072, 5 * 131_072 + 4 * 131_072),
    (SHA512, 524_288, 4 * 524_288 + 524_288),
];

#[test]
fn memory_has_room_for_open_blocks_and_a_window() -> Result<(), Fail> {
    for &(algorithm, block, expected) in &MEMORY {
        let settings = TreeSettings::fsverity(algorithm, b"", block)?;
        let length = FileBuilder::memory_length(&settings);
        same(format_args!("{algorithm:?}, {block}"), length, expected)?;
    }
    Ok(())
}

/// The faults of a builder of the tree above 17 blocks of 512 bytes: for one piece, and then at the end.
type Faults = (Option<FeedFault>, Option<FeedFault>);

fn faults(alloc: Global, piece: &[u8]) -> Result<Faults, Fail> {
    let plan = Plan::for_blocks(&small()?, 17, 1)?;
    let mut memory = vec![in alloc; 0u8; TreeBuilder::memory_length(&plan)]?;
    let memory = memory.as_mut_slice();
    let mut builder = TreeBuilder::begin(&plan, memory);
    if memory.len() != TreeBuilder::memory_length(&builder.plan) {
        return Err("another length".into());
    }
    let fed = builder.feed(memory, piece).err();
    if memory.len() != TreeBuilder::memory_length(&builder.plan) {
        return Err("another length".into());
    }
    Ok((fed, builder.end(memory).err()))
}

const LONG: Option<FeedFault> = Some(FeedFault::TooLong);

/// The number of bytes of a piece, and the faults.
const COUNTS: [(usize, Faults); 4] = [
    (0, (None, Some(FeedFault::TooShort(0)))),
    (513, (None, Some(FeedFault::TooShort(1)))),
    (17 * 512 + 1, (LONG, Some(FeedFault::TooShort(0)))),
    (8192, (None, Some(FeedFault::TooShort(16)))),
];

#[test]
fn too_few_and_too_many_bytes_are_refused(rt: HostRuntime) -> Result<(), Fail> {
    for &(count, expected) in &COUNTS {
        let piece = vec![in rt.alloc(); 7u8; count]?;
        same(count, faults(rt.alloc(), piece.as_slice())?, expected)?;
    }
    Ok(())
}
