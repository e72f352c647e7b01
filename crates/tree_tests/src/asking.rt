//! Root hashes that are asked for between pieces, as often as one likes, and hash blocks that are asked for again. What
//! is expected is made from plain lists of bytes.
use crate::cases::{Case, PADDED, Row, SHA256, SHA512, plan_of};
use crate::feeding::{end_file, feed_file};
use crate::trees::small;
use fixtures::same;
use std::alloc::Global;
use std::test::Fail;
use verity_hash::Digest;
use verity_tree::{FeedFault, FileBuilder, HashBlock, Plan, TreeBuilder};

/// Files that grow from each size to the next: about the ends of blocks and of windows, and where the tree has a level
/// more. Of each size the number of levels is stated.
pub const GROWING: [(Row, &[(usize, usize)]); 4] = [
    (
        (PADDED, SHA256, b"", (64, 64), (2, 32), (1, 0)),
        &[
            (1, 0),
            (63, 0),
            (64, 0),
            (65, 1),
            (128, 1),
            (129, 2),
            (255, 2),
            (256, 2),
            (257, 3),
            (512, 3),
            (513, 4),
            (1024, 4),
            (1025, 5),
        ],
    ),
    (
        (PADDED, SHA512, b"salt", (128, 128), (2, 64), (1, 0)),
        &[
            (127, 0),
            (128, 0),
            (129, 1),
            (256, 1),
            (257, 2),
            (512, 2),
            (513, 3),
            (1024, 3),
            (1100, 4),
        ],
    ),
    (
        (PADDED, SHA256, b"salt", (512, 512), (16, 32), (1, 0)),
        &[
            (511, 0),
            (512, 0),
            (8191, 1),
            (8192, 1),
            (8193, 2),
            (16_384, 2),
            (131_072, 2),
            (131_073, 3),
        ],
    ),
    (
        (PADDED, SHA256, b"", (4096, 4096), (128, 32), (1, 0)),
        &[
            (4095, 0),
            (4096, 0),
            (4097, 1),
            (8192, 1),
            (8193, 1),
            (28_672, 1),
            (28_673, 1),
            (32_767, 1),
            (32_768, 1),
            (32_769, 1),
            (65_536, 1),
            (65_537, 1),
            (524_288, 1),
            (524_289, 2),
        ],
    ),
];

/// Whether a row's file, of which this many bytes were fed, has its root hash once it is fed the rest, asked for twice.
fn goes_on(
    alloc: Global,
    builder: &mut FileBuilder,
    memory: &mut [u8],
    row: &Row,
    before: usize,
) -> Result<bool, Fail> {
    let case = Case::new(alloc, row)?;
    let rest = case.data.as_slice().get(before..).ok_or("it shrinks")?;
    feed_file(builder, memory, rest)?;
    let first = end_file(builder, memory)?;
    let second = end_file(builder, memory)?;
    Ok(first == case.root && second == case.root)
}

/// An error unless a file that grows has its root hash at each size, asked for twice, and zeros before the first byte.
fn try_growing(alloc: Global, row: &Row, sizes: &[(usize, usize)]) -> Result<(), Fail> {
    let settings = *plan_of(row)?.settings();
    let mut memory = vec![in alloc; 0xa5u8; FileBuilder::memory_length(&settings)]?;
    let memory = memory.as_mut_slice();
    let mut builder = FileBuilder::begin(&settings, memory);
    let mut is_right = end_file(&builder, memory)? == Digest::zeros(row.1);
    let mut before = 0;
    for &size in sizes {
        let grown = (row.0, row.1, row.2, row.3, row.4, size);
        is_right = goes_on(alloc, &mut builder, memory, &grown, before)? && is_right;
        before = size.0;
    }
    same(format_args!("{row:?}"), is_right, true)
}

#[test]
fn files_have_a_root_hash_at_any_time(rt: HostRuntime) -> Result<(), Fail> {
    for (row, sizes) in &GROWING {
        try_growing(rt.alloc(), row, sizes)?;
    }
    Ok(())
}

/// The last hash block by these numbers of a builder of the tree above 17 blocks of 512 bytes.
fn last_of(fed: u64, closed: usize) -> Result<Result<Option<HashBlock>, FeedFault>, Fail> {
    let plan = Plan::for_blocks(&small()?, 17, 1)?;
    Ok(TreeBuilder { plan, fed, closed }.last_block())
}

#[test]
fn the_last_hash_block_goes_by_the_numbers() -> Result<(), Fail> {
    let block = |level, index, start, at| {
        Ok(Some(HashBlock {
            level,
            index,
            start,
            at,
        }))
    };
    let cases = [
        ((0, 0), Ok(None)),
        ((0, 1), Ok(None)),
        ((8192, 0), Ok(None)),
        ((8192, 1), block(0, 0, 1024, 0)),
        ((8193, 1), block(0, 1, 1536, 0)),
        ((8704, 1), block(0, 1, 1536, 0)),
        ((8704, 2), block(1, 0, 512, 512)),
        ((8704, 3), Err(FeedFault::Level)),
        ((8705, 2), Err(FeedFault::TooLong)),
        ((u64::MAX, usize::MAX), Err(FeedFault::Level)),
    ];
    for &((fed, closed), expected) in &cases {
        let found = last_of(fed, closed)?;
        same(format_args!("{fed}, {closed}"), found, expected)?;
    }
    Ok(())
}
