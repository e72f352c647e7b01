//! Reads within data blocks and each write of a run fail in turn, and the data ends within blocks in turn, for trees of
//! many fan-outs and sources that give few bytes at a time: the result, how much was read, what the device holds and
//! how often it was called are compared with trees made from plain lists of bytes. All runs over a tree have one store.
use crate::cases::{BEFORE, PADDED, Row, SHA1, SHA224, SHA256, SHA384, SHA512};
use crate::sweep::{Sweep, Tried};
use fixtures::same;
use std::alloc::Global;
use std::test::Fail;

/// Fan-outs of 2 to 16. The data blocks fill batches of eight, or of two or four where a hash block has no more slots,
/// or leave a last one of a few; the last block may be cut.
const FANS: [Row; 5] = [
    (PADDED, SHA256, b"salt", (64, 64), (2, 32), (64 * 13 - 9, 4)),
    (PADDED, SHA256, b"salt", (128, 128), (4, 32), (128 * 23, 3)),
    (
        PADDED,
        SHA256,
        b"salt",
        (256, 256),
        (8, 32),
        (256 * 27 - 1, 2),
    ),
    (BEFORE, SHA256, b"salt", (512, 512), (16, 32), (512 * 23, 2)),
    (
        BEFORE,
        SHA256,
        b"salt",
        (512, 512),
        (16, 32),
        (512 * 16 - 5, 1),
    ),
];

/// A fan-out of 128.
const WIDE: [Row; 1] = [(
    BEFORE,
    SHA256,
    b"salt",
    (512, 4096),
    (128, 32),
    (512 * 134, 2),
)];

/// Larger data blocks, in batches of eight in the windows that they are read into, of 32 KiB for blocks of up to 4096
/// bytes, and of 128 KiB up to 16384.
const LARGE: [Row; 3] = [
    (
        BEFORE,
        SHA256,
        b"salt",
        (4096, 512),
        (16, 32),
        (4096 * 19, 2),
    ),
    (
        BEFORE,
        SHA512,
        b"salt",
        (8192, 512),
        (8, 64),
        (8192 * 13, 2),
    ),
    (
        BEFORE,
        SHA256,
        b"salt",
        (16384, 512),
        (16, 32),
        (16384 * 11, 1),
    ),
];

/// Larger ones, in batches of eight in the largest window, of 512 KiB.
const LARGER: [Row; 2] = [
    (
        BEFORE,
        SHA512,
        b"salt",
        (32768, 512),
        (8, 64),
        (32768 * 11, 2),
    ),
    (
        BEFORE,
        SHA256,
        b"salt",
        (65536, 512),
        (16, 32),
        (65536 * 11, 1),
    ),
];

/// The largest: in batches of four in the largest window, and in batches of two, which are hashed one by one.
const LARGEST: [Row; 2] = [
    (
        BEFORE,
        SHA256,
        b"salt",
        (131_072, 512),
        (16, 32),
        (131_072 * 5, 1),
    ),
    (
        BEFORE,
        SHA256,
        b"salt",
        (262_144, 512),
        (16, 32),
        (262_144 * 2, 1),
    ),
];

/// The other hash functions, and two to nine data blocks.
const OTHERS: [Row; 12] = [
    (BEFORE, SHA1, b"salt", (512, 512), (16, 32), (512 * 19, 2)),
    (BEFORE, SHA224, b"salt", (512, 512), (16, 32), (512 * 21, 2)),
    (BEFORE, SHA384, b"salt", (512, 512), (8, 64), (512 * 14, 2)),
    (BEFORE, SHA512, b"salt", (512, 512), (8, 64), (512 * 23, 2)),
    (BEFORE, SHA256, b"salt", (512, 512), (16, 32), (512 * 2, 1)),
    (BEFORE, SHA256, b"salt", (512, 512), (16, 32), (512 * 3, 1)),
    (BEFORE, SHA256, b"salt", (512, 512), (16, 32), (512 * 4, 1)),
    (BEFORE, SHA256, b"salt", (512, 512), (16, 32), (512 * 5, 1)),
    (BEFORE, SHA256, b"salt", (512, 512), (16, 32), (512 * 6, 1)),
    (BEFORE, SHA256, b"salt", (512, 512), (16, 32), (512 * 7, 1)),
    (BEFORE, SHA256, b"salt", (512, 512), (16, 32), (512 * 8, 1)),
    (BEFORE, SHA256, b"salt", (512, 512), (16, 32), (512 * 9, 1)),
];

const EACH: [Tried; 4] = [(usize::MAX, 1), (4095, 1), (7, 1), (1, 1)];

/// One in 13, so that each place in a batch of eight is tried, or fewer.
const ONE_IN_SOME: [Tried; 4] = [(usize::MAX, 1), (4095, 3), (7, 13), (1, 13)];

const ONE_IN_MANY: [Tried; 4] = [(usize::MAX, 13), (4095, 53), (7, 53), (1, 131)];

const LONG_READS: [Tried; 2] = [(usize::MAX, 1), (4095, 3)];

const FEW_LONG_READS: [Tried; 2] = [(usize::MAX, 2), (4095, 13)];

/// An error unless all runs go right. Of the first that doesn't it says how many bytes a read of its source gives at
/// most, the calls that fail, and how many bytes the source has.
fn all_go_right(alloc: Global, rows: &[Row], sources: &[Tried]) -> Result<(), Fail> {
    for row in rows {
        if let Some((most, trial)) = Sweep::new(alloc, row)?.first_wrong(alloc, sources)? {
            let wrong = (most, trial.failing, trial.given);
            same(format_args!("{row:?}"), Some(wrong), None)?;
        }
    }
    Ok(())
}

#[test]
fn faults_are_answered_at_each_fan_out(rt: HostRuntime) -> Result<(), Fail> {
    all_go_right(rt.alloc(), &FANS, &EACH)?;
    all_go_right(rt.alloc(), &WIDE, &ONE_IN_MANY)
}

#[test]
fn faults_are_answered_at_each_block_size(rt: HostRuntime) -> Result<(), Fail> {
    all_go_right(rt.alloc(), &LARGE, &LONG_READS)
}

#[test]
fn faults_are_answered_in_the_largest_window(rt: HostRuntime) -> Result<(), Fail> {
    all_go_right(rt.alloc(), &LARGER, &FEW_LONG_READS)
}

#[test]
fn faults_are_answered_at_the_largest_block_sizes(rt: HostRuntime) -> Result<(), Fail> {
    all_go_right(rt.alloc(), &LARGEST, &LONG_READS)
}

#[test]
fn faults_are_answered_with_each_function(rt: HostRuntime) -> Result<(), Fail> {
    all_go_right(rt.alloc(), &OTHERS, &ONE_IN_SOME)
}
