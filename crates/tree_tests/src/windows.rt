//! How a pass reads its data blocks: several together, each into a row of a window, or the only one into the store. A
//! source can't see the window, but it sees what stands in the buffer that it is to fill: zeros at first, and later the
//! data block that was read into the same row before.
use crate::cases::{BEFORE, PADDED, SHA256, SHA512, settings};
use fixtures::same;
use std::alloc::Global;
use std::test::Fail;
use verity_hash::{Algorithm, Digest, SaltRule};
use verity_tree::{Failed, MemoryDevice, Plan, Source, Store, build, compare, root_only};

/// How many reads a source records at most.
const MOST_READS: usize = 32;

/// What stood in the buffer at each read: the number of a data block, counted from 1, or 0 for zeros.
type Held = [u8; MOST_READS];

/// A source whose data block `i` has bytes that are all `i + 1`. It records what stands in each buffer, and ends if
/// that isn't a whole data block.
#[derive(Clone, Copy, PartialEq)]
struct Watcher {
    size: usize,
    held: Held,
    reads: usize,
}

impl Watcher {
    /// A source of data blocks of a size.
    fn new(size: usize) -> Watcher {
        Watcher {
            size,
            held: [0; MOST_READS],
            reads: 0,
        }
    }
}

/// The first byte, if the last is the same, or 255.
fn byte_at_both_ends(bytes: &[u8]) -> u8 {
    match (bytes.first(), bytes.last()) {
        (Some(first), Some(last)) if first == last => *first,
        _ => 255,
    }
}

impl Source for Watcher {
    ghost use Rattle.std.specs.Prelude.{[]};

    // What it gives is tested, not proved.
    ghost tells = { λ _. ⊥ };

    ghost remaining = { λ _. [] };

    ghost failures = { λ _. 0 };

    fn read(&mut self, buf: &mut [u8]) -> Result<usize, Failed> {
        let Some(held) = self.held.get_mut(self.reads) else {
            return Ok(0);
        };
        if buf.len() != self.size {
            return Ok(0);
        }
        *held = byte_at_both_ends(buf);
        self.reads = self.reads.saturating_add(1);
        buf.fill((self.reads % 256) as u8);
        Ok(buf.len())
    }
}

/// A source whose data blocks of a size were read in these batches, each into a row of its own.
fn read_in(size: usize, batches: &[usize]) -> Watcher {
    let mut watcher = Watcher::new(size);
    let mut rows = [0_u8; 8];
    for &count in batches {
        for row in 0..count {
            let Some(last) = rows.get_mut(row) else {
                return watcher;
            };
            let read = watcher.reads;
            if let Some(place) = watcher.held.get_mut(read) {
                *place = *last;
            }
            watcher.reads = read.saturating_add(1);
            *last = (watcher.reads % 256) as u8;
        }
    }
    watcher
}

/// The format, by its rule for salts, and the function; the sizes of a data block and a hash block; and how many data
/// blocks are read together, one batch after another.
type Batches = (SaltRule, Algorithm, (u32, u32), &'static [usize]);

/// In windows of 32 and of 128 KiB eight data blocks are read together, and fewer where a hash block closes after
/// fewer.
const SMALLER: [Batches; 14] = [
    (BEFORE, SHA256, (512, 512), &[8, 8, 3]),
    (BEFORE, SHA256, (512, 512), &[8, 8, 2]),
    (BEFORE, SHA256, (512, 512), &[8, 5]),
    (BEFORE, SHA256, (512, 4096), &[8, 8, 8, 4]),
    (BEFORE, SHA512, (1024, 512), &[8, 8, 1]),
    (BEFORE, SHA256, (2048, 512), &[8, 8, 8, 7]),
    (BEFORE, SHA256, (4096, 512), &[8, 8, 8, 4]),
    (BEFORE, SHA256, (4096, 4096), &[8, 8, 3]),
    (BEFORE, SHA256, (4096, 4096), &[3]),
    (PADDED, SHA256, (128, 128), &[4, 4, 3]),
    (PADDED, SHA256, (256, 256), &[8, 8, 4]),
    (PADDED, SHA512, (512, 512), &[8, 8, 2]),
    (BEFORE, SHA256, (8192, 512), &[8, 8, 3]),
    (BEFORE, SHA512, (16_384, 512), &[8, 3]),
];

/// In a window of 512 KiB it is eight too, or as many of the largest data blocks as it has room for.
const LARGEST: [Batches; 5] = [
    (BEFORE, SHA256, (32_768, 512), &[8, 3]),
    (BEFORE, SHA256, (65_536, 65_536), &[8]),
    (BEFORE, SHA256, (131_072, 512), &[4, 1]),
    (BEFORE, SHA256, (262_144, 512), &[2, 1]),
    (BEFORE, SHA256, (524_288, 512), &[1, 1, 1]),
];

/// It is two if a hash block has no more slots, or there are no more data blocks. The only one of all is read into the
/// store.
const FEWEST: [Batches; 4] = [
    (PADDED, SHA256, (64, 64), &[2, 2, 2, 1]),
    (PADDED, SHA512, (128, 128), &[2, 2, 1]),
    (BEFORE, SHA256, (4096, 4096), &[2]),
    (BEFORE, SHA256, (512, 512), &[1]),
];

/// Whether a pass that writes a tree, one that makes the root hash alone, and one that compares the tree agree, each
/// over its source.
fn agree(alloc: Global, plan: &Plan, sources: &mut [Watcher; 3]) -> Result<bool, Fail> {
    let mut store = Store::new(alloc, plan)?;
    if !store.fits(plan) {
        return Err("a store".into());
    }
    let mut device = MemoryDevice::new(Vec::new(alloc));
    let made = build(plan, &mut store, &mut sources[0], &mut device);
    let root: Digest = made.map_err(|_| "a root hash")?;
    let alone = root_only(plan, &mut store, &mut sources[1]);
    let verdict = compare(plan, &mut store, &mut sources[2], &mut device, &root);
    Ok(alone == Ok(root) && verdict == Ok(()))
}

/// Whether each pass over a case's data blocks reads them in its batches, and they agree.
fn is_read(alloc: Global, case: &Batches) -> Result<bool, Fail> {
    let (rule, algorithm, sizes, batches) = *case;
    let settings = settings(rule, algorithm, &[], sizes)?;
    let expected = read_in(settings.data_block() as usize, batches);
    let plan = Plan::for_blocks(&settings, expected.reads as u64, 0)?;
    let mut blocks = 0_usize;
    for &count in batches {
        blocks = blocks.saturating_add(count);
    }
    same("the batches", expected.reads, blocks)?;
    let mut sources = [Watcher::new(expected.size); 3];
    Ok(agree(alloc, &plan, &mut sources)? && sources == [expected; 3])
}

/// An error for the first case whose data blocks aren't read in its batches, if there is one.
fn try_cases(alloc: Global, cases: &[Batches]) -> Result<(), Fail> {
    for case in cases {
        same(format_args!("{case:?}"), is_read(alloc, case)?, true)?;
    }
    Ok(())
}

#[test]
fn data_blocks_are_read_together_in_windows(rt: HostRuntime) -> Result<(), Fail> {
    try_cases(rt.alloc(), &SMALLER)
}

#[test]
fn large_data_blocks_are_read_together_in_windows(rt: HostRuntime) -> Result<(), Fail> {
    try_cases(rt.alloc(), &LARGEST)
}

#[test]
fn few_data_blocks_are_read_together_in_windows(rt: HostRuntime) -> Result<(), Fail> {
    try_cases(rt.alloc(), &FEWEST)
}
