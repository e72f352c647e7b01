//! Trees of files whose length nobody knows beforehand, with each hash block handed out, beside trees made from plain
//! lists of bytes, and beside what `build` writes.
use crate::asking::GROWING;
use crate::cases::{BEFORE, Case, PADDED, Row, SHA256, SHA512, plan_of};
use crate::feeding::next_length;
use crate::trees::small;
use fixtures::same;
use std::alloc::Global;
use std::test::Fail;
use verity_hash::Digest;
use verity_tree::{
    FeedFault, FileFed, FileHashBlock, FileTreeBuilder, MemorySource, Store, TreeSettings, build,
};

/// Files of a block, of powers of the fan-out, and of a byte more, in windows of eight data blocks and of two; after
/// each piece all that is left is asked for.
const SMALL: [Row; 7] = [
    (PADDED, SHA256, b"salt", (512, 512), (16, 32), (1, 0)),
    (PADDED, SHA256, b"", (512, 512), (16, 32), (512, 0)),
    (PADDED, SHA256, b"", (512, 512), (16, 32), (513, 1)),
    (PADDED, SHA256, b"", (64, 64), (2, 32), (1024, 4)),
    (PADDED, SHA256, b"salt", (64, 64), (2, 32), (1025, 5)),
    (PADDED, SHA512, b"salt", (128, 128), (2, 64), (1153, 4)),
    (BEFORE, SHA256, b"", (512, 1024), (32, 32), (1025, 1)),
];

/// The lengths of their pieces: one byte, about those of a block, all at once, and 0 for lengths that change.
const PIECES: [usize; 7] = [1, 63, 64, 65, 513, 2000, 0];

/// Files of several windows, of eight data blocks and of four, which end with one or a byte after it.
const LARGER: [Row; 6] = [
    (PADDED, SHA256, b"salt", (512, 512), (16, 32), (8192, 1)),
    (PADDED, SHA256, b"salt", (512, 512), (16, 32), (8193, 2)),
    (PADDED, SHA256, b"", (4096, 4096), (128, 32), (524_288, 1)),
    (PADDED, SHA256, b"", (4096, 4096), (128, 32), (528_385, 2)),
    (BEFORE, SHA256, b"", (512, 1024), (32, 32), (16_897, 2)),
    (
        BEFORE,
        SHA512,
        b"salt",
        (131_072, 512),
        (8, 64),
        (1_179_649, 2),
    ),
];

/// The lengths of their pieces: about those of a page and a window, and all at once.
const LENGTHS: [usize; 6] = [511, 4096, 4097, 32_768, 98_305, 2_000_000];

/// A file that is fed: the builder, its memory, and room for a hash block that is left.
#[derive(Drop)]
struct Fed {
    builder: FileTreeBuilder,
    memory: Vec<u8>,
    block: Vec<u8>,
}

impl Fed {
    /// A builder to which nothing was fed.
    fn new(alloc: Global, settings: &TreeSettings) -> Result<Fed, Fail> {
        let mut memory = vec![in alloc; 0xa5u8; FileTreeBuilder::memory_length(settings)]?;
        Ok(Fed {
            builder: FileTreeBuilder::begin(settings, memory.as_mut_slice()),
            memory,
            block: vec![in alloc; 0x5au8; settings.hash_block() as usize]?,
        })
    }

    /// Feeds a piece, in memory of the right length.
    fn feed(&mut self, piece: &[u8]) -> Result<Result<FileFed, FeedFault>, Fail> {
        let memory = self.memory.as_mut_slice();
        if memory.len() != FileTreeBuilder::memory_length(&self.builder.settings) {
            return Err("another length".into());
        }
        Ok(self.builder.feed(memory, piece))
    }

    /// The root hash of what was fed, with memory of the right length.
    fn end(&mut self) -> Result<Result<Digest, FeedFault>, Fail> {
        let memory = self.memory.as_mut_slice();
        if memory.len() != FileTreeBuilder::memory_length(&self.builder.settings) {
            return Err("another length".into());
        }
        Ok(self.builder.end(memory))
    }

    /// The last hash block of a level and its number, with memory and block of the right lengths.
    fn end_block(&mut self, level: usize) -> Result<Result<u64, FeedFault>, Fail> {
        let (memory, block) = (self.memory.as_mut_slice(), self.block.as_mut_slice());
        if memory.len() != FileTreeBuilder::memory_length(&self.builder.settings) {
            return Err("another length".into());
        }
        if block.len() != self.builder.settings.hash_block() as usize {
            return Err("another block".into());
        }
        Ok(self.builder.end_block(memory, level, block))
    }

    /// Asks for all that is left, whatever it is: how many levels the file's tree has by now.
    fn ask(&mut self) -> Result<usize, Fail> {
        let _root = self.end()??;
        for level in 0..64 {
            match self.end_block(level)? {
                Ok(_) => {}
                Err(FeedFault::Level) => return Ok(level),
                Err(_) => return Err("another fault".into()),
            }
        }
        Err("no top level".into())
    }
}

/// A device with some hash blocks at their places, one hash block after its beginning, and how many were put there.
#[derive(Drop)]
struct Placed {
    device: Vec<u8>,
    count: usize,
}

impl Placed {
    /// Puts a hash block at its place in the tree of a case.
    fn put(&mut self, case: &Case, level: usize, index: u64, bytes: &[u8]) -> Result<(), Fail> {
        let size = case.shape.hash_block;
        let offset = case.tree.offset_of(level, index as usize, size);
        let at = offset.saturating_add(size);
        let room = self.device.as_mut_slice();
        let Some(room) = room.get_mut(at..at.saturating_add(size)) else {
            return Err("a hash block past the tree".into());
        };
        if room.len() != bytes.len() {
            return Err("a hash block of another length".into());
        }
        room.copy_from_slice(bytes);
        self.count = self.count.saturating_add(1);
        Ok(())
    }

    /// Puts a hash block that was handed out, as it stands in the memory, at its place. Nothing else is given while the
    /// rest of its piece is still to be fed.
    fn put_handed(&mut self, case: &Case, fed: &mut Fed, block: FileHashBlock) -> Result<(), Fail> {
        let end = block.at.saturating_add(case.shape.hash_block);
        let bytes = fed.memory.as_slice().get(block.at..end);
        let bytes = bytes.ok_or("outside the memory")?;
        self.put(case, block.level, block.index, bytes)?;
        let waiting = Some(FeedFault::Waiting);
        if fed.end()?.err() != waiting || fed.end_block(0)?.err() != waiting {
            return Err("it doesn't wait".into());
        }
        Ok(())
    }
}

/// Feeds the data of a case in pieces of a length, and puts each hash block that is handed out at its place. All that
/// is left is asked for after each piece of some bytes too, or only at the end.
fn feed_all(
    case: &Case,
    fed: &mut Fed,
    placed: &mut Placed,
    piece: usize,
    is_asked: bool,
) -> Result<(), Fail> {
    let mut rest = case.data.as_slice();
    for step in 0..case.data.len().saturating_mul(2).saturating_add(64) {
        let next = &rest[..next_length(piece, step).min(rest.len())];
        let answer = fed.feed(next)??;
        rest = rest.get(answer.taken..).ok_or("more than there are")?;
        match answer.hash_block {
            Some(block) => placed.put_handed(case, fed, block)?,
            None if rest.is_empty() => return Ok(()),
            None if is_asked && !next.is_empty() => {
                fed.ask()?;
            }
            None => {}
        }
    }
    Err("it never ends".into())
}

/// Whether `build` writes the tree of a case.
fn is_written(alloc: Global, case: &Case) -> Result<bool, Fail> {
    let mut store = Store::new(alloc, &case.plan)?;
    if !store.fits(&case.plan) {
        return Err("a store".into());
    }
    let mut source = MemorySource::new(case.data.as_slice());
    let mut device = case.device(alloc)?;
    let built = build(&case.plan, &mut store, &mut source, &mut device);
    Ok(built.is_ok() && case.is_on(alloc, &device)?)
}

/// Puts the last hash block of a level at its place.
fn put_last(case: &Case, fed: &mut Fed, placed: &mut Placed, level: usize) -> Result<(), Fail> {
    let index = fed.end_block(level)??;
    placed.put(case, level, index, fed.block.as_slice())
}

/// Puts all hash blocks of a case at their places, as they are handed out and as they are left: whether the file then
/// has its number of levels and its root hash.
fn put_all(
    alloc: Global,
    case: &Case,
    placed: &mut Placed,
    piece: usize,
    is_asked: bool,
) -> Result<bool, Fail> {
    let mut fed = Fed::new(alloc, case.plan.settings())?;
    feed_all(case, &mut fed, placed, piece, is_asked)?;
    for level in 0..case.tree.levels.len() {
        put_last(case, &mut fed, placed, level)?;
    }
    Ok(fed.ask()? == case.tree.levels.len() && fed.end()?? == case.root)
}

/// An error unless a file that is fed in pieces of a length hands out, with the last hash blocks of all levels, each
/// hash block of its tree once, and has its root hash.
fn try_pieces(alloc: Global, case: &Case, piece: usize, is_asked: bool) -> Result<(), Fail> {
    let (row, size) = (&case.row, case.shape.hash_block);
    let expected = case.tree.on_device(alloc, size)?;
    let mut placed = Placed {
        device: vec![in alloc; 0u8; expected.len()]?,
        count: 0,
    };
    let all = expected.len() / size.max(1);
    let whole = put_all(alloc, case, &mut placed, piece, is_asked)?
        && placed.count.saturating_add(1) == all
        && placed.device.as_slice() == expected.as_slice()
        && is_written(alloc, case)?;
    let at = format_args!("{row:?} in pieces of {piece}, {is_asked}");
    same(at, whole, true)
}

#[test]
fn trees_of_files_are_handed_out_in_pieces(rt: HostRuntime) -> Result<(), Fail> {
    for row in &SMALL {
        let case = Case::new(rt.alloc(), row)?;
        for &piece in &PIECES {
            for is_asked in [false, true] {
                try_pieces(rt.alloc(), &case, piece, is_asked)?;
            }
        }
    }
    Ok(())
}

#[test]
fn trees_of_files_of_several_windows_are_handed_out(rt: HostRuntime) -> Result<(), Fail> {
    for row in &LARGER {
        let case = Case::new(rt.alloc(), row)?;
        for &piece in &LENGTHS {
            try_pieces(rt.alloc(), &case, piece, piece > 4097)?;
        }
    }
    Ok(())
}

/// Whether the last hash block of a level is that of a case, by its number and its bytes.
fn has_last_block(fed: &mut Fed, case: &Case, level: usize) -> Result<bool, Fail> {
    let size = case.shape.hash_block;
    let count = match case.tree.levels.get(level) {
        Some(blocks) => blocks.len() / size.max(1),
        None => 0,
    };
    let index = fed.end_block(level)??;
    let expected = case.tree.block(level, index as usize, size);
    Ok(index.checked_add(1) == Some(count as u64) && fed.block.as_slice() == expected)
}

/// Whether the last hash block of each level is that of a case, twice; and the root hash too.
fn has_last_blocks(fed: &mut Fed, case: &Case) -> Result<bool, Fail> {
    let levels = case.tree.levels.len();
    let mut is_right = fed.end()?? == case.root;
    for step in 0..levels.saturating_mul(2) {
        // From the top level down, and up again.
        let level = if step < levels {
            levels - 1 - step
        } else {
            step - levels
        };
        is_right = has_last_block(fed, case, level)? && is_right;
    }
    Ok(is_right && fed.ask()? == levels)
}

/// Feeds all that comes after this many bytes of a case's data: whether all of it was taken.
fn feed_after(fed: &mut Fed, case: &Case, before: usize) -> Result<bool, Fail> {
    let mut rest = case.data.as_slice().get(before..).ok_or("it shrinks")?;
    for _ in 0..rest.len().saturating_add(64) {
        let answer = fed.feed(rest)??;
        rest = rest.get(answer.taken..).ok_or("more than there are")?;
        if answer.hash_block.is_none() {
            break;
        }
    }
    Ok(rest.is_empty())
}

/// Whether a row's file, of which this many bytes were fed, has its last hash blocks once it is fed the rest.
fn goes_on(alloc: Global, fed: &mut Fed, row: &Row, before: usize) -> Result<bool, Fail> {
    let case = Case::new(alloc, row)?;
    Ok(feed_after(fed, &case, before)? && has_last_blocks(fed, &case)?)
}

/// An error unless a file that grows has its last hash blocks at each size.
fn try_growing(alloc: Global, row: &Row, sizes: &[(usize, usize)]) -> Result<(), Fail> {
    let mut fed = Fed::new(alloc, plan_of(row)?.settings())?;
    let (mut is_right, mut before) = (true, 0);
    for &size in sizes {
        let grown = (row.0, row.1, row.2, row.3, row.4, size);
        is_right = goes_on(alloc, &mut fed, &grown, before)? && is_right;
        before = size.0;
    }
    same(format_args!("{row:?}"), is_right, true)
}

#[test]
fn files_have_their_last_hash_blocks_at_any_time(rt: HostRuntime) -> Result<(), Fail> {
    for (row, sizes) in &GROWING {
        try_growing(rt.alloc(), row, sizes)?;
    }
    Ok(())
}

/// The faults of a builder with these numbers, with blocks of 512 bytes: for a piece of so many bytes, at the end, and
/// for the last hash block of level 1.
type Faults = [Option<FeedFault>; 3];

fn faults(alloc: Global, fed: u64, closed: usize, count: usize) -> Result<Faults, Fail> {
    let mut run = Fed::new(alloc, &small()?)?;
    (run.builder.fed, run.builder.closed) = (fed, closed);
    run.memory.as_mut_slice().fill(0xa5);
    let piece = vec![in alloc; 7u8; count]?;
    faults_of(&mut run, piece.as_slice())
}

/// The same faults, of a builder that has its numbers, for this piece.
fn faults_of(run: &mut Fed, piece: &[u8]) -> Result<Faults, Fail> {
    let builder = run.builder;
    let last = [run.end()?.err(), run.end_block(1)?.err()];
    let is_kept = run.memory.iter().all(|&byte| byte == 0xa5);
    let first = run.feed(piece)?.err();
    if first.is_some() && (run.builder != builder || (last[0].is_some() && !is_kept)) {
        return Err("a refused call has changed something".into());
    }
    Ok([first, last[0], last[1]])
}

#[test]
fn builders_of_file_trees_go_by_their_numbers(rt: HostRuntime) -> Result<(), Fail> {
    let (waiting, level) = (Some(FeedFault::Waiting), Some(FeedFault::Level));
    let large = Some(FeedFault::TooLarge);
    let cases = [
        ((0, 0, 0), [None, None, level]),
        ((0, 1, 0), [level, waiting, waiting]),
        ((0, 1, 512), [level, waiting, waiting]),
        ((0, 0, 512), [None, None, level]),
        ((513, 0, 0), [None, None, level]),
        ((8192, 0, 0), [None, None, level]),
        ((8193, 0, 0), [None, None, None]),
        ((8192, 1, 1), [None, waiting, waiting]),
        ((8192, 2, 1), [None, waiting, waiting]),
        ((8192, 3, 1), [level, waiting, waiting]),
        ((u64::MAX, 0, 0), [large, large, large]),
        ((u64::MAX, 0, 1), [large, large, large]),
        ((u64::MAX, usize::MAX, 0), [large, waiting, waiting]),
        ((1 << 63, 0, 0), [large, large, large]),
        ((4096, usize::MAX, 1), [level, waiting, waiting]),
    ];
    for &((fed, closed, count), expected) in &cases {
        let found = faults(rt.alloc(), fed, closed, count)?;
        same(format_args!("{fed}, {closed}, {count}"), found, expected)?;
    }
    Ok(())
}
