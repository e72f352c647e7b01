//! Trees that are built from parts, the last part first, beside trees made from plain lists of bytes.
ghost use Rattle.std.specs.Prelude.{◌≡◌, IfOk};
ghost use Rattle.verity_builders.specs.Feeding.{feeding_length};
ghost use Rattle.verity_builders.specs.Parts.{join_length};

use crate::cases::{Case, Row};
use crate::feeding::{Builder, SHAPES, digest_of, feed_all};
use crate::trees::small;
use fixtures::{same, with_zeros};
use std::alloc::Global;
use std::test::Fail;
use verity_hash::Digest;
use verity_tree::{
    Fed, FeedFault, HashBlock, JoinBuilder, MemoryDevice, PartBuilder, PartFault, Plan,
};

/// The lengths of pieces: a byte, about a block, all at once, and 0 for lengths that change.
const PIECES: [usize; 5] = [1, 511, 512, 50_000, 0];

/// How many digests come at once.
const COUNTS: [usize; 4] = [1, 2, 3, 1000];

/// The length of a part's memory, if there is such a level.
fn part_length(plan: &Plan, level: usize) -> Result<usize, Fail>
    ensures { IfOk result (λ length. length ≡ feeding_length plan.now.settings level) }
{
    if level > plan.levels() {
        return Err("no such level".into());
    }
    Ok(PartBuilder::memory_length(plan, level))
}

/// The length of a join's memory, if there is such a level.
fn join_length(plan: &Plan, level: usize) -> Result<usize, Fail>
    ensures { IfOk result (λ length. length ≡ join_length plan.now level) }
{
    if level > plan.levels() {
        return Err("no such level".into());
    }
    Ok(JoinBuilder::memory_length(plan, level))
}

impl Builder for PartBuilder {
    fn take(&mut self, memory: &mut [u8], piece: &[u8]) -> Result<Fed, Fail> {
        if memory.len() != part_length(&self.plan, self.level)? {
            return Err("another length".into());
        }
        Ok(self.feed(memory, piece)?)
    }

    fn last(&self) -> Result<Option<HashBlock>, FeedFault> {
        self.last_block()
    }

    fn digest(&self, memory: &mut [u8]) -> Result<Digest, Fail> {
        if memory.len() != part_length(&self.plan, self.level)? {
            return Err("another length".into());
        }
        Ok(self.end(memory)?)
    }
}

/// Its pieces are whole digests.
impl Builder for JoinBuilder {
    fn take(&mut self, memory: &mut [u8], digests: &[u8]) -> Result<Fed, Fail> {
        if memory.len() != join_length(&self.plan, self.level)? {
            return Err("another length".into());
        }
        if digests.len().checked_rem(self.plan.digest_len()) != Some(0) {
            return Err("a part of a digest".into());
        }
        Ok(self.feed(memory, digests)?)
    }

    fn last(&self) -> Result<Option<HashBlock>, FeedFault> {
        self.last_block()
    }

    fn digest(&self, memory: &mut [u8]) -> Result<Digest, Fail> {
        if memory.len() != join_length(&self.plan, self.level)? {
            return Err("another length".into());
        }
        Ok(self.end(memory)?)
    }
}

/// The data of a part.
fn data_of(case: &Case, level: usize, part: u64) -> Result<&[u8], Fail> {
    let blocks = PartBuilder::blocks(&case.plan, level);
    let size = blocks.saturating_mul(case.plan.data_block() as u64) as usize;
    let from = size.saturating_mul(part as usize);
    let to = from.saturating_add(size).min(case.data.len());
    Ok(case.data.as_slice().get(from..to).ok_or("no data")?)
}

/// Builds a part in pieces of a length, with each hash block written at its place: the part's digest.
fn build_part(
    alloc: Global,
    case: &Case,
    (level, part): (usize, u64),
    piece: usize,
    device: &mut MemoryDevice,
) -> Result<Digest, Fail> {
    let (plan, data) = (&case.plan, data_of(case, level, part)?);
    let mut memory = vec![in alloc; 0xa5u8; part_length(plan, level)?]?;
    let memory = memory.as_mut_slice();
    let mut builder = PartBuilder::begin(plan, level, part, memory)?;
    digest_of(&mut builder, memory, data, piece, plan.hash_block(), device)
}

/// Builds the parts of a level, the last one first: their digests, in order.
fn build_parts(
    alloc: Global,
    case: &Case,
    level: usize,
    piece: usize,
    device: &mut MemoryDevice,
) -> Result<Vec<u8>, Fail> {
    if level > case.plan.levels() {
        return Err("no such level".into());
    }
    let parts = case.plan.count_under(level);
    let mut digests = Vec::new(alloc);
    for left in 0..parts {
        let part = (level, parts - 1 - left);
        let digest = build_part(alloc, case, part, piece, device)?;
        digests = with_zeros(alloc, &[digest.as_bytes(), digests.as_slice()], 0)?;
    }
    Ok(digests)
}

/// Joins parts by their digests, of which so many come at once, with each hash block written at its place: the root
/// hash.
fn join_parts(
    alloc: Global,
    plan: &Plan,
    level: usize,
    digests: &[u8],
    count: usize,
    device: &mut MemoryDevice,
) -> Result<Digest, Fail> {
    let mut memory = vec![in alloc; 0xa5u8; join_length(plan, level)?]?;
    let memory = memory.as_mut_slice();
    let mut builder = JoinBuilder::begin(plan, level, memory)?;
    let piece = count.saturating_mul(plan.digest_len());
    let steps = digests.len().saturating_add(8);
    let size = plan.hash_block();
    feed_all(&mut builder, memory, digests, (piece, steps), size, device)?;
    builder.digest(memory)
}

/// Whether a tree that is built from the parts of a level, the last one first, is that from plain lists.
fn is_built(
    alloc: Global,
    case: &Case,
    level: usize,
    piece: usize,
    count: usize,
) -> Result<bool, Fail> {
    let mut device = case.device(alloc)?;
    let digests = build_parts(alloc, case, level, piece, &mut device)?;
    let digests = digests.as_slice();
    let root = join_parts(alloc, &case.plan, level, digests, count, &mut device)?;
    Ok(root == case.root && case.is_on(alloc, &device)?)
}

/// An error unless a row's tree is built from the parts of each level, and from that of the one above the top.
fn try_levels(alloc: Global, row: &Row, piece: usize, count: usize) -> Result<(), Fail> {
    let case = Case::new(alloc, row)?;
    for level in 0..case.plan.levels().saturating_add(1) {
        let built = is_built(alloc, &case, level, piece, count)?;
        let at = format_args!("level {level} of {row:?}, {piece} and {count} at once");
        same(at, built, true)?;
    }
    Ok(())
}

#[test]
fn parts_are_built_in_pieces(rt: HostRuntime) -> Result<(), Fail> {
    for row in &SHAPES {
        for &piece in &PIECES {
            try_levels(rt.alloc(), row, piece, 1000)?;
        }
    }
    Ok(())
}

#[test]
fn parts_are_joined(rt: HostRuntime) -> Result<(), Fail> {
    for row in &SHAPES {
        for &count in &COUNTS {
            try_levels(rt.alloc(), row, 4096, count)?;
        }
    }
    Ok(())
}

/// Why a part above 257 blocks can't be begun.
fn fault_of(alloc: Global, level: usize, part: u64) -> Result<Option<PartFault>, Fail> {
    let plan = Plan::for_blocks(&small()?, 257, 1)?;
    let mut memory = vec![in alloc; 0u8; part_length(&plan, level)?]?;
    Ok(PartBuilder::begin(&plan, level, part, memory.as_mut_slice()).err())
}

const NO_PART: Option<PartFault> = Some(PartFault::Part);

/// A level, a part, and why it can't be begun.
const FAULTS: [(usize, u64, Option<PartFault>); 7] = [
    (0, 256, None),
    (0, 257, NO_PART),
    (1, 16, None),
    (1, 17, NO_PART),
    (3, 0, None),
    (3, 1, NO_PART),
    (3, u64::MAX, NO_PART),
];

#[test]
fn parts_that_are_not_there_are_refused(rt: HostRuntime) -> Result<(), Fail> {
    for &(level, part, expected) in &FAULTS {
        let fault = fault_of(rt.alloc(), level, part)?;
        same(format_args!("part {part} of {level}"), fault, expected)?;
    }
    Ok(())
}
