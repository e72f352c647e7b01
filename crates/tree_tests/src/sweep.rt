//! A tree that is built again and again, with a fault in each place in turn.
use crate::cases::{Case, Row};
use crate::short_reads::ShortReads;
use fixtures::lay;
use std::alloc::{AllocError, Global};
use std::test::Fail;
use verity_hash::Digest;
use verity_tree::{BuildFault, Fused, MemoryDevice, Store, build};

/// How many bytes a source gives at a time: as much as fits, one, or a few of which no block is a multiple; and which
/// data blocks have failing reads and an end of the data within them: one in this many.
pub type Tried = (usize, usize);

/// A hash block as it closes: its level, its number in the level, and how many data blocks were read by then.
type Closed = (usize, u64, usize);

/// The hash blocks of a tree in the order in which they close: after each data block those that are then full, or last,
/// from level 0 up.
fn closing_order(
    alloc: Global,
    fan: usize,
    blocks: usize,
    levels: usize,
) -> Result<Vec<Closed>, AllocError> {
    let mut order = Vec::new(alloc);
    for i in 0..blocks {
        let read = i.saturating_add(1);
        let mut under = 1usize;
        for level in 0..levels {
            under = under.saturating_mul(fan).max(1);
            if read % under == 0 || read == blocks {
                order.push((level, (i / under) as u64, read))?;
            }
        }
    }
    Ok(order)
}

/// A run, and what is expected of it.
#[derive(Clone, Copy)]
pub struct Trial {
    /// The calls of the source and of the device that fail, by their numbers; none for 0.
    pub failing: (usize, usize),
    /// How many bytes the source has, and how many are left.
    pub given: usize,
    rest: usize,
    result: Result<Digest, BuildFault>,
    /// How many hash blocks close, and how often the device is called.
    closed: usize,
    calls: usize,
}

/// A tree that is built again and again.
#[derive(Drop)]
pub struct Sweep {
    case: Case,
    blocks: usize,
    order: Vec<Closed>,
}

impl Sweep {
    pub fn new(alloc: Global, row: &Row) -> Result<Sweep, Fail> {
        let case = Case::new(alloc, row)?;
        let blocks = case.data.len().div_ceil(case.shape.data_block.max(1));
        let levels = case.tree.levels.len();
        Ok(Sweep {
            blocks,
            order: closing_order(alloc, case.shape.slots, blocks, levels)?,
            case,
        })
    }

    /// How many bytes follow this many data blocks.
    fn after(&self, blocks: usize) -> usize {
        let read = blocks.saturating_mul(self.case.shape.data_block);
        self.case.data.len().saturating_sub(read)
    }

    /// The run in which nothing fails.
    fn whole(&self) -> Trial {
        Trial {
            failing: (0, 0),
            given: self.case.data.len(),
            rest: 0,
            result: Ok(self.case.root),
            closed: self.order.len(),
            calls: self.order.len(),
        }
    }

    /// Runs over data block `i`: those in which a read fails, the block's first or the one half way, and that in which
    /// the data ends within it. This many reads come before it, and it takes this many.
    fn at_block(&self, i: usize, most: usize, before: usize, reads: usize) -> [Trial; 3] {
        let closed = self.order.iter().filter(|closed| closed.2 <= i).count();
        let (rest, len) = (self.after(i), self.case.data.len());
        let first = Trial {
            failing: (before.saturating_add(1), 0),
            rest,
            result: Err(BuildFault::SourceFailed(i as u64)),
            closed,
            calls: closed,
            ..self.whole()
        };
        let half = Trial {
            failing: (before.saturating_add(reads / 2).saturating_add(1), 0),
            rest: rest.saturating_sub((reads / 2).saturating_mul(most)),
            ..first
        };
        let end = Trial {
            failing: (0, 0),
            given: len.saturating_sub(rest).saturating_add(i % 3),
            rest: 0,
            result: Err(BuildFault::SourceShort(i as u64)),
            ..first
        };
        [first, half, end]
    }

    /// All runs over a source: those over the data blocks tried, those in which a write fails, and the whole one.
    fn trials(&self, alloc: Global, tried: Tried) -> Result<Vec<Trial>, AllocError> {
        let (most, every) = tried;
        let mut trials = Vec::new(alloc);
        let mut before = 0usize;
        for i in 0..self.blocks {
            let held = self.after(i).min(self.case.shape.data_block);
            let reads = held.div_ceil(most.max(1));
            if i % every.max(1) == 0 {
                trials.extend_from_slice(&self.at_block(i, most, before, reads))?;
            }
            before = before.saturating_add(reads);
        }
        for (closed, &(level, block, read)) in self.order.iter().enumerate() {
            let call = closed.saturating_add(1);
            trials.push(Trial {
                failing: (0, call),
                rest: self.after(read),
                result: Err(BuildFault::DeviceFailed { level, block }),
                closed,
                calls: call,
                ..self.whole()
            })?;
        }
        trials.push(self.whole())?;
        Ok(trials)
    }

    /// What a device holds, empty at first, after this many hash blocks have closed.
    fn device_after(&self, alloc: Global, closed: usize) -> Result<Vec<u8>, AllocError> {
        let (tree, size) = (&self.case.tree, self.case.shape.hash_block);
        let mut device = Vec::new(alloc);
        for (level, index, _) in self.order.iter().take(closed) {
            let (level, index) = (*level, *index as usize);
            let at = tree.offset_of(level, index, size).saturating_add(size);
            let end = at.saturating_add(size).max(device.len());
            device.resize(end, 0)?;
            lay(&mut device, &[(at, tree.block(level, index, size))]);
        }
        Ok(device)
    }

    /// Whether a run goes as expected.
    fn holds(
        &self,
        alloc: Global,
        store: &mut Store,
        most: usize,
        trial: &Trial,
    ) -> Result<bool, AllocError> {
        if !store.fits(&self.case.plan) {
            return Ok(false);
        }
        let held = self.device_after(alloc, trial.closed)?;
        let bytes = self.case.data.get(..trial.given).unwrap_or(&[]);
        let (read, write) = (trial.failing.0 as u64, trial.failing.1 as u64);
        let mut source = Fused::new(ShortReads::new(bytes, most), read);
        let mut device = Fused::new(MemoryDevice::new(Vec::new(alloc)), write);
        let result = build(&self.case.plan, store, &mut source, &mut device);
        Ok(
            result == trial.result
                && source.inner().rest().len() == trial.rest
                && device.calls() == trial.calls as u64
                && device.inner().bytes() == held.as_slice(),
        )
    }

    /// The first run over a source that goes wrong.
    fn wrong_trial(
        &self,
        alloc: Global,
        store: &mut Store,
        tried: Tried,
    ) -> Result<Option<Trial>, AllocError> {
        for trial in self.trials(alloc, tried)?.iter() {
            if !self.holds(alloc, store, tried.0, trial)? {
                return Ok(Some(*trial));
            }
        }
        Ok(None)
    }

    /// The first run that goes wrong, and how many bytes its source gives at a time.
    pub fn first_wrong(
        &self,
        alloc: Global,
        sources: &[Tried],
    ) -> Result<Option<(usize, Trial)>, AllocError> {
        let mut store = Store::new(alloc, &self.case.plan)?;
        for tried in sources {
            if let Some(trial) = self.wrong_trial(alloc, &mut store, *tried)? {
                return Ok(Some((tried.0, trial)));
            }
        }
        Ok(None)
    }
}
