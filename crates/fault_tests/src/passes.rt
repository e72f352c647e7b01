//! The steps of a pass over data: each block is read, and the hash blocks that close are written, read or left.
use crate::scene::Scene;
use crate::steps::Effect;
use fixtures::Tree;
use memory_runtime::Call;
use std::alloc::{AllocError, Global};

/// What a pass does with each hash block, and how its messages name what failed.
#[derive(Clone, Copy)]
pub enum Pass {
    /// veritysetup writes the blocks to a file, from this offset on.
    Format(&'static str, usize),
    /// veritysetup reads them.
    Verify,
    /// fsverity doesn't keep the blocks of the file of this name.
    Digest(&'static str),
    /// fsverity writes the blocks of the file of this name to a file.
    DigestTo(&'static str, &'static str),
}

impl Pass {
    /// The message if this data block can't be read.
    fn unread(self, alloc: Global, index: usize) -> Result<String, AllocError> {
        match self {
            Pass::Format(_, _) | Pass::Verify => {
                format!(in alloc; "Cannot read data block {index}.\n")
            }
            Pass::Digest(name) | Pass::DigestTo(name, _) => {
                format!(in alloc; "fsverity: cannot read block {index}: {name}.\n")
            }
        }
    }

    /// The message if this hash block can't be written or read.
    fn stopped(self, alloc: Global, level: usize, index: usize) -> Result<String, AllocError> {
        let what = match self {
            Pass::Format(_, _) => "Cannot write hash",
            Pass::Verify => "Cannot read hash",
            Pass::Digest(_) | Pass::DigestTo(_, _) => "fsverity: cannot write tree",
        };
        format!(in alloc; "{what} block {index} of level {level}.\n")
    }

    /// The call by which a pass writes or reads a hash block at its place, and what that leaves.
    fn call_of_block(
        self,
        alloc: Global,
        tree: &Tree,
        size: usize,
        level: usize,
        index: usize,
    ) -> Result<(Call, Effect), AllocError> {
        let (file, start) = match self {
            Pass::Format(file, start) => (file, start),
            Pass::DigestTo(_, file) => (file, 0),
            Pass::Verify | Pass::Digest(_) => return Ok((Call::Read, Effect::Nothing)),
        };
        let at = tree.offset_of(level, index, size).saturating_add(start);
        let bytes = tree.block(level, index, size).to_vec(alloc)?;
        Ok((Call::Write, Effect::Put(file, at, bytes)))
    }
}

/// A tree to go over: its fan-out, the size of its hash blocks, and the number of data blocks under it.
#[derive(Clone, Copy)]
pub struct Extent {
    pub fan: usize,
    pub hash_block: usize,
    pub blocks: usize,
}

impl Scene {
    /// The blocks of a tree's data are read, and what closes after each of them is written, read or left.
    pub fn passes(&mut self, pass: Pass, tree: &Tree, extent: Extent) -> Result<(), AllocError> {
        for i in 0..extent.blocks {
            let message = pass.unread(self.alloc, i)?;
            self.calls(Call::Read, message.as_str(), Effect::Nothing)?;
            self.closes(pass, tree, extent, i)?;
        }
        Ok(())
    }

    /// What closes after this data block: from level 0 up, the hash blocks that are full, or the last of their level.
    fn closes(
        &mut self,
        pass: Pass,
        tree: &Tree,
        extent: Extent,
        i: usize,
    ) -> Result<(), AllocError> {
        let read = i.saturating_add(1);
        let mut under = extent.fan.max(1);
        for level in 0..tree.levels.len() {
            if read % under.max(1) == 0 || read == extent.blocks {
                self.closes_block(pass, tree, extent.hash_block, level, i / under.max(1))?;
            }
            under = under.saturating_mul(extent.fan);
        }
        Ok(())
    }

    /// One hash block is written or read at its place, unless the pass is that of a plain digest.
    fn closes_block(
        &mut self,
        pass: Pass,
        tree: &Tree,
        size: usize,
        level: usize,
        index: usize,
    ) -> Result<(), AllocError> {
        if matches!(pass, Pass::Digest(_)) {
            return Ok(());
        }
        let message = pass.stopped(self.alloc, level, index)?;
        self.calls(Call::Seek, message.as_str(), Effect::Nothing)?;
        let (call, effect) = pass.call_of_block(self.alloc, tree, size, level, index)?;
        self.calls(call, message.as_str(), effect)
    }
}
