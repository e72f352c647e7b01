//! An image with a trusted root hash, of which single blocks are read.
ghost use Rattle.std.specs.Prelude.{◌≡◌, ◌*◌, ◌<◌, ℕ, List, length, take, drop, IfErr, OnOk, Some};
ghost use Rattle.verity_io.specs.Counting.{Counts, CountsFailure, TheDevice, TheSource, failed_at};
ghost use Rattle.verity_plan.specs.PlanCounts.{level_count_of};
ghost use Rattle.verity_hash.specs.Hashing.{with_zeros};
ghost use Rattle.verity_blocks.specs.Levels.{block_at, data_blocks, root};
ghost use Rattle.read_one_block.specs.Reading.{Answers, IsPathOn, IsRight, WasRead, side_of};

use std::fmt;
use verity_hash::Digest;
use verity_tree::{Device, Failed, PathFault, Plan, check_block};

/// An image: what is trusted of it, and where its bytes are.
#[derive(Drop)]
pub struct Image<A, B> {
    /// How the tree was made. It is trusted.
    pub plan: Plan,
    /// The root hash. It is trusted.
    pub root: Digest,
    /// Where the data is. It isn't trusted.
    pub data: A,
    /// Where the tree is. It isn't trusted.
    pub tree: B,
}

/// Why a block of an image isn't handed out.
#[derive(Clone, Copy, Debug, PartialEq, Eq)]
pub enum ReadFault {
    /// The data block could not be read.
    DataFailed,
    /// The hash block of this level above it could not be read.
    TreeFailed(usize),
    /// The block isn't that of an image with this root hash.
    Refused(PathFault),
}

impl fmt::Display for ReadFault {
    ghost use Rattle.std.specs.Prelude.{Some};
    ghost use Rattle.read_one_block.specs.Texts.{fault_text};

    ghost output = { λ fault. Some (fault_text fault) };

    fn fmt<W: fmt::Write>(&self, f: &mut fmt::Formatter<W>) -> fmt::Result {
        match self {
            ReadFault::DataFailed => write!(f, "cannot read it"),
            ReadFault::TreeFailed(level) => write!(
                f,
                "cannot read its hash block of level {level}"
            ),
            ReadFault::Refused(PathFault::Index) => write!(f, "there is none"),
            ReadFault::Refused(PathFault::Length) => write!(f, "has a wrong length"),
            ReadFault::Refused(PathFault::DiffersAt(level)) => write!(
                f,
                "differs at level {level}"
            ),
        }
    }
}

impl<A: Device, B: Device> Image<A, B> {
    /// Reads data block `i`, counted from 0, and the hash blocks above it, level 0 first, and checks them. What `block`
    /// holds is to be used only if the answer is `Ok`.
    ///
    /// Whatever the two devices give, a block that is handed out is that of the data with this root hash; otherwise two
    /// different blocks with the same salted hash have been found.
    pub fn read(&mut self, i: u64, block: &mut [u8], path: &mut [u8]) -> Result<(), ReadFault>
        requires block { length block.old ≡ self.old.plan.settings.data_block }
        requires path { length path.old ≡ level_count_of self.old.plan * self.old.plan.settings.hash_block }
        ensures plan { self.new.plan ≡ self.old.plan }
        ensures root { self.new.root ≡ self.old.root }

        // Nothing is written.
        ensures data_told { A.tells self.old.data → A.tells self.new.data }
        ensures tree_told { B.tells self.old.tree → B.tells self.new.tree }
        ensures data_stays { A.tells self.old.data → A.content self.new.data ≡ A.content self.old.data }
        ensures tree_stays { B.tells self.old.tree → B.content self.new.tree ≡ B.content self.old.tree }

        ensures right { OnOk result ((bytes : List ℕ)
            → self.old.root ≡ root self.old.plan.settings (data_blocks self.old.plan bytes)
            → IsRight self.old.plan bytes i block.new path.new) }

        // The answer is that of the check on what the devices hold.
        ensures answer { Answers self.old.plan i block.new path.new self.old.root result }
        ensures data { A.tells self.old.data → i < self.old.plan.blocks → WasRead result
            (block.new ≡ block_at self.old.plan.settings.data_block (A.content self.old.data) i) }
        ensures tree { B.tells self.old.tree → i < self.old.plan.blocks → WasRead result
            (IsPathOn self.old.plan i (B.content self.old.tree) path.new) }
        ensures data_count { Counts (failed_at side_of TheSource result) (A.failures self.old.data) (A.failures self.new.data) }
        ensures tree_count { Counts (failed_at side_of TheDevice result) (B.failures self.old.tree) (B.failures self.new.tree) }
    {
        if i >= self.plan.blocks() {
            return Err(ReadFault::Refused(PathFault::Index));
        }
        let at = i * self.plan.data_block() as u64;
        if read_filled(&mut self.data, at, block).is_err() {
            return Err(ReadFault::DataFailed);
        }
        if let Err(level) = read_path(&self.plan, i, &mut self.tree, path) {
            return Err(ReadFault::TreeFailed(level));
        }
        match check_block(&self.plan, i, block, path, &self.root) {
            Ok(()) => Ok(()),
            Err(fault) => Err(ReadFault::Refused(fault)),
        }
    }
}

/// The length of a path in bytes: a hash block for each level.
pub fn path_length(plan: &Plan) -> usize
    ensures { result ≡ level_count_of plan.now * plan.now.settings.hash_block }
{
    // Called for the proof: its contract says that the plan is valid, so it has few levels.
    let _blocks = plan.blocks();
    plan.levels() * plan.hash_block()
}

/// Reads the path of a data block: the hash blocks above it at the places that the plan gives them, level 0 first, with
/// zeros where the device ends. The error is the level whose block could not be read.
pub fn read_path<D: Device>(
    plan: &Plan,
    i: u64,
    device: &mut D,
    path: &mut [u8],
) -> Result<(), usize>
    requires index { i < plan.now.blocks }
    requires path { length path.old ≡ level_count_of plan.now * plan.now.settings.hash_block }
    ensures told { D.tells device.old → D.tells device.new }
    ensures same { D.tells device.old → D.content device.new ≡ D.content device.old }
    ensures count { Counts (failed_at (λ _. Some TheDevice) TheDevice result) (D.failures device.old) (D.failures device.new) }
    ensures level { IfErr result (λ level. level < level_count_of plan.now) }
    ensures read { D.tells device.old → OnOk result (IsPathOn plan.now i (D.content device.old) path.new) }
{
    let fan = plan.fan() as u64;
    let size = plan.hash_block();
    let mut index = i;
    for level in 0..plan.levels() {
        index /= fan;
        let at = plan.start(level, index);
        match read_filled(device, at, &mut path[level * size..level * size + size]) {
            Ok(()) => {}
            Err(_) => return Err(level),
        }
    }
    Ok(())
}

/// Reads bytes from an offset on until the buffer is full, with zeros where the device ends.
fn read_filled<D: Device>(device: &mut D, at: u64, buf: &mut [u8]) -> Result<(), Failed>
    ensures told { D.tells device.old → D.tells device.new }
    ensures same { D.tells device.old → D.content device.new ≡ D.content device.old }
    ensures count { CountsFailure (D.failures device.old) (D.failures device.new) result }
    ensures bytes { D.tells device.old
        → OnOk result (buf.new ≡ with_zeros (length buf.old) (take (length buf.old) (drop at (D.content device.old)))) }
{
    match device.read_at(at, buf) {
        Ok(count) => {
            buf[count..].fill(0);
            Ok(())
        }
        Err(failed) => Err(failed),
    }
}
