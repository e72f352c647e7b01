//! Stored trees that are compared with their data: 17 data blocks. All blocks have 512 bytes, so block (1,0) stands at
//! byte 512, (0,0) at 1024 and (0,1) at 1536.
use crate::cases::root_of;
use crate::trees::{small, small_tree};
use fixtures::{data, flip, same};
use std::alloc::Global;
use std::test::Fail;
use verity_hash::Digest;
use verity_tree::{CompareFault, Fused, MemoryDevice, MemorySource, Part, Plan, Store, compare};

/// What is done to a correct tree and its data before they are compared.
#[derive(Clone, Copy, Debug)]
enum Change {
    Nothing,
    /// This byte of the device is changed.
    DeviceByte(usize),
    /// This byte of the data is changed.
    DataByte(usize),
    /// The device is cut to a length.
    DeviceCut(usize),
    /// The data is cut to a length.
    DataCut(usize),
    /// This read of the source fails. Each read takes a data block.
    SourceFails(u64),
    /// This read of the device fails.
    DeviceFails(u64),
}

/// A tree and its data, and the reads of the source and of the device that fail, by their numbers; none for 0.
#[derive(Drop)]
struct Given {
    data: Vec<u8>,
    stored: Vec<u8>,
    root: Digest,
    source_fails: u64,
    device_fails: u64,
}

impl Given {
    /// A correct tree, of which no read fails.
    fn new(alloc: Global) -> Result<Given, Fail> {
        let data = data(alloc, 8704)?;
        let tree = small_tree(alloc, data.as_slice(), 2)?;
        Ok(Given {
            root: root_of(&tree)?,
            stored: tree.on_device(alloc, 512)?,
            data,
            source_fails: 0,
            device_fails: 0,
        })
    }

    /// Makes a change.
    fn change(&mut self, change: Change) {
        match change {
            Change::Nothing => {}
            Change::DeviceByte(at) => flip(&mut self.stored, at),
            Change::DataByte(at) => flip(&mut self.data, at),
            Change::DeviceCut(length) => self.stored.truncate(length),
            Change::DataCut(length) => self.data.truncate(length),
            Change::SourceFails(call) => self.source_fails = call,
            Change::DeviceFails(call) => self.device_fails = call,
        }
    }
}

/// The result, and how many bytes remain in the source.
type Verdict = (Result<(), CompareFault>, usize);

fn verdict(alloc: Global, change: Change) -> Result<Verdict, Fail> {
    let plan = Plan::for_blocks(&small()?, 17, 1)?;
    let mut store = Store::new(alloc, &plan)?;
    let mut given = Given::new(alloc)?;
    given.change(change);
    let Given {
        data,
        stored,
        root,
        source_fails,
        device_fails,
    } = given;
    let mut source = Fused::new(MemorySource::new(data.as_slice()), source_fails);
    let mut device = Fused::new(MemoryDevice::new(stored), device_fails);
    let result = compare(&plan, &mut store, &mut source, &mut device, &root);
    Ok((result, source.inner().rest().len()))
}

/// A hash block that differs, and where.
fn differs(level: usize, block: u64, part: Part) -> Result<(), CompareFault> {
    Err(CompareFault::Differs { level, block, part })
}

#[test]
fn the_first_difference_is_named(rt: HostRuntime) -> Result<(), Fail> {
    let failed = CompareFault::DeviceFailed { level: 0, block: 1 };
    let cases = [
        (Change::Nothing, Ok(()), 0),
        (Change::DeviceByte(511), Ok(()), 0),
        (Change::DeviceByte(512), differs(1, 0, Part::Child(0)), 0),
        (Change::DeviceByte(544), differs(1, 0, Part::Child(1)), 0),
        (Change::DeviceByte(1023), differs(1, 0, Part::Spare), 0),
        (Change::DeviceByte(1024), differs(0, 0, Part::Child(0)), 512),
        (
            Change::DeviceByte(1535),
            differs(0, 0, Part::Child(15)),
            512,
        ),
        (Change::DeviceByte(1536), differs(0, 1, Part::Child(16)), 0),
        (Change::DeviceByte(1568), differs(0, 1, Part::Spare), 0),
        (Change::DataByte(8192), differs(0, 1, Part::Child(16)), 0),
        (Change::DataByte(512), differs(0, 0, Part::Child(1)), 512),
        (Change::DeviceCut(2047), differs(0, 1, Part::Missing), 0),
        (Change::DeviceCut(1535), differs(0, 0, Part::Missing), 512),
        (Change::DeviceCut(0), differs(0, 0, Part::Missing), 512),
        (Change::DataCut(8703), Err(CompareFault::SourceShort(16)), 0),
        (
            Change::SourceFails(17),
            Err(CompareFault::SourceFailed(16)),
            512,
        ),
        (Change::DeviceFails(2), Err(failed), 0),
    ];
    for &(change, result, rest) in &cases {
        let found = verdict(rt.alloc(), change)?;
        same(format_args!("{change:?}"), found, (result, rest))?;
    }
    Ok(())
}
