//! A stored tree is compared with its data while each read of a hash block fails in turn: which block is named, at
//! every level, and how much of the data was read.
use crate::cases::{Case, PADDED, Row, SHA256};
use fixtures::same;
use std::alloc::Global;
use std::test::Fail;
use verity_tree::{CompareFault, Fused, MemoryDevice, MemorySource, Store, compare};

/// The hash blocks above nine data blocks, with two digests in each, in the order in which they close: the level, the
/// index, and how many bytes of the data are left then. The last four close with the same data block.
const ORDER: [(usize, u64, usize); 11] = [
    (0, 0, 448),
    (0, 1, 320),
    (1, 0, 320),
    (0, 2, 192),
    (0, 3, 64),
    (1, 1, 64),
    (2, 0, 64),
    (0, 4, 0),
    (1, 2, 0),
    (2, 1, 0),
    (3, 0, 0),
];

/// The tree above nine data blocks.
const NINE: Row = (PADDED, SHA256, b"salt", (64, 64), (2, 32), (576, 4));

/// The result if this read fails, how many bytes of the data are left, and how many reads were made.
type Ending = (Result<(), CompareFault>, usize, u64);

fn ending(alloc: Global, case: &Case, failing: u64) -> Result<Ending, Fail> {
    let mut store = Store::new(alloc, &case.plan)?;
    let mut source = MemorySource::new(case.data.as_slice());
    let mut device = Fused::new(MemoryDevice::new(case.tree.on_device(alloc, 64)?), failing);
    let result = compare(&case.plan, &mut store, &mut source, &mut device, &case.root);
    Ok((result, source.rest().len(), device.calls()))
}

/// The first read whose failure isn't answered with its block, at once, with as much data read as it should be.
fn first_wrong(alloc: Global, case: &Case) -> Result<Option<u64>, Fail> {
    for (before, &(level, block, rest)) in ORDER.iter().enumerate() {
        let failing = (before as u64).saturating_add(1);
        let result = Err(CompareFault::DeviceFailed { level, block });
        if ending(alloc, case, failing)? != (result, rest, failing) {
            return Ok(Some(failing));
        }
    }
    Ok(None)
}

#[test]
fn each_failing_read_names_its_block(rt: HostRuntime) -> Result<(), Fail> {
    let case = Case::new(rt.alloc(), &NINE)?;
    same("the failing read", first_wrong(rt.alloc(), &case)?, None)
}
