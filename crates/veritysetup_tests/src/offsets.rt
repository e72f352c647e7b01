//! A hash area that ends past the largest offset.
ghost use Rattle.std.specs.Prelude.{[]};

use fixtures::{Image, SUPERBLOCK_SIZE, image_17, same};
use std::alloc::Global;
use std::test::Fail;
use verity_io::{Device, Failed, MemorySource};
use veritysetup::{VerifyInput, run_verify};

/// A device that ends with these bytes from an offset on, too large for memory. It has no other bytes.
#[derive(Clone, Copy)]
struct Far<'a> {
    offset: u64,
    bytes: &'a [u8],
}

impl Device for Far<'_> {
    ghost tells = { λ _. ⊥ };

    ghost content = { λ _. [] };

    ghost failures = { λ _. 0 };

    fn read_at(&mut self, at: u64, buf: &mut [u8]) -> Result<usize, Failed> {
        if at != self.offset {
            return Ok(0);
        }
        let count = buf.len().min(self.bytes.len());
        buf[..count].copy_from_slice(&self.bytes[..count]);
        Ok(count)
    }

    fn write_at(&mut self, _at: u64, _bytes: &[u8]) -> Result<(), Failed> {
        Ok(())
    }
}

/// A hash offset, and the status and the message of verify.
type Row = (u64, u8, &'static str);

const OFFSETS: [Row; 2] = [
    (
        9_223_372_036_854_773_248,
        2,
        "Verification failed: level 0 block 0 is missing.\n",
    ),
    (
        9_223_372_036_854_773_760,
        1,
        "Data or hash area is too large.\n",
    ),
];

/// Verifies an image whose superblock stands at this offset.
fn check_offset(alloc: Global, image: &Image, row: Row) -> Result<(), Fail> {
    let (offset, status, message) = row;
    let root = hex::encode(alloc, image.root.as_slice())?;
    let root = root.as_str();
    let input = VerifyInput::Stored { offset, root };
    let bytes = image.device.get(..SUPERBLOCK_SIZE).unwrap_or(&[]);
    let mut device = Far { offset, bytes };
    let mut source = MemorySource::new(image.data.as_slice());
    let mut msgs = Vec::new(alloc);
    let ended = run_verify(alloc, &input, &mut source, &mut device, &mut msgs);
    let found = (ended, msgs.as_slice());
    same(offset, found, (status, message.as_bytes()))
}

/// A superblock of 17 blocks at the last offset at which its three hash blocks end at the largest offset or before it,
/// and at the next one.
#[test]
fn an_area_past_the_largest_offset_is_too_large(rt: HostRuntime) -> Result<(), Fail> {
    let image = image_17(rt.alloc())?;
    for &row in &OFFSETS {
        check_offset(rt.alloc(), &image, row)?;
    }
    Ok(())
}
