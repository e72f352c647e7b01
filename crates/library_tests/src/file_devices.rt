//! Devices over files: blocks of many lengths at many offsets, up to the largest, files that refuse an offset, and many
//! interrupts.
use crate::sparse::{FAR, INTERRUPTS, Sparse};
use fixtures::{data, same};
use std::alloc::Global;
use std::io;
use std::io::{ErrorKind, Read, Seek, SeekFrom, Write};
use std::test::Fail;
use verity_io::{Device, Failed, FileDevice, MOST_BYTES};

/// Offsets near powers of two, up to some that only a file with a hole can have.
const OFFSETS: [u64; 8] = [
    0,
    1,
    4_095,
    (1 << 32) - 1,
    (1 << 40) - 1,
    1 << 41,
    (1 << 53) + 1,
    1 << 62,
];

/// Lengths of blocks.
const LENGTHS: [usize; 6] = [1, 4096, 4097, 65_537, 131_072, 524_288];

/// Whether a block that is written at an offset of a file with a hole before it is read from there.
fn is_kept(alloc: Global, at: u64, block: &[u8]) -> Result<bool, Fail> {
    if at > MOST_BYTES || block.len() as u64 > MOST_BYTES - at {
        return Err("a block within the largest offset".into());
    }
    let mut device = FileDevice::new(Sparse::new(at, Vec::new(alloc), usize::MAX, 0));
    let written = device.write_at(at, block);
    let mut buf = vec![in alloc; 7u8; block.len()]?;
    let read = device.read_at(at, buf.as_mut_slice());
    Ok(written == Ok(()) && read == Ok(block.len()) && buf.as_slice() == block)
}

/// Tries a block at each offset. The last one is that at which it ends at the largest offset.
fn try_offsets(alloc: Global, block: &[u8]) -> Result<(), Fail> {
    let last = MOST_BYTES.saturating_sub(block.len() as u64);
    for &at in OFFSETS.iter().chain(&[last]) {
        let is_kept = is_kept(alloc, at, block)?;
        same(format_args!("{at}, {}", block.len()), is_kept, true)?;
    }
    Ok(())
}

#[test]
fn blocks_of_each_length_stand_at_each_offset(rt: HostRuntime) -> Result<(), Fail> {
    let alloc = rt.alloc();
    for &length in &LENGTHS {
        try_offsets(alloc, data(alloc, length)?.as_slice())?;
    }
    Ok(())
}

/// Whether a device gives these bytes to a buffer from an offset on; for none, whether the read fails.
fn gives(
    device: &mut FileDevice<Sparse>,
    at: u64,
    buf: &mut [u8],
    expected: Option<&[u8]>,
) -> bool {
    match device.read_at(at, buf) {
        Ok(count) => expected == Some(&buf[..count]),
        Err(Failed) => expected.is_none(),
    }
}

/// The first of these offsets from which a device gives something else than stands beside it.
fn differs(
    device: &mut FileDevice<Sparse>,
    buf: &mut [u8],
    reads: &[(u64, Option<&[u8]>)],
) -> Option<u64> {
    for (at, expected) in reads {
        if !gives(device, *at, buf, *expected) {
            return Some(*at);
        }
    }
    None
}

/// Writes a block of 70000 bytes at a far offset of a file that takes so many bytes in each call, and reads it.
fn try_far_offset(alloc: Global, block: &[u8], most: usize) -> Result<(), Fail> {
    if block.len() != 70_000 {
        return Err("70000 bytes".into());
    }
    let mut device = FileDevice::new(Sparse::new(FAR, Vec::new(alloc), most, 0));
    let written = device.write_at(FAR + 100, block);
    let results = [written, device.write_at(100, b"a")];
    let reads = [
        (FAR + 100, Some(block)),
        (FAR + 65_099, Some(&block[64_999..])),
        (FAR + 70_100, Some(b"")),
        (100, None),
    ];
    let mut buf = vec![in alloc; 7u8; 70_000]?;
    let found = (results, differs(&mut device, &mut buf, &reads));
    same(most, found, ([Ok(()), Err(Failed)], None))
}

#[test]
fn long_blocks_stand_at_far_offsets(rt: HostRuntime) -> Result<(), Fail> {
    let block = data(rt.alloc(), 70_000)?;
    for &most in &[usize::MAX, 1_000] {
        try_far_offset(rt.alloc(), block.as_slice(), most)?;
    }
    Ok(())
}

#[test]
fn a_refused_offset_lies_past_the_end(rt: HostRuntime) -> Result<(), Fail> {
    let mut file = Sparse::new(0, b"abcd".to_vec(rt.alloc())?, 1, 0);
    file.top = 2;
    let mut device = FileDevice::new(file);
    let reads = [
        (2, Some(b"c".as_slice())),
        (3, None),
        (4, Some(b"")),
        (u64::MAX, Some(b"")),
    ];
    let found = differs(&mut device, &mut [9; 1], &reads);
    let found = (found, device.write_at(4, b"e"));
    same("a refused offset", found, (None, Err(Failed)))
}

/// The last bytes of the longest possible file. A read that would end past them isn't tried.
#[test]
fn a_block_ends_at_the_largest_offset(rt: HostRuntime) -> Result<(), Fail> {
    let first = MOST_BYTES - 4;
    let file = Sparse::new(first, b"abcd".to_vec(rt.alloc())?, usize::MAX, 0);
    let mut device = FileDevice::new(file);
    let reads = [
        (first, Some(b"abcd".as_slice())),
        (first + 1, None),
        (MOST_BYTES, Some(b"")),
    ];
    let found = differs(&mut device, &mut [9; 4], &reads);
    same("the largest offset", found, None)
}

#[test]
fn an_interrupted_device_tries_again(rt: HostRuntime) -> Result<(), Fail> {
    let alloc = rt.alloc();
    let bytes = data(alloc, 65_536)?;
    assert!(rt; bytes.len() == 65_536);
    let mut device = FileDevice::new(Sparse::new(0, Vec::new(alloc), 10_000, INTERRUPTS));
    let written = device.write_at(0, bytes.as_slice());
    let mut buf = vec![in alloc; 7u8; 65_536]?;
    let found = differs(&mut device, &mut buf, &[(0, Some(bytes.as_slice()))]);
    same("an interrupted device", (written, found), (Ok(()), None))
}

/// A file that refuses each offset, and says only where it ends.
#[derive(Drop)]
struct Refusing {
    end: u64,
}

impl Seek for Refusing {
    fn seek(&mut self, to: SeekFrom) -> io::Result<u64> {
        match to {
            SeekFrom::End(0) => Ok(self.end),
            _ => Err(io::Error::from(ErrorKind::InvalidInput)),
        }
    }
}

impl Read for Refusing {
    fn read(&mut self, _buf: &mut [u8]) -> io::Result<usize> {
        Err(io::Error::from(ErrorKind::Other))
    }
}

impl Write for Refusing {
    fn write(&mut self, _buf: &[u8]) -> io::Result<usize> {
        Err(io::Error::from(ErrorKind::Other))
    }

    fn flush(&mut self) -> io::Result<()> {
        Ok(())
    }
}

/// The end of a file, a refused offset, and the result to a read from there: nothing if the file ends before it or at
/// it, and otherwise a failure.
const REFUSED: [(u64, u64, Result<usize, Failed>); 12] = [
    (0, 0, Ok(0)),
    (0, 1, Ok(0)),
    (0, 1 << 41, Ok(0)),
    (0, MOST_BYTES, Ok(0)),
    (0, u64::MAX, Ok(0)),
    (1, 0, Err(Failed)),
    (1, 1, Ok(0)),
    (1, 2, Ok(0)),
    (4096, 4095, Err(Failed)),
    (4096, 4096, Ok(0)),
    (MOST_BYTES, MOST_BYTES - 1, Err(Failed)),
    (MOST_BYTES, MOST_BYTES, Ok(0)),
];

#[test]
fn a_refused_offset_is_past_the_end_or_a_failure() -> Result<(), Fail> {
    for &(end, at, result) in &REFUSED {
        let mut device = FileDevice::new(Refusing { end });
        let found = device.read_at(at, &mut [7; 1]);
        same(format_args!("{end}, {at}"), found, result)?;
    }
    Ok(())
}

/// A read that would end past the largest offset isn't tried.
#[test]
fn an_empty_file_gives_nothing_from_any_offset(rt: HostRuntime) -> Result<(), Fail> {
    for &at in &[0, 1, 1 << 41, MOST_BYTES - 1, MOST_BYTES, u64::MAX] {
        let mut device = FileDevice::new(Sparse::new(0, Vec::new(rt.alloc()), usize::MAX, 0));
        same(at, device.read_at(at, &mut [7; 4096]), Ok(0))?;
    }
    Ok(())
}
