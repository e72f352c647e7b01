//! Superblocks and trees from an attacker: dump and verify end with a status and one line that say what is wrong, or
//! find nothing wrong, and change nothing.
use fixtures::{Image, SUPERBLOCK_FIELDS, SUPERBLOCK_SIZE, flip, flip_bit, image_of, lay, same};
use std::alloc::{AllocError, Global};
use std::test::Fail;
use verity_io::{MemoryDevice, MemorySource};
use veritysetup::{VerifyInput, run_dump, run_verify};

/// The image of 17 blocks of 512 bytes, with a salt.
fn salted_image(alloc: Global) -> Result<Image, AllocError> {
    image_of(alloc, 512, b"\xab\xcd", 17, 2)
}

/// Whether a run ended as one may: with status 0 and no message, or with one of these and one line.
fn is_an_end(status: u8, may: &[u8], msgs: &[u8]) -> bool {
    let lines = msgs.iter().filter(|byte| **byte == b'\n').count();
    if status == 0 {
        return msgs.is_empty();
    }
    may.contains(&status) && lines == 1 && msgs.ends_with(b"\n")
}

/// Whether a dump of a hash device ends as it may, with a report just if its status is 0.
fn is_dumped(alloc: Global, device: &mut MemoryDevice) -> bool {
    let mut out = Vec::new(alloc);
    let mut msgs = Vec::new(alloc);
    let status = run_dump(alloc, 0, "hash.img", device, &mut out, &mut msgs);
    is_an_end(status, &[1], msgs.as_slice()) && out.is_empty() == (status == 1)
}

/// Dumps a hash device, and verifies it against the data of an image. The result is the status of verify, or none if
/// one of the two didn't end as it may, or changed the device.
fn verified(alloc: Global, image: &Image, bytes: &[u8]) -> Result<Option<u8>, AllocError> {
    let root = hex::encode(alloc, image.root.as_slice())?;
    let mut device = MemoryDevice::new(bytes.to_vec(alloc)?);
    if !is_dumped(alloc, &mut device) {
        return Ok(None);
    }
    let mut msgs = Vec::new(alloc);
    let input = VerifyInput::Stored {
        offset: 0,
        root: root.as_str(),
    };
    let mut source = MemorySource::new(image.data.as_slice());
    let status = run_verify(alloc, &input, &mut source, &mut device, &mut msgs);
    let ended = is_an_end(status, &[1, 2, 4], msgs.as_slice()) && device.bytes() == bytes;
    Ok(ended.then_some(status))
}

/// Pseudorandom numbers, always the same from one seed: the high half of Knuth's linear congruential generator of 64
/// bits.
#[derive(Clone, Copy)]
struct Numbers {
    state: u64,
}

impl Numbers {
    /// The next number.
    fn next(&mut self) -> u64 {
        let state = self.state.wrapping_mul(6_364_136_223_846_793_005);
        self.state = state.wrapping_add(1_442_695_040_888_963_407);
        self.state >> 32
    }

    /// The next number below a bound.
    fn below(&mut self, bound: usize) -> usize {
        (self.next() as usize).checked_rem(bound).unwrap_or(0)
    }

    /// The next bytes for a field of this width: zeros, ones, one bit, or any bytes.
    fn field(&mut self, width: usize) -> [u8; 256] {
        let mut bytes = [0; 256];
        let kind = self.below(8);
        for byte in &mut bytes {
            *byte = match kind {
                0 => 0xff,
                1 | 2 => self.next().to_le_bytes()[3],
                _ => 0,
            };
        }
        if kind > 3 {
            flip_bit(&mut bytes, self.below(width.saturating_mul(8)));
        }
        bytes
    }
}

/// Dumps and verifies an image with other bytes in a field of this offset and width.
fn verified_with_field(
    alloc: Global,
    image: &Image,
    at: usize,
    width: usize,
    numbers: &mut Numbers,
) -> Result<Option<u8>, AllocError> {
    let field = numbers.field(width);
    let mut bytes = image.device.to_vec(alloc)?;
    lay(&mut bytes, &[(at, field.get(..width).unwrap_or(&[]))]);
    verified(alloc, image, bytes.as_slice())
}

/// An error unless every change of a field is judged, of which there are 200. It notes each status that comes up.
fn judge_field(
    alloc: Global,
    image: &Image,
    (at, width): (usize, usize),
    numbers: &mut Numbers,
    seen: &mut [bool; 5],
) -> Result<(), Fail> {
    for round in 0..200 {
        let status = verified_with_field(alloc, image, at, width, numbers)?;
        same(format_args!("{at}, round {round}"), status.is_some(), true)?;
        if let Some(place) = seen.get_mut(usize::from(status.unwrap_or(3))) {
            *place = true;
        }
    }
    Ok(())
}

/// An error unless verify finds that a byte of the device of an image is changed.
fn refuse_change(alloc: Global, image: &Image, at: usize) -> Result<(), Fail> {
    let mut bytes = image.device.to_vec(alloc)?;
    flip(&mut bytes, at);
    same(at, verified(alloc, image, bytes.as_slice())?, Some(2))
}

/// Every status but that of too little memory comes up.
#[test]
fn superblocks_with_a_changed_field_are_judged(rt: HostRuntime) -> Result<(), Fail> {
    let image = salted_image(rt.alloc())?;
    let mut numbers = Numbers { state: 17 };
    let mut seen = [false; 5];
    for field in &SUPERBLOCK_FIELDS {
        judge_field(rt.alloc(), &image, *field, &mut numbers, &mut seen)?;
    }
    same("the statuses", seen, [true, true, true, false, true])
}

#[test]
fn trees_with_a_changed_byte_are_refused(rt: HostRuntime) -> Result<(), Fail> {
    let alloc = rt.alloc();
    let image = salted_image(alloc)?;
    let whole = verified(alloc, &image, image.device.as_slice())?;
    same("no change", whole, Some(0))?;
    for at in SUPERBLOCK_SIZE..2048 {
        refuse_change(alloc, &image, at)?;
    }
    Ok(())
}
