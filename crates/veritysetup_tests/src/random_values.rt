//! The salt and the UUID that format draws if they aren't given: both come from a generator of the crate `rand` that is
//! seeded with 32 bytes of the system. Without these there is no hash device.
use crate::program_runs::{disk_of, output_of};
use fixtures::{Image, REPORT_17, Report, RunOutput, UUID, UUID_AT, data, image_of, lay, same};
use memory_runtime::{Disk, MemoryRuntime};
use rand::rngs::StdRng;
use rand::{Rng, SeedableRng};
use std::alloc::{AllocError, Global};
use std::test::Fail;

/// Seeds. The first three differ in one byte: the last, and the third.
const SEEDS: [[u8; 32]; 5] = [
    [7; 32],
    [
        7, 7, 7, 7, 7, 7, 7, 7, 7, 7, 7, 7, 7, 7, 7, 7, 7, 7, 7, 7, 7, 7, 7, 7, 7, 7, 7, 7, 7, 7,
        7, 8,
    ],
    [
        7, 7, 8, 7, 7, 7, 7, 7, 7, 7, 7, 7, 7, 7, 7, 7, 7, 7, 7, 7, 7, 7, 7, 7, 7, 7, 7, 7, 7, 7,
        7, 7,
    ],
    [
        0xf1, 0x02, 0xe3, 0x14, 0xd5, 0x26, 0xc7, 0x38, 0xb9, 0x4a, 0xab, 0x5c, 0x9d, 0x6e, 0x8f,
        0x70, 0x71, 0x82, 0x63, 0x94, 0x55, 0xa6, 0x47, 0xb8, 0x39, 0xca, 0x2b, 0xdc, 0x1d, 0xee,
        0x0f, 0xf0,
    ],
    [0; 32],
];

/// Options beside the block sizes, and whether a salt and a UUID are drawn for them.
type Options = (&'static str, bool, bool);

const OPTIONS: [Options; 4] = [
    ("", true, true),
    ("--salt abcdef ", false, true),
    ("--uuid 00112233-4455-4677-8899-aabbccddeeff ", true, false),
    (
        "--salt abcdef --uuid 00112233-4455-4677-8899-aabbccddeeff ",
        false,
        false,
    ),
];

/// The first 48 bytes of the generator with this seed: 32 for the salt, 16 for the UUID.
fn drawn(seed: [u8; 32]) -> ([u8; 32], [u8; 16]) {
    let mut generator = StdRng::from_seed(seed);
    let mut salt = [0; 32];
    for number in 0..4usize {
        let next = generator.next_u64().to_le_bytes();
        lay(&mut salt, &[(number.saturating_mul(8), &next)]);
    }
    let mut uuid = [0; 16];
    for number in 0..2usize {
        let next = generator.next_u64().to_le_bytes();
        lay(&mut uuid, &[(number.saturating_mul(8), &next)]);
    }
    (salt, uuid)
}

/// The UUID of version 4 of these bytes (RFC 9562, section 5.4).
fn random_uuid(bytes: &[u8]) -> [u8; 16] {
    let mut uuid = [0; 16];
    lay(&mut uuid, &[(0, bytes)]);
    uuid[6] = uuid[6] & 0x0f | 0x40;
    uuid[8] = uuid[8] & 0x3f | 0x80;
    uuid
}

/// The text of a UUID (RFC 9562, section 4).
fn uuid_text(alloc: Global, uuid: &[u8; 16]) -> Result<String, AllocError> {
    let mut text = String::new(alloc);
    for (place, byte) in uuid.iter().enumerate() {
        if matches!(place, 4 | 6 | 8 | 10) {
            text.push('-')?;
        }
        write!(text, "{byte:02x}")?;
    }
    Ok(text)
}

/// The salt and the UUID with a seed, each drawn or given.
fn values(
    alloc: Global,
    seed: [u8; 32],
    (_, draws_salt, draws_uuid): Options,
) -> Result<(Vec<u8>, [u8; 16]), AllocError> {
    let (drawn_salt, drawn_uuid) = drawn(seed);
    let salt = if draws_salt {
        Vec::from_slice(alloc, &drawn_salt)?
    } else {
        Vec::from_slice(alloc, b"\xab\xcd\xef")?
    };
    let uuid = if draws_uuid {
        random_uuid(&drawn_uuid)
    } else {
        UUID
    };
    Ok((salt, uuid))
}

/// The report of an image of 17 blocks with these texts of its UUID and its salt.
fn report<'a>(
    alloc: Global,
    uuid: &'a str,
    salt: &'a str,
    root: &[u8],
) -> Result<String, AllocError> {
    let report = Report {
        path: "hash",
        uuid,
        salt,
        ..REPORT_17
    };
    report.with_root(alloc, root)
}

/// What format has to print of the image with this salt, UUID and root hash.
fn printed(alloc: Global, salt: &[u8], uuid: &[u8; 16], root: &[u8]) -> Result<String, AllocError> {
    let salt = hex::encode(alloc, salt)?;
    let uuid = uuid_text(alloc, uuid)?;
    report(alloc, uuid.as_str(), salt.as_str(), root)
}

/// What format of 17 blocks says, with a seed and with options.
fn formatted(
    alloc: Global,
    disk: &Disk,
    seed: &[u8; 32],
    options: &str,
) -> Result<RunOutput, Fail> {
    let words = format!(in alloc;
        "veritysetup format --data-block-size 512 --hash-block-size 512 {options}data hash"
    )?;
    Ok(run_with_random(alloc, disk, words.as_str(), seed.as_slice()))
}

/// Runs the program with these random bytes.
fn run_with_random<'a>(
    alloc: Global,
    disk: &'a Disk,
    words: &'a str,
    random: &'a [u8],
) -> RunOutput {
    let mut runtime = MemoryRuntime::new(alloc, disk, words);
    runtime.random = random;
    output_of(alloc, &runtime)
}

/// The image of 17 blocks with a seed and options, and what format has to print of it.
fn expected(
    alloc: Global,
    seed: [u8; 32],
    options: Options,
) -> Result<(Image, String), AllocError> {
    let (salt, uuid) = values(alloc, seed, options)?;
    let mut image = image_of(alloc, 512, salt.as_slice(), 17, 2)?;
    lay(&mut image.device, &[(UUID_AT, &uuid)]);
    let text = printed(alloc, salt.as_slice(), &uuid, image.root.as_slice())?;
    Ok((image, text))
}

/// What goes wrong in the run or on the hash device with a seed and options.
fn wrong_format(
    alloc: Global,
    disk: &Disk,
    seed: [u8; 32],
    options: Options,
) -> Result<Option<&'static str>, Fail> {
    let (image, text) = expected(alloc, seed, options)?;
    let differs = formatted(alloc, disk, &seed, options.0)?.differs(0, text.as_bytes(), b"");
    Ok(match differs {
        None if disk.bytes_of("hash")? != image.device => Some("the hash device"),
        differs => differs,
    })
}

/// What goes wrong with a seed and options, and how many random bytes are asked for.
fn wrong_in(
    alloc: Global,
    seed: [u8; 32],
    options: Options,
) -> Result<(Option<&'static str>, u64), Fail> {
    let disk = disk_of(alloc, data(alloc, 8704)?.as_slice())?;
    let wrong = wrong_format(alloc, &disk, seed, options)?;
    Ok((wrong, disk.random_bytes()?))
}

#[test]
fn salt_and_uuid_are_drawn_by_a_seed_of_32_bytes(rt: HostRuntime) -> Result<(), Fail> {
    for &seed in &SEEDS {
        for &options in &OPTIONS {
            let found = wrong_in(rt.alloc(), seed, options)?;
            let asked = if options.1 || options.2 { 32 } else { 0 };
            same(format_args!("{seed:?}, {options:?}"), found, (None, asked))?;
        }
    }
    Ok(())
}

#[test]
fn no_random_bytes_make_no_file(rt: HostRuntime) -> Result<(), Fail> {
    let alloc = rt.alloc();
    let disk = disk_of(alloc, &[5; 8192])?;
    for &words in &[
        "veritysetup format data hash",
        "veritysetup format --salt ab data hash",
        "veritysetup format --uuid 00112233-4455-4677-8899-aabbccddeeff data hash",
    ] {
        let output = run_with_random(alloc, &disk, words, &[]);
        let differs = output.differs(4, b"", b"Cannot get random bytes.\n");
        same(words, (differs, disk.has("hash")?), (None, false))?;
    }
    Ok(())
}
