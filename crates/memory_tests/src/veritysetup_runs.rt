//! Format, dump and verify of an image of 257 blocks, with a superblock and without.
use crate::run_result::{RunResult, ends_whole};
use fixtures::zeros::{DATA_SIZE, ROOT, TREE_SIZE, tree};
use fixtures::{SUPERBLOCK_SIZE, block, flip, superblock};
use std::alloc::{AllocError, Global};
use std::test::Fail;
use verity_io::{MemoryDevice, MemorySource};
use veritysetup::{
    RawOptions, Settings, VerifyInput, run_dump, run_format, run_verify, settings_of,
};

const UUID: &str = "00112233-4455-4677-8899-aabbccddeeff";

const OPTIONS: RawOptions<'static> = RawOptions {
    hash: None,
    format: None,
    data_block_size: Some("512"),
    hash_block_size: Some("512"),
    data_blocks: None,
    salt: Some("-"),
    uuid: Some(UUID),
    hash_offset: None,
    root: None,
    no_superblock: false,
    same_file: false,
};

/// The options of a tree without a superblock.
const BARE: RawOptions<'static> = RawOptions {
    uuid: None,
    no_superblock: true,
    ..OPTIONS
};

/// The lines of the report up to the UUID.
const HEAD: &str = "VERITY header information for hash.img\nUUID:            \t";

/// The lines of the report after that of the UUID, without the root hash.
const LINES: &str = "
Hash type:       \t1
Data blocks:     \t257
Data block size: \t512
Hash block size: \t512
Hash algorithm:  \tsha256
Salt:            \t-
";

/// The size of the hash device in bytes.
const DEVICE_SIZE: usize = SUPERBLOCK_SIZE + TREE_SIZE;

/// What a run needs, made before it: the data, a hash device that holds some bytes, and what the run writes to.
#[derive(Drop)]
struct Prepared {
    data: Vec<u8>,
    device: MemoryDevice,
    out: Vec<u8>,
    msgs: Vec<u8>,
}

fn prepare(alloc: Global, held: &[u8]) -> Result<Prepared, AllocError> {
    let mut device = Vec::with_capacity(alloc, DEVICE_SIZE)?;
    device.extend_from_slice(held)?;
    Ok(Prepared {
        data: vec![in alloc; 0u8; DATA_SIZE]?,
        device: MemoryDevice::new(device),
        out: Vec::with_capacity(alloc, 1000)?,
        msgs: Vec::with_capacity(alloc, 1000)?,
    })
}

/// The hash device: the superblock and the tree.
fn hash_device() -> [u8; DEVICE_SIZE] {
    block(&[
        (0, &superblock(1, b"sha256", (512, 512), 257, &[])),
        (SUPERBLOCK_SIZE, &tree()),
    ])
}

/// Whether a run ended out of memory, with its status and its message.
fn is_out_of_memory(status: u8, msgs: &[u8]) -> bool {
    status == 3 && msgs == b"Out of memory.\n".as_slice()
}

/// Whether a text is these words, one after another.
fn is_made_of(text: &[u8], words: &[&str]) -> bool {
    let mut rest = text;
    for word in words {
        match rest.strip_prefix(word.as_bytes()) {
            Some(more) => rest = more,
            None => return false,
        }
    }
    rest.is_empty()
}

/// Formats a device that holds some bytes. If the store is refused, the device stays as it was and nothing is read; if
/// the report is refused, the whole hash device stands and nothing is printed.
fn format(
    alloc: Global,
    settings: &Settings,
    before: &[u8],
    after: &[u8],
    uuid: &str,
) -> RunResult {
    let Ok(mut made) = prepare(alloc, before) else {
        return RunResult::Unprepared;
    };
    let mut source = MemorySource::new(made.data.as_slice());
    let status = run_format(
        alloc,
        settings,
        "hash.img",
        &mut source,
        &mut made.device,
        &mut made.out,
        &mut made.msgs,
    );
    format_result(status, source.rest().len(), &made, before, after, uuid)
}

/// How a run of format ended, by what it answered, how many bytes it didn't read, and what it wrote.
fn format_result(
    status: u8,
    rest: usize,
    made: &Prepared,
    before: &[u8],
    after: &[u8],
    uuid: &str,
) -> RunResult {
    let left = (rest, made.device.bytes());
    let words = [HEAD, uuid, LINES, "Root hash:       \t", ROOT, "\n"];
    let is_told = is_made_of(made.out.as_slice(), &words);
    let is_refused = is_out_of_memory(status, made.msgs.as_slice()) && made.out.is_empty();
    if status == 0 && left == (0, after) && is_told {
        RunResult::Whole
    } else if is_refused && left == (DATA_SIZE, before) {
        RunResult::Untouched
    } else if is_refused && left == (0, after) {
        RunResult::Stopped
    } else {
        RunResult::Wrong
    }
}

/// Dumps the hash device.
fn dump(alloc: Global) -> RunResult {
    let Ok(mut made) = prepare(alloc, &hash_device()) else {
        return RunResult::Unprepared;
    };
    let status = run_dump(
        alloc,
        0,
        "hash.img",
        &mut made.device,
        &mut made.out,
        &mut made.msgs,
    );
    if status == 0 && is_made_of(made.out.as_slice(), &[HEAD, UUID, LINES]) {
        RunResult::Whole
    } else if is_out_of_memory(status, made.msgs.as_slice()) && made.out.is_empty() {
        RunResult::Untouched
    } else {
        RunResult::Wrong
    }
}

/// Verifies a device that holds some bytes. The data is read only if there is a store.
fn verify(alloc: Global, input: &VerifyInput<'_>, held: &[u8], expected: (u8, &[u8])) -> RunResult {
    let Ok(mut made) = prepare(alloc, held) else {
        return RunResult::Unprepared;
    };
    let mut source = MemorySource::new(made.data.as_slice());
    let status = run_verify(alloc, input, &mut source, &mut made.device, &mut made.msgs);
    let msgs = made.msgs.as_slice();
    if (status, msgs) == expected {
        RunResult::Whole
    } else if is_out_of_memory(status, msgs) && source.rest().len() == DATA_SIZE {
        RunResult::Untouched
    } else if (status, msgs) == (expected.0, b"") {
        RunResult::NoMessage
    } else {
        RunResult::Wrong
    }
}

/// The device's superblock, and the root hash.
const STORED: VerifyInput<'static> = VerifyInput::Stored {
    offset: 0,
    root: ROOT,
};

#[test]
fn format_is_whole(rt: HostRuntime) -> Result<(), Fail> {
    let settings = settings_of(&OPTIONS, DATA_SIZE as u64, None)?;
    let found = format(rt.alloc(), &settings, &[], &hash_device(), UUID);
    ends_whole(&rt, found);
    Ok(())
}

#[test]
fn format_of_a_tree_alone_is_whole(rt: HostRuntime) -> Result<(), Fail> {
    let settings = settings_of(&BARE, DATA_SIZE as u64, None)?;
    let found = format(rt.alloc(), &settings, &[77; TREE_SIZE], &tree(), "-");
    ends_whole(&rt, found);
    Ok(())
}

#[test]
fn dump_is_whole(rt: HostRuntime) {
    ends_whole(&rt, dump(rt.alloc()));
}

#[test]
fn verify_is_whole(rt: HostRuntime) {
    let found = verify(rt.alloc(), &STORED, &hash_device(), (0, b""));
    ends_whole(&rt, found);
}

#[test]
fn verify_of_a_tree_alone_is_whole(rt: HostRuntime) -> Result<(), Fail> {
    let raw = RawOptions {
        root: Some(ROOT),
        ..BARE
    };
    let settings = settings_of(&raw, DATA_SIZE as u64, None)?;
    let input = VerifyInput::Given(&settings);
    let found = verify(rt.alloc(), &input, &tree(), (0, b""));
    ends_whole(&rt, found);
    Ok(())
}

#[test]
fn verify_of_a_changed_device_is_whole(rt: HostRuntime) {
    let mut device = hash_device();
    flip(&mut device, DEVICE_SIZE - 1);
    let text = b"Verification failed: level 0 block 16, spare bytes.\n".as_slice();
    let found = verify(rt.alloc(), &STORED, &device, (2, text));
    ends_whole(&rt, found);
}
