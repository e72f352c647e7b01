//! Digest of files, and of one file with output files.
use crate::run_result::{RunResult, ends_whole};
use fixtures::zeros::{DATA_SIZE, TREE_SIZE, tree};
use fixtures::{DESCRIPTOR_SIZE, FILE_SIZE_AT, ROOT_AT, block};
use fsverity::{DigestOptions, Form, MemoryOpener, digest_settings, run_digest, run_digest_to};
use sha2::{Digest as Hasher, Sha256};
use std::alloc::{AllocError, Global};
use verity_io::{MemoryDevice, MemorySource};

const OPTIONS: DigestOptions<'static> = DigestOptions {
    hash_alg: None,
    block_size: Some("512"),
    salt: None,
    files: 1,
    out_files: false,
};

/// The line of the file.
const LINE: &str = "sha256:124501040b815e1c594d5c33a0f4983b34bed80132f220f9c7e0a345473ffa60 a\n";

/// What a run needs, made before it: the file, and what the run writes to.
#[derive(Drop)]
struct Prepared {
    data: Vec<u8>,
    tree: MemoryDevice,
    descriptor: Vec<u8>,
    out: Vec<u8>,
    msgs: Vec<u8>,
}

fn prepare(alloc: Global) -> Result<Prepared, AllocError> {
    Ok(Prepared {
        data: vec![in alloc; 0u8; DATA_SIZE]?,
        tree: MemoryDevice::new(vec![in alloc; 77u8; TREE_SIZE]?),
        descriptor: Vec::with_capacity(alloc, 1000)?,
        out: Vec::with_capacity(alloc, 1000)?,
        msgs: Vec::with_capacity(alloc, 1000)?,
    })
}

/// Whether a run ended out of memory, with its status and its message.
fn is_out_of_memory(status: u8, msgs: &[u8]) -> bool {
    status == 1 && msgs == b"fsverity: out of memory.\n".as_slice()
}

/// Digests the file twice. After a refusal the lines of the files before it stand.
fn digest(alloc: Global) -> RunResult {
    let Ok(settings) = digest_settings(&OPTIONS) else {
        return RunResult::Wrong;
    };
    let Ok(mut made) = prepare(alloc) else {
        return RunResult::Unprepared;
    };
    let files = [Some(made.data.as_slice()), Some(made.data.as_slice())];
    let mut opener = MemoryOpener::new(&files);
    let status = run_digest(
        alloc,
        &settings,
        Form::Full,
        &["a", "a"],
        &mut opener,
        &mut made.out,
        &mut made.msgs,
    );
    digest_result(status, made.out.as_slice(), made.msgs.as_slice())
}

/// How a run that digests the file twice ended, by what it answered and wrote.
fn digest_result(status: u8, out: &[u8], msgs: &[u8]) -> RunResult {
    let is_refused = is_out_of_memory(status, msgs);
    let line = LINE.as_bytes();
    if status == 0 && out.strip_prefix(line) == Some(line) {
        RunResult::Whole
    } else if is_refused && out.is_empty() {
        RunResult::Untouched
    } else if is_refused && out == line {
        RunResult::Stopped
    } else {
        RunResult::Wrong
    }
}

/// The descriptor of the file, by its root hash.
fn descriptor() -> [u8; DESCRIPTOR_SIZE] {
    let root = Sha256::digest(tree().get(..512).unwrap_or(&[]));
    block(&[
        (0, &[1, 1, 9, 0]),
        (FILE_SIZE_AT, &DATA_SIZE.to_le_bytes()),
        (ROOT_AT, &root),
    ])
}

/// Digests the file with both output files. If the store is refused, they stay as they are and nothing is read; a
/// refused line leaves the tree and the descriptor, and nothing is printed.
fn digest_to(alloc: Global) -> RunResult {
    let Ok(settings) = digest_settings(&OPTIONS) else {
        return RunResult::Wrong;
    };
    let Ok(mut made) = prepare(alloc) else {
        return RunResult::Unprepared;
    };
    let mut source = MemorySource::new(made.data.as_slice());
    let status = run_digest_to(
        alloc,
        &settings,
        Form::Full,
        "a",
        DATA_SIZE as u64,
        &mut source,
        true,
        &mut made.tree,
        true,
        &mut made.descriptor,
        &mut made.out,
        &mut made.msgs,
    );
    digest_to_result(status, source.rest().len(), &made)
}

/// How a run with both output files ended, by what it answered, how many bytes it didn't read, and what it wrote.
fn digest_to_result(status: u8, rest: usize, made: &Prepared) -> RunResult {
    let left = (rest, made.tree.bytes(), made.descriptor.as_slice());
    let is_written = left == (0, tree().as_slice(), descriptor().as_slice());
    let is_as_before = left == (DATA_SIZE, [77; TREE_SIZE].as_slice(), b"".as_slice());
    let is_refused = is_out_of_memory(status, made.msgs.as_slice()) && made.out.is_empty();
    if status == 0 && is_written && made.out.as_slice() == LINE.as_bytes() {
        RunResult::Whole
    } else if is_refused && is_as_before {
        RunResult::Untouched
    } else if is_refused && is_written {
        RunResult::Stopped
    } else {
        RunResult::Wrong
    }
}

/// Digests a file that is absent, which takes no memory.
fn digest_nothing(alloc: Global) -> RunResult {
    let Ok(settings) = digest_settings(&OPTIONS) else {
        return RunResult::Wrong;
    };
    let Ok(mut made) = prepare(alloc) else {
        return RunResult::Unprepared;
    };
    let mut opener = MemoryOpener::new(&[None]);
    let status = run_digest(
        alloc,
        &settings,
        Form::Full,
        &["a"],
        &mut opener,
        &mut made.out,
        &mut made.msgs,
    );
    let text = b"fsverity: cannot open a.\n".as_slice();
    if status == 1 && made.out.is_empty() && made.msgs.as_slice() == text {
        RunResult::Whole
    } else {
        RunResult::Wrong
    }
}

#[test]
fn digest_is_whole(rt: HostRuntime) {
    ends_whole(&rt, digest(rt.alloc()));
}

#[test]
fn digest_with_output_files_is_whole(rt: HostRuntime) {
    ends_whole(&rt, digest_to(rt.alloc()));
}

#[test]
fn digest_of_no_file_is_whole(rt: HostRuntime) {
    ends_whole(&rt, digest_nothing(rt.alloc()));
}
