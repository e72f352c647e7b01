//! A run of digest over files in memory that fail: the line before the fault, and the message of each.
use crate::stating_opener::StatingOpener;
use fixtures::{RunOutput, data, same};
use fsverity::{
    DigestFault, DigestOptions, Form, FusedOpener, digest_message, digest_settings, run_digest,
};
use std::alloc::Global;
use std::test::Fail;

/// How many bytes a file has and how many are stated for it, the read that fails, or 0, and the message.
const FAULTS: [((usize, u64), u64, &str); 4] = [
    (
        (4096, 9_223_372_036_854_775_807),
        0,
        "fsverity: file is too large: a b.\n",
    ),
    (
        (4096, 4097),
        0,
        "fsverity: file ends before the end of block 1: a b.\n",
    ),
    (
        (3, 4),
        0,
        "fsverity: file ends before the end of block 0: a b.\n",
    ),
    ((4097, 4097), 2, "fsverity: cannot read block 1: a b.\n"),
];

/// The line of an empty file, by docs/DEFINITIONS.md.
const EMPTY_LINE: &str =
    "sha256:3d248ca542a24fc62d1c43b916eae5016878e2533c88238480b26128a1f1af95 first\n";

/// What isn't as expected of a run over an empty file, some bytes of which a length is stated, and another empty file.
fn differs(
    alloc: Global,
    (held, stated): (usize, u64),
    failing: u64,
    text: &str,
) -> Result<Option<&'static str>, Fail> {
    let settings = digest_settings(&DigestOptions {
        hash_alg: None,
        block_size: None,
        salt: None,
        files: 1,
        out_files: false,
    })?;
    let bytes = data(alloc, held)?;
    let files = [(b"".as_slice(), 0), (bytes.as_slice(), stated), (b"", 0)];
    let mut opener = FusedOpener::new(StatingOpener::new(&files), failing);
    let mut out = Vec::new(alloc);
    let mut msgs = Vec::new(alloc);
    let status = run_digest(
        alloc,
        &settings,
        Form::Full,
        &["first", "a b", "third"],
        &mut opener,
        &mut out,
        &mut msgs,
    );
    let output = RunOutput { status, out, msgs };
    Ok(output.differs(1, EMPTY_LINE.as_bytes(), text.as_bytes()))
}

#[test]
fn each_fault_of_a_file_has_its_message(rt: HostRuntime) -> Result<(), Fail> {
    let alloc = rt.alloc();
    for &(sizes, failing, text) in &FAULTS {
        same(text, differs(alloc, sizes, failing, text)?, None)?;
    }
    let fault = DigestFault::SourceFailed(u64::MAX);
    let text = "fsverity: cannot read block 18446744073709551615: a b.\n";
    let found = digest_message(alloc, &fault, "a b")?;
    same("the last block", found.as_str(), text)
}
