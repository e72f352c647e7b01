//! The reports of format and dump by each hash function and hash type, with a superblock and without.
use crate::program_runs::{disk_of, run};
use fixtures::{REPORT_17, Report, Shape, Tree, data, same, superblock, with_zeros};
use memory_runtime::Disk;
use std::alloc::{AllocError, Global};
use std::test::Fail;
use verity_hash::Algorithm;

/// What goes wrong, if anything does.
type Wrong = Option<&'static str>;

/// A hash function and its name, a hash type, and the number and the width of the slots of a hash block of 512 bytes.
type Row = (Algorithm, &'static str, u8, (usize, usize));

const ROWS: [Row; 10] = [
    (Algorithm::Sha1, "sha1", 1, (16, 32)),
    (Algorithm::Sha224, "sha224", 1, (16, 32)),
    (Algorithm::Sha256, "sha256", 1, (16, 32)),
    (Algorithm::Sha384, "sha384", 1, (8, 64)),
    (Algorithm::Sha512, "sha512", 1, (8, 64)),
    (Algorithm::Sha1, "sha1", 0, (16, 20)),
    (Algorithm::Sha224, "sha224", 0, (16, 28)),
    (Algorithm::Sha256, "sha256", 0, (16, 32)),
    (Algorithm::Sha384, "sha384", 0, (8, 48)),
    (Algorithm::Sha512, "sha512", 0, (8, 64)),
];

/// The salt of all of them.
const SALT: [u8; 2] = [0xab, 0xcd];

/// The tree above 17 blocks of 512 bytes.
fn tree_of(alloc: Global, row: Row) -> Result<Tree, AllocError> {
    let (algorithm, _, hash_type, slots) = row;
    let mut shape = Shape::new(alloc, algorithm, (512, 512), slots);
    shape.set_salt(hash_type, Vec::from_slice(alloc, &SALT)?);
    shape.tree(alloc, data(alloc, 8704)?.as_slice(), 2)
}

/// What is wrong if the hash device isn't the superblock, if there is one, and the tree.
fn wrong_device(
    alloc: Global,
    disk: &Disk,
    row: Row,
    tree: &Tree,
    has_superblock: bool,
) -> Result<Wrong, Fail> {
    let (_, name, hash_type, _) = row;
    let superblock = superblock(hash_type, name.as_bytes(), (512, 512), 17, &SALT);
    let front: &[u8] = if has_superblock { &superblock } else { &[] };
    let area = tree.on_device(alloc, 0)?;
    let device = with_zeros(alloc, &[front, area.as_slice()], 0)?;
    Ok(if disk.bytes_of("hash")? == device {
        None
    } else {
        Some("the hash device")
    })
}

/// The report.
fn report_of(row: Row, has_superblock: bool) -> Report<'static> {
    let (_, name, hash_type, _) = row;
    Report {
        path: "hash",
        uuid: if has_superblock { REPORT_17.uuid } else { "-" },
        hash_type,
        algorithm: name,
        salt: "abcd",
        ..REPORT_17
    }
}

/// The words of format.
fn words_of_format(
    alloc: Global,
    (_, name, hash_type, _): Row,
    has_superblock: bool,
) -> Result<String, AllocError> {
    let last = if has_superblock {
        "--uuid 00112233-4455-4677-8899-aabbccddeeff"
    } else {
        "--no-superblock"
    };
    format!(in alloc;
        "veritysetup format --hash {name} --format {hash_type} --data-block-size 512 --hash-block-size 512 --salt abcd {last} data hash"
    )
}

/// What format leaves and prints that isn't as it should be.
fn wrong_format(
    alloc: Global,
    disk: &Disk,
    row: Row,
    tree: &Tree,
    has_superblock: bool,
) -> Result<Wrong, Fail> {
    let words = words_of_format(alloc, row, has_superblock)?;
    let text = report_of(row, has_superblock).with_root(alloc, tree.root.as_slice())?;
    let output = run(alloc, disk, words.as_str());
    if let Some(what) = output.differs(0, text.as_bytes(), b"") {
        return Ok(Some(what));
    }
    wrong_device(alloc, disk, row, tree, has_superblock)
}

/// What of a run of verify isn't as it should be. Without a superblock its words have the options of format.
fn wrong_verify(
    alloc: Global,
    disk: &Disk,
    (_, name, hash_type, _): Row,
    root: &[u8],
    has_superblock: bool,
) -> Result<Wrong, Fail> {
    let root = hex::encode(alloc, root)?;
    let words = if has_superblock {
        format!(in alloc; "veritysetup verify data hash {root}")?
    } else {
        format!(in alloc;
            "veritysetup verify --no-superblock --hash {name} --format {hash_type} --data-block-size 512 --hash-block-size 512 --salt abcd data hash {root}"
        )?
    };
    Ok(run(alloc, disk, words.as_str()).differs(0, b"", b""))
}

/// What of a run of dump isn't as it should be.
fn wrong_dump(alloc: Global, disk: &Disk, row: Row, has_superblock: bool) -> Result<Wrong, Fail> {
    let dump = run(alloc, disk, "veritysetup dump hash");
    if !has_superblock {
        return Ok(dump.differs(1, b"", b"No verity superblock.\n"));
    }
    let text = report_of(row, true).text(alloc)?;
    Ok(dump.differs(0, text.as_bytes(), b""))
}

/// What goes wrong in format, with a superblock or without, and then in verify and in dump.
fn wrong_in(alloc: Global, row: Row, has_superblock: bool) -> Result<(Wrong, Wrong, Wrong), Fail> {
    let tree = tree_of(alloc, row)?;
    let disk = disk_of(alloc, data(alloc, 8704)?.as_slice())?;
    let format = wrong_format(alloc, &disk, row, &tree, has_superblock)?;
    let verify = wrong_verify(alloc, &disk, row, tree.root.as_slice(), has_superblock)?;
    let dump = wrong_dump(alloc, &disk, row, has_superblock)?;
    Ok((format, verify, dump))
}

#[test]
fn each_hash_function_and_type_is_reported_and_verified(rt: HostRuntime) -> Result<(), Fail> {
    for &row in &ROWS {
        for &has_superblock in &[true, false] {
            let at = format_args!("{row:?}, {has_superblock}");
            let wrong = wrong_in(rt.alloc(), row, has_superblock)?;
            same(at, wrong, (None, None, None))?;
        }
    }
    Ok(())
}
