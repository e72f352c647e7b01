//! What the system says of files: two names of one file are found, and other files are told apart.
use command_line::{FileIdentity, Identities, StatFields, are_same_file};
use fixtures::same;
use std::fs::File;
use std::os::unix::fs::MetadataExt;
use std::rt::Files;
use std::test::Fail;

/// This program's own file, as the system shows it.
const PROGRAM: &str = "/proc/self/exe";

/// A regular file of which the system says that it is empty.
const EMPTY: &str = "/proc/self/status";

/// Paths, whether they have an identity, and whether that is the program's own.
const PATHS: [(&str, bool, bool); 5] = [
    (PROGRAM, true, true),
    (EMPTY, true, false),
    ("/proc/self/no file", false, false),
    ("/dev/null", false, false),
    ("/", false, false),
];

#[test]
fn the_system_tells_files_apart(rt: HostRuntime) -> Result<(), Fail> {
    let opened = rt.file_identity(&File::open(&rt, PROGRAM)?);
    for &(path, has_identity, is_program) in &PATHS {
        let named = rt.path_identity(path);
        let found = (named.is_some(), are_same_file(opened, named));
        same(path, found, (has_identity, is_program))?;
    }
    Ok(())
}

#[test]
fn a_file_is_known_by_its_number_on_its_device(rt: HostRuntime) -> Result<(), Fail> {
    let metadata = rt.metadata(PROGRAM)?;
    let identity = FileIdentity::Regular {
        device: metadata.dev(),
        inode: metadata.ino(),
    };
    same(PROGRAM, rt.path_identity(PROGRAM), Some(identity))
}

#[test]
fn an_empty_file_is_a_file(rt: HostRuntime) -> Result<(), Fail> {
    let opened = rt.file_identity(&File::open(&rt, EMPTY)?);
    let is_same = are_same_file(opened, rt.path_identity(EMPTY));
    same(EMPTY, (rt.metadata(EMPTY)?.len(), is_same), (0, true))
}

/// The number that Linux gives the null device: 1 and 3, each in its bits (null(4), makedev(3)).
const NULL_NUMBER: u64 = 0x103;

#[test]
fn a_device_has_its_own_number(rt: HostRuntime) -> Result<(), Fail> {
    let metadata = rt.metadata("/dev/null")?;
    let status = StatFields {
        is_regular: false,
        is_block_device: false,
        device: metadata.dev(),
        inode: metadata.ino(),
        number: NULL_NUMBER,
    };
    let found = (
        StatFields::of_metadata(&metadata),
        metadata.dev() == NULL_NUMBER,
    );
    same("the null device", found, (status, false))
}
