//! Each fault of veritysetup in turn.
use crate::veritysetup_commands::Setup;
use memory_runtime::Call;
use std::test::Fail;
use verity_hash::Algorithm;

/// 257 blocks of 512 bytes; every option, over a hash device that holds other bytes; and no superblock.
const SETUPS: [Setup; 3] = [
    Setup {
        options: "--data-block-size 512 --hash-block-size 512 --salt=-",
        hash_type: 1,
        algorithm: Algorithm::Sha256,
        name: "sha256",
        sizes: (512, 512),
        slots: (16, 32),
        salt: b"",
        blocks: 257,
        levels: 3,
        superblock: Some(0),
        tree_at: 512,
        more: 0,
        before: None,
    },
    Setup {
        options: "--hash sha512 --format 0 --data-block-size 1024 --hash-block-size 512 --data-blocks 9 --salt abcd --hash-offset 1536",
        hash_type: 0,
        algorithm: Algorithm::Sha512,
        name: "sha512",
        sizes: (1024, 512),
        slots: (8, 64),
        salt: b"\xab\xcd",
        blocks: 9,
        levels: 2,
        superblock: Some(1536),
        tree_at: 2048,
        more: 1027,
        before: Some(4000),
    },
    Setup {
        options: "--no-superblock --hash sha1 --format 1 --data-block-size 512 --hash-block-size 512 --salt abcdef --hash-offset 1024",
        hash_type: 1,
        algorithm: Algorithm::Sha1,
        name: "sha1",
        sizes: (512, 512),
        slots: (16, 32),
        salt: b"\xab\xcd\xef",
        blocks: 18,
        levels: 2,
        superblock: None,
        tree_at: 1024,
        more: 511,
        before: Some(100),
    },
];

#[test]
fn each_fault_of_format_is_answered(rt: HostRuntime) -> Result<(), Fail> {
    for setup in &SETUPS {
        setup.format(rt.alloc())?.try_all(Call::Write)?;
    }
    Ok(())
}

#[test]
fn each_fault_of_verify_is_answered(rt: HostRuntime) -> Result<(), Fail> {
    for setup in &SETUPS {
        setup.try_verify(rt.alloc())?;
    }
    Ok(())
}

#[test]
fn each_fault_of_dump_is_answered(rt: HostRuntime) -> Result<(), Fail> {
    for setup in &SETUPS {
        if setup.superblock.is_some() {
            setup.try_dump(rt.alloc())?;
        }
    }
    Ok(())
}
