//! A worked example: single blocks of a large image are read and checked, without the rest of it, as in a boot loader
//! or a store of large files. It makes an image of 257 blocks in memory, and reads some blocks of it, before and after
//! bytes of data, tree and root hash have changed.
#![tactic(auto)]

mod image;

use crate::image::{Image, path_length};
use sha2::{Digest as Hasher, Sha256};
use std::alloc::Global;
use std::io;
use std::process::ExitCode;
use verity_hash::{Algorithm, Digest};
use verity_tree::{Device, HashType, MemoryDevice, MemorySource, Plan, Store, TreeSettings, build};

/// An image of 257 data blocks of 512 bytes, whose byte k is k modulo 251, with hash blocks of 512 bytes, SHA-256 and
/// no salt. `None` if there is no memory.
fn example(alloc: Global) -> Option<Image<MemoryDevice, MemoryDevice>> {
    let mut data = vec![in alloc; 0u8; 131_584].ok()?;
    for (k, byte) in data.iter_mut().enumerate() {
        *byte = (k % 251) as u8;
    }
    let settings = TreeSettings::verity(Algorithm::Sha256, HashType::Current, &[], 512, 512).ok()?;
    let plan = Plan::for_blocks(&settings, 257, 1).ok()?;
    let mut store = Store::new(alloc, &plan).ok()?;
    let mut source = MemorySource::new(data.as_slice());
    let mut tree = MemoryDevice::new(Vec::new(alloc));
    let root = build(&plan, &mut store, &mut source, &mut tree).ok()?;
    Some(Image {
        plan,
        root,
        data: MemoryDevice::new(data),
        tree,
    })
}

/// Reads a block, and prints the SHA-256 of its bytes, or why it isn't handed out.
fn print(
    rt: &HostRuntime,
    image: &mut Image<MemoryDevice, MemoryDevice>,
    i: u64,
) -> io::Result<()> {
    let mut block = vec![in rt.alloc(); 0u8; image.plan.data_block()]?;
    let mut path = vec![in rt.alloc(); 0u8; path_length(&image.plan)]?;
    match image.read(i, &mut block, &mut path) {
        Ok(()) => {
            let digits = hex::encode(rt.alloc(), &Sha256::digest(block.as_slice()))?;
            println!(rt; "block {i}: {digits}")
        }
        Err(fault) => println!(rt; "block {i}: {fault}"),
    }
}

fn main(rt: HostRuntime) -> io::Result<ExitCode> {
    let Some(mut image) = example(rt.alloc()) else {
        return Ok(ExitCode::FAILURE);
    };
    for i in [0, 35, 256, 257] {
        print(&rt, &mut image, i)?;
    }
    println!(rt; "a byte of data block 35 is changed:")?;
    let changed = image.data.write_at(35 * 512 + 100, b"x");
    for i in [34, 35] {
        print(&rt, &mut image, i)?;
    }
    println!(rt;
        "the digest of data block 36 is changed in its hash block, which stands at byte 3072:"
    )?;
    let also_changed = image.tree.write_at(3072 + 4 * 32, b"x");
    for i in [31, 34, 36] {
        print(&rt, &mut image, i)?;
    }
    println!(rt; "another root hash is trusted:")?;
    image.root = Digest::zeros(Algorithm::Sha256);
    print(&rt, &mut image, 0)?;
    Ok(if changed.is_ok() && also_changed.is_ok() {
        ExitCode::SUCCESS
    } else {
        ExitCode::FAILURE
    })
}
