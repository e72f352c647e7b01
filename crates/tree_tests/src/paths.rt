//! Data blocks that are checked by their paths: 257 data blocks. All blocks have 512 bytes, so level 2 stands at byte
//! 512 of the device, level 1 at 1024 and level 0 at 2048. Expected trees are made with `sha2`.
use crate::cases::root_of;
use crate::trees::{small, small_tree};
use fixtures::{Shape, Tree, data, flip, same, with_zeros};
use std::alloc::{AllocError, Global};
use std::test::Fail;
use verity_hash::{Algorithm, Digest};
use verity_tree::{PathFault, Plan, TreeSettings, check_block};

/// What is done to a data block and its path before they are checked.
#[derive(Clone, Copy, Debug)]
enum Change {
    Nothing,
    /// This byte of the data block is changed.
    BlockByte(usize),
    /// This byte of the path is changed.
    PathByte(usize),
    /// The data block is cut to a length.
    BlockCut(usize),
    /// The path is cut to a length.
    PathCut(usize),
    /// The path has one more block.
    PathMore,
    /// The root hash is all zeros.
    Root,
}

/// The block of 512 bytes of this number.
fn block_of(bytes: &[u8], number: usize) -> &[u8] {
    bytes.chunks(512).nth(number).unwrap_or(&[])
}

/// The path of data block `i`. Level 0 of the tree begins with block 4 of the device, level 1 with block 2, level 2
/// with block 1.
fn path_of(alloc: Global, tree: &Tree, i: usize) -> Result<Vec<u8>, AllocError> {
    let device = tree.on_device(alloc, 512)?;
    let path = [
        block_of(device.as_slice(), (i / 16).saturating_add(4)),
        block_of(device.as_slice(), (i / 256).saturating_add(2)),
        block_of(device.as_slice(), 1),
    ];
    with_zeros(alloc, &path, 0)
}

/// A data block with its path, and the root hash.
#[derive(Drop)]
struct Given {
    block: Vec<u8>,
    path: Vec<u8>,
    root: Digest,
}

impl Given {
    /// Data block `i` with its path.
    fn new(alloc: Global, i: usize) -> Result<Given, Fail> {
        let data = data(alloc, 131_584)?;
        let tree = small_tree(alloc, data.as_slice(), 3)?;
        Ok(Given {
            root: root_of(&tree)?,
            path: path_of(alloc, &tree, i)?,
            block: Vec::from_slice(alloc, block_of(data.as_slice(), i))?,
        })
    }

    /// Makes a change.
    fn change(&mut self, change: Change) -> Result<(), AllocError> {
        match change {
            Change::Nothing => {}
            Change::BlockByte(at) => flip(&mut self.block, at),
            Change::PathByte(at) => flip(&mut self.path, at),
            Change::BlockCut(length) => self.block.truncate(length),
            Change::PathCut(length) => self.path.truncate(length),
            Change::PathMore => self.path.extend_from_slice(&[0; 512])?,
            Change::Root => self.root = Digest::zeros(Algorithm::Sha256),
        }
        Ok(())
    }
}

type Verdict = Result<(), PathFault>;

/// The result for data block `asked`, if it is given data block `i` with its path and a change.
fn judged(alloc: Global, i: usize, change: Change, asked: u64) -> Result<Verdict, Fail> {
    let plan = Plan::for_blocks(&small()?, 257, 1)?;
    let mut given = Given::new(alloc, i)?;
    given.change(change)?;
    let (block, path) = (given.block.as_slice(), given.path.as_slice());
    Ok(check_block(&plan, asked, block, path, &given.root))
}

/// The number of a data block, what is changed, the number that is asked for, and the result.
const CASES: [(usize, Change, u64, Verdict); 24] = [
    (0, Change::Nothing, 0, Ok(())),
    (15, Change::Nothing, 15, Ok(())),
    (16, Change::Nothing, 16, Ok(())),
    (35, Change::Nothing, 35, Ok(())),
    (255, Change::Nothing, 255, Ok(())),
    (256, Change::Nothing, 256, Ok(())),
    (35, Change::BlockByte(0), 35, Err(PathFault::DiffersAt(0))),
    (35, Change::BlockByte(511), 35, Err(PathFault::DiffersAt(0))),
    (35, Change::PathByte(96), 35, Err(PathFault::DiffersAt(0))),
    (35, Change::PathByte(0), 35, Err(PathFault::DiffersAt(1))),
    (35, Change::PathByte(576), 35, Err(PathFault::DiffersAt(1))),
    (35, Change::PathByte(672), 35, Err(PathFault::DiffersAt(2))),
    (35, Change::PathByte(1024), 35, Err(PathFault::DiffersAt(2))),
    (35, Change::PathByte(1056), 35, Err(PathFault::DiffersAt(3))),
    (35, Change::PathByte(1088), 35, Err(PathFault::DiffersAt(3))),
    (35, Change::PathByte(1535), 35, Err(PathFault::DiffersAt(3))),
    (35, Change::Root, 35, Err(PathFault::DiffersAt(3))),
    (35, Change::Nothing, 36, Err(PathFault::DiffersAt(0))),
    (35, Change::Nothing, 51, Err(PathFault::DiffersAt(1))),
    (35, Change::PathCut(1024), 35, Err(PathFault::Length)),
    (35, Change::PathMore, 35, Err(PathFault::Length)),
    (35, Change::BlockCut(511), 35, Err(PathFault::Length)),
    (35, Change::Nothing, 257, Err(PathFault::Index)),
    (35, Change::PathCut(1024), 257, Err(PathFault::Index)),
];

/// True paths are accepted, and otherwise the lowest level that differs is named.
#[test]
fn paths_are_judged(rt: HostRuntime) -> Result<(), Fail> {
    for &(i, change, asked, expected) in &CASES {
        let result = judged(rt.alloc(), i, change, asked)?;
        let at = format_args!("{change:?}, {i} for {asked}");
        same(at, result, expected)?;
    }
    Ok(())
}

/// The tree of a file of a block of 4096 zeros and an `a`.
fn file_tree(alloc: Global) -> Result<Tree, AllocError> {
    let shape = Shape::new(alloc, Algorithm::Sha256, (4096, 4096), (128, 32));
    let file = with_zeros(alloc, &[&[0; 4096], b"a"], 0)?;
    shape.tree(alloc, file.as_slice(), 1)
}

/// The result if these bytes are given for the last block of that file.
fn judged_last(alloc: Global, given: &[u8]) -> Result<Verdict, Fail> {
    let page = TreeSettings::fsverity(Algorithm::Sha256, &[], 4096)?;
    let plan = Plan::for_bytes(&page, 4097, 0)?;
    let tree = file_tree(alloc)?;
    let root = root_of(&tree)?;
    Ok(check_block(&plan, 1, given, tree.block(0, 0, 4096), &root))
}

/// The block is the `a` with zeros up to a whole block.
#[test]
fn the_last_block_of_a_file_comes_filled(rt: HostRuntime) -> Result<(), Fail> {
    let last = with_zeros(rt.alloc(), &[b"a"], 4096)?;
    let whole = judged_last(rt.alloc(), last.as_slice())?;
    let cut = judged_last(rt.alloc(), b"a")?;
    same("the whole one", whole, Ok(()))?;
    same("the cut one", cut, Err(PathFault::Length))
}
