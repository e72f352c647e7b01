//! Building a file's fs-verity tree as pieces of the file come, whose length isn't known before, with each hash block
//! handed out.
ghost use Rattle.std.specs.Prelude.{◌≡◌, ◌≢◌, ◌<◌, ℕ, List, [], ◌++◌, length, take, IfOk};
ghost use Rattle.verity_c_api.specs.Answers.{value_or};
ghost use Rattle.verity_c_api.specs.Building.{digest_of_fed, file_root_in, with_file_memory};
ghost use Rattle.verity_c_api.specs.FileTrees.{HandsOutOfFile, IsFedTreeTo, TakesFilePiece, fed_of_file, last_block_in};
ghost use Rattle.verity_c_api.specs.FileTrees.{end_index_in, with_last_block, with_tree_end, with_tree_piece};
ghost use Rattle.verity_c_api.specs.Parameters.{fsverity_tree_of};
ghost use Rattle.verity_c_api.specs.Statuses.{done, status_of};

use crate::file_building::{tree_at_end, tree_in};
use crate::files::set_root_and_digest;
use crate::plans::fsverity_settings_of;
use verity_builders::{FileFed, FileTreeBuilder};
use verity_c_api::{DONE, Fault, FsverityParams, VerityBuild, VerityFed};
use verity_plan::TreeSettings;

/// Begins to build a file's tree whose hash blocks are handed out: nothing was fed yet. What stood in struct and memory
/// doesn't count, nor does the size in the parameters, here and in each call below. The memory is as long as
/// `fsverity_build_memory` says.
///
/// The status is 0, or that of the first of `Algorithm`, `DataBlockSize`, `SaltSize`, `Length`. Then struct and memory
/// stay as they were.
#[unsafe(no_mangle)]
pub extern "C" fn fsverity_tree_build_begin(
    params: &FsverityParams,
    build: &mut VerityBuild,
    memory: &mut [u8],
) -> i32
    ensures status { result ≡ status_of (with_file_memory (fsverity_tree_of params.now) (length memory.old)) }
    ensures refused { result ≢ done → (build.new ≡ build.old) × (memory.new ≡ memory.old) }
    ensures fed { result ≡ done → IsFedTreeTo params.now build.new memory.new [] }
{
    let made = fsverity_settings_of(params);
    let tree = match tree_in(&made, params, memory.len()) {
        Ok(tree) => tree,
        Err(fault) => return fault.status(),
    };
    let builder = FileTreeBuilder::begin(tree, memory);
    *build = VerityBuild {
        fed: builder.fed,
        closed: builder.closed,
    };
    DONE
}

/// Feeds the next piece of the file, of any length: all of it, or its bytes up to those with which a hash block closes,
/// which is handed out with its level and number: it is the tree's however the file goes on (Linux kernel, fs-verity
/// page, "Merkle tree"). It stands in the memory until the next call. Then the rest of the piece is fed by further
/// calls, until one hands out none. A hash block that closes with the last byte of a piece is handed out by the next
/// call with more bytes.
///
/// The status is 0, or that of the first of `Algorithm`, `DataBlockSize`, `SaltSize`, `Length` (the memory's),
/// `TooLarge` (so many bytes are too many for a tree), `Level` (more levels have closed than there are). Then structs
/// and memory stay as they were. The answer is right where struct and memory are as the call before left them, with the
/// same parameters but for the size; others have an answer too.
#[unsafe(no_mangle)]
pub extern "C" fn fsverity_tree_build_feed(
    params: &FsverityParams,
    build: &mut VerityBuild,
    memory: &mut [u8],
    piece: &[u8],
    fed: &mut VerityFed,
) -> i32
    ensures status { result ≡ status_of (with_tree_piece (with_file_memory (fsverity_tree_of params.now)
        (length memory.old)) build.old (length piece.now)) }
    ensures refused { result ≢ done → (build.new ≡ build.old) × (memory.new ≡ memory.old) × (fed.new ≡ fed.old) }
    ensures takes { result ≡ done → IfOk (fsverity_tree_of params.now)
        (λ tree. TakesFilePiece tree build.old build.new (length piece.now) fed.new) }
    ensures fed { (bytes : List ℕ) → IsFedTreeTo params.now build.old memory.old bytes → result ≡ done
        → IsFedTreeTo params.now build.new memory.new (bytes ++ take fed.new.taken piece.now) }
    ensures block { (bytes : List ℕ) → IsFedTreeTo params.now build.old memory.old bytes → result ≡ done
        → IfOk (fsverity_tree_of params.now) (λ tree. HandsOutOfFile tree build.old build.new
        (bytes ++ take fed.new.taken piece.now) memory.new fed.new) }
{
    let made = fsverity_settings_of(params);
    let tree = match tree_in(&made, params, memory.len()) {
        Ok(tree) => tree,
        Err(fault) => return fault.status(),
    };
    let mut builder = FileTreeBuilder {
        settings: *tree,
        fed: build.fed,
        closed: build.closed,
    };
    match builder.feed(memory, piece) {
        Ok(answer) => {
            *build = VerityBuild {
                fed: builder.fed,
                closed: builder.closed,
            };
            *fed = fed_of_file(tree, &answer);
            DONE
        }
        Err(fault) => Fault::of_feed(fault).status(),
    }
}

/// The last hash block of a level, as the tree of the file has it that ends with the bytes fed so far, and its number in
/// the level. With those of all levels and the hash blocks that were handed out the tree is whole. If more is fed after
/// that they aren't final: the memory stays that of the same bytes, and each can be asked for at any time, as often as
/// one likes. The buffer is as long as a block.
///
/// The status is 0, or that of the first of `Algorithm`, `DataBlockSize`, `SaltSize`, `Length` (the memory's), `Length`
/// (the buffer's), `Waiting` (a hash block was handed out, and the rest of its piece is still to be fed), `TooLarge` (the
/// bytes are too many for a tree, which no call before leaves), `Level`. Then memory, buffer and number stay as they
/// were. The answer is right where struct and memory are as the call before left them.
#[unsafe(no_mangle)]
pub extern "C" fn fsverity_tree_build_end_block(
    params: &FsverityParams,
    build: &VerityBuild,
    memory: &mut [u8],
    level: usize,
    block: &mut [u8],
    index: &mut u64,
) -> i32
    ensures status { result ≡ status_of (with_last_block (with_file_memory (fsverity_tree_of params.now)
        (length memory.old)) build.now level (length block.old)) }
    ensures refused { result ≢ done
        → (memory.new ≡ memory.old) × (block.new ≡ block.old) × (index.new ≡ index.old) }
    ensures index { result ≡ done
        → index.new ≡ value_or index.old (end_index_in (fsverity_tree_of params.now) build.now level) }
    ensures block { (bytes : List ℕ) → IsFedTreeTo params.now build.now memory.old bytes → result ≡ done
        → block.new ≡ value_or block.old (last_block_in (fsverity_tree_of params.now) bytes level) }
    ensures stays { (bytes : List ℕ) → IsFedTreeTo params.now build.now memory.old bytes
        → IsFedTreeTo params.now build.now memory.new bytes }
{
    let made = fsverity_settings_of(params);
    let tree = match tree_in(&made, params, memory.len()) {
        Ok(tree) => tree,
        Err(fault) => return fault.status(),
    };
    if block.len() != tree.hash_block() as usize {
        return Fault::Length.status();
    }
    let builder = FileTreeBuilder {
        settings: *tree,
        fed: build.fed,
        closed: build.closed,
    };
    match builder.end_block(memory, level, block) {
        Ok(number) => {
            *index = number;
            DONE
        }
        Err(fault) => Fault::of_feed(fault).status(),
    }
}

/// The root hash of all bytes that were fed, and the digest of the file that they are, as `fsverity_build_end` gives
/// them. Both can be asked for at any time, as often as one likes: struct and memory stay those of the same bytes, and
/// feeding goes on.
///
/// The status is 0, or that of the first of `Algorithm`, `DataBlockSize`, `SaltSize`, `Length` (the memory's), `Root`
/// (the buffer for the root hash is shorter or longer), `Length` (the file digest's), `Waiting` (a hash block was handed
/// out, and the rest of its piece is still to be fed), `TooLarge` (the bytes are too many for a tree, which no call
/// before leaves). Then memory and buffers stay as they were. The answer is right where struct and memory are as the
/// call before left them.
#[unsafe(no_mangle)]
pub extern "C" fn fsverity_tree_build_end(
    params: &FsverityParams,
    build: &VerityBuild,
    memory: &mut [u8],
    root: &mut [u8],
    digest: &mut [u8],
) -> i32
    ensures status { result ≡ status_of (with_tree_end (with_file_memory (fsverity_tree_of params.now)
        (length memory.old)) build.now (length root.old) (length digest.old)) }
    ensures refused { result ≢ done
        → (memory.new ≡ memory.old) × (root.new ≡ root.old) × (digest.new ≡ digest.old) }
    ensures root { (bytes : List ℕ) → IsFedTreeTo params.now build.now memory.old bytes → result ≡ done
        → root.new ≡ value_or root.old (file_root_in (fsverity_tree_of params.now) bytes) }
    ensures digest { (bytes : List ℕ) → IsFedTreeTo params.now build.now memory.old bytes → result ≡ done
        → digest.new ≡ value_or digest.old (digest_of_fed (fsverity_tree_of params.now) bytes) }
    ensures stays { (bytes : List ℕ) → IsFedTreeTo params.now build.now memory.old bytes
        → IsFedTreeTo params.now build.now memory.new bytes }
{
    let made = fsverity_settings_of(params);
    let tree = match tree_at_end(&made, params, memory.len(), root.len(), digest.len()) {
        Ok(tree) => tree,
        Err(fault) => return fault.status(),
    };
    let builder = FileTreeBuilder {
        settings: *tree,
        fed: build.fed,
        closed: build.closed,
    };
    match builder.end(memory) {
        Ok(hash) => {
            set_root_and_digest(tree, build.fed, &hash, root, digest);
            DONE
        }
        Err(fault) => Fault::of_feed(fault).status(),
    }
}

/// What the builder has answered, in numbers. A hash block of a file has no place on a device yet.
fn fed_of_file(tree: &TreeSettings, answer: &FileFed) -> VerityFed
    ensures value { result ≡ fed_of_file tree.now answer.now }
    ensures some { 0 < tree.now.hash_block }
{
    // Called for the proof: its contract says that the settings are valid, so a hash block has a byte.
    let _valid = tree.data_block();
    match answer.hash_block {
        Some(block) => VerityFed {
            taken: answer.taken,
            block_length: tree.hash_block() as usize,
            block_at: block.at,
            block_start: 0,
            block_index: block.index,
            block_level: block.level,
        },
        None => VerityFed {
            taken: answer.taken,
            block_length: 0,
            block_at: 0,
            block_start: 0,
            block_index: 0,
            block_level: 0,
        },
    }
}
