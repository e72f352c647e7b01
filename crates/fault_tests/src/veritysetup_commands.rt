//! The commands of veritysetup over images of some settings, and the steps that each takes.
use crate::endings::STEADY;
use crate::passes::{Extent, Pass};
use crate::scene::{Program, Scene};
use crate::steps::Effect;
use fixtures::{REPORT_17, Report, Shape, Tree, data, salt_text, superblock};
use memory_runtime::Call;
use std::alloc::{AllocError, Global};
use std::test::Fail;
use verity_hash::Algorithm;

/// How an image is made, as plain numbers.
#[derive(Clone, Copy)]
pub struct Setup {
    /// The options that choose it, besides the UUID.
    pub options: &'static str,
    pub hash_type: u8,
    pub algorithm: Algorithm,
    /// The name of the hash function.
    pub name: &'static str,
    /// The sizes of a data block and a hash block.
    pub sizes: (usize, usize),
    /// The number and the width of a hash block's slots.
    pub slots: (usize, usize),
    pub salt: &'static [u8],
    pub blocks: usize,
    pub levels: usize,
    /// Where the superblock stands, if there is one.
    pub superblock: Option<usize>,
    /// Where the tree begins.
    pub tree_at: usize,
    /// How many bytes of data follow the last block.
    pub more: usize,
    /// How many bytes the hash device has before, each of them 77; none if it is missing.
    pub before: Option<usize>,
}

/// The hash device, and the option of its UUID.
const HASH: &str = "hash.img";

const UUID_OPTION: &str = " --uuid 00112233-4455-4677-8899-aabbccddeeff";

impl Setup {
    /// How many bytes of the data are covered.
    fn covered(&self) -> usize {
        self.blocks.saturating_mul(self.sizes.0)
    }

    /// The tree above the data.
    fn tree(&self, alloc: Global) -> Result<Tree, AllocError> {
        let mut shape = Shape::new(alloc, self.algorithm, self.sizes, self.slots);
        shape.set_salt(self.hash_type, self.salt.to_vec(alloc)?);
        shape.tree(alloc, data(alloc, self.covered())?.as_slice(), self.levels)
    }

    /// The report, with the root hash if it is given.
    fn report(&self, alloc: Global, root: Option<&[u8]>) -> Result<String, AllocError> {
        let salt = salt_text(alloc, self.salt)?;
        let report = Report {
            path: HASH,
            uuid: if self.superblock.is_some() {
                REPORT_17.uuid
            } else {
                "-"
            },
            hash_type: self.hash_type,
            blocks: self.blocks,
            sizes: self.sizes,
            algorithm: self.name,
            salt: salt.as_str(),
        };
        match root {
            Some(root) => report.with_root(alloc, root),
            None => report.text(alloc),
        }
    }

    /// A pass over the data and the tree.
    fn extent(&self) -> Extent {
        Extent {
            fan: self.slots.0,
            hash_block: self.sizes.1,
            blocks: self.blocks,
        }
    }

    /// Format: the system is asked whether HASH is there, the data is read once, each hash block is written as it
    /// closes, then the superblock, then the report is printed, and the system is asked to sync all of it, and the
    /// folder of a new file if that can be opened.
    pub fn format(&self, alloc: Global) -> Result<Scene, AllocError> {
        let mut scene = Scene::new(alloc, Program::Veritysetup, self.words_of_format(alloc)?)?;
        self.formats(&mut scene)?;
        Ok(scene)
    }

    /// The files that are there before format.
    fn adds_files(&self, scene: &mut Scene) -> Result<(), AllocError> {
        let alloc = scene.alloc;
        let length = self.covered().saturating_add(self.more);
        scene.adds_file("data", data(alloc, length)?)?;
        match self.before {
            Some(length) => scene.adds_file(HASH, vec![in alloc; 77u8; length]?),
            None => Ok(()),
        }
    }

    /// The files before format, and its steps.
    fn formats(&self, scene: &mut Scene) -> Result<(), AllocError> {
        self.adds_files(scene)?;
        scene.measures("data")?;
        scene.asks(Call::Metadata)?;
        scene.opens_to_write(HASH, Effect::Made(HASH))?;
        self.writes(scene)?;
        self.syncs(scene)
    }

    /// The hash device is synced, and its folder if it is new.
    fn syncs(&self, scene: &mut Scene) -> Result<(), AllocError> {
        scene.calls_all(&[Call::Sync], "Cannot write hash.img.\n")?;
        if self.before.is_none() {
            scene.calls_all(&[Call::Open], "")?;
            scene.calls_all(&[Call::Sync], "Cannot write hash.img.\n")?;
        }
        Ok(())
    }

    /// The words of format.
    fn words_of_format(&self, alloc: Global) -> Result<String, AllocError> {
        let uuid = if self.superblock.is_some() {
            UUID_OPTION
        } else {
            ""
        };
        ["veritysetup format ", self.options, uuid, " data hash.img"].concat(alloc)
    }

    /// The pass, the superblock and the report of format.
    fn writes(&self, scene: &mut Scene) -> Result<(), AllocError> {
        let tree = self.tree(scene.alloc)?;
        scene.passes(Pass::Format(HASH, self.tree_at), &tree, self.extent())?;
        self.writes_superblock(scene)?;
        scene.prints(self.report(scene.alloc, Some(tree.root.as_slice()))?)
    }

    /// The superblock is written, if there is one.
    fn writes_superblock(&self, scene: &mut Scene) -> Result<(), AllocError> {
        let Some(offset) = self.superblock else {
            return Ok(());
        };
        let name = self.name.as_bytes();
        let bytes = superblock(self.hash_type, name, self.sizes, self.blocks, self.salt);
        scene.calls_all(&[Call::Seek], "Cannot write superblock.\n")?;
        let put = Effect::Put(HASH, offset, bytes.to_vec(scene.alloc)?);
        scene.calls(Call::Write, "Cannot write superblock.\n", put)
    }

    /// A command of veritysetup with these words, over the files that format leaves.
    fn over_made(&self, alloc: Global, words: String) -> Result<Scene, AllocError> {
        let mut scene = Scene::new(alloc, Program::Veritysetup, words)?;
        scene.files = self.format(alloc)?.ending(&STEADY)?.files;
        Ok(scene)
    }

    /// The words of verify, with the root hash at the end.
    fn words_of_verify(&self, alloc: Global, root: &[u8]) -> Result<String, AllocError> {
        let root = hex::encode(alloc, root)?;
        let root = root.as_str();
        match self.superblock {
            Some(offset) => {
                format!(in alloc; "veritysetup verify --hash-offset {offset} data hash.img {root}")
            }
            None => ["veritysetup verify ", self.options, " data hash.img ", root].concat(alloc),
        }
    }

    /// Tries each fault of verify: the superblock is read, then the data once, and each hash block as it closes.
    pub fn try_verify(&self, alloc: Global) -> Result<(), Fail> {
        let tree = self.tree(alloc)?;
        let words = self.words_of_verify(alloc, tree.root.as_slice())?;
        let mut scene = self.over_made(alloc, words)?;
        self.verifies(&mut scene, &tree)?;
        scene.try_all(Call::Read)
    }

    /// The steps of verify.
    fn verifies(&self, scene: &mut Scene, tree: &Tree) -> Result<(), AllocError> {
        scene.measures("data")?;
        scene.opens_to_read(HASH)?;
        if self.superblock.is_some() {
            scene.reads_superblock()?;
        }
        scene.passes(Pass::Verify, tree, self.extent())
    }

    /// Tries each fault of dump: the superblock is read, and its report is printed.
    pub fn try_dump(&self, alloc: Global) -> Result<(), Fail> {
        let offset = self.superblock.unwrap_or(0);
        let words = format!(in alloc; "veritysetup dump --hash-offset {offset} hash.img")?;
        let mut scene = self.over_made(alloc, words)?;
        self.dumps(&mut scene)?;
        scene.try_all(Call::Read)
    }

    /// The steps of dump.
    fn dumps(&self, scene: &mut Scene) -> Result<(), AllocError> {
        scene.opens_to_read(HASH)?;
        scene.reads_superblock()?;
        scene.prints(self.report(scene.alloc, None)?)
    }
}

impl Scene {
    /// The superblock is read.
    fn reads_superblock(&mut self) -> Result<(), AllocError> {
        self.calls_all(&[Call::Seek, Call::Read], "Cannot read superblock.\n")
    }
}
