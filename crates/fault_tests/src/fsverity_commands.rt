//! The command of fsverity over files of some lengths, and the steps that it takes.
use crate::passes::{Extent, Pass};
use crate::scene::{Program, Scene};
use crate::steps::Effect;
use fixtures::{Shape, Tree, data, descriptor, with_zeros};
use memory_runtime::Call;
use std::alloc::{AllocError, Global};
use std::test::Fail;
use verity_hash::Algorithm;

/// How files are digested, as plain numbers.
#[derive(Clone, Copy)]
pub struct Setup {
    /// The options that choose it.
    pub options: &'static str,
    pub algorithm: Algorithm,
    pub block: usize,
    /// The number and the width of a block's slots.
    pub slots: (usize, usize),
    pub salt: &'static [u8],
    /// The input block of the hash function, to which the salt is padded.
    pub input_block: usize,
    /// The first four bytes of the descriptor.
    pub head: [u8; 4],
    /// What comes before the digits in a line with a name.
    pub before: &'static str,
    /// What comes before them in the digits of the bytes to be signed.
    pub before_signed: &'static str,
}

/// A file: its name, its length in bytes, and the number of levels of its tree.
#[derive(Clone, Copy)]
pub struct Named {
    pub name: &'static str,
    pub length: usize,
    pub levels: usize,
}

/// A form of lines: its options, and whether it names the file and has the bytes to be signed.
pub type Form = (&'static str, bool, bool);

/// Which output files are wanted: `tree` and `made`, for the tree and the descriptor.
pub type Outputs = (bool, bool);

impl Setup {
    /// The tree of a file.
    fn tree(&self, alloc: Global, file: Named) -> Result<Tree, AllocError> {
        let mut shape = Shape::new(alloc, self.algorithm, (self.block, self.block), self.slots);
        shape.before = with_zeros(alloc, &[self.salt], self.input_block)?;
        let mut tree = shape.tree(alloc, data(alloc, file.length)?.as_slice(), file.levels)?;
        if file.length == 0 {
            tree.root.clear();
        }
        Ok(tree)
    }

    fn extent(&self, length: usize) -> Extent {
        Extent {
            fan: self.slots.0,
            hash_block: self.block,
            blocks: length.div_ceil(self.block.max(1)),
        }
    }

    /// The line of a file with this descriptor.
    fn line(
        &self,
        alloc: Global,
        (_, with_name, signed): Form,
        descriptor: &[u8],
        name: &'static str,
    ) -> Result<String, AllocError> {
        let shape = Shape::new(alloc, self.algorithm, (0, 0), (0, 0));
        let digits = hex::encode(alloc, shape.digest(alloc, descriptor)?.as_slice())?;
        let before = if signed {
            self.before_signed
        } else if with_name {
            self.before
        } else {
            ""
        };
        let (space, name) = if with_name { (" ", name) } else { ("", "") };
        [before, digits.as_str(), space, name, "\n"].concat(alloc)
    }

    /// Tries each fault of digest of some files, with output files if there is one.
    pub fn try_digest(
        &self,
        alloc: Global,
        form: Form,
        files: &[Named],
        outputs: Outputs,
        first: Call,
    ) -> Result<(), Fail> {
        let words = ["fsverity digest ", self.options, form.0].concat(alloc)?;
        let mut scene = Scene::new(alloc, Program::Fsverity, words)?;
        self.digests(&mut scene, form, files, outputs)?;
        scene.try_all(first)
    }

    /// The files are digested, one after the other. The file for the tree is there before.
    fn digests(
        &self,
        scene: &mut Scene,
        form: Form,
        files: &[Named],
        outputs: Outputs,
    ) -> Result<(), AllocError> {
        let alloc = scene.alloc;
        scene.adds_file("tree", vec![in alloc; 77u8; 5000]?)?;
        for file in files {
            let pass = scene.opens_files(*file, outputs)?;
            self.prints_line(scene, form, *file, pass, outputs.1)?;
        }
        Ok(())
    }

    /// The data of a file is read once, and each block of the tree is written as it closes, if that is wanted. The
    /// result is the descriptor.
    fn reads(&self, scene: &mut Scene, file: Named, pass: Pass) -> Result<Vec<u8>, AllocError> {
        let tree = self.tree(scene.alloc, file)?;
        scene.passes(pass, &tree, self.extent(file.length))?;
        let (size, root) = (file.length as u64, tree.root.as_slice());
        descriptor(scene.alloc, &self.head, size, root, self.salt)
    }

    /// The data of a file is read, and if it is wanted, the descriptor is written; then the line is printed.
    fn prints_line(
        &self,
        scene: &mut Scene,
        form: Form,
        file: Named,
        pass: Pass,
        wants_descriptor: bool,
    ) -> Result<(), AllocError> {
        let bytes = self.reads(scene, file, pass)?;
        let line = self.line(scene.alloc, form, bytes.as_slice(), file.name)?;
        if wants_descriptor {
            let put = Effect::Put("made", 0, bytes);
            scene.calls(Call::Write, "fsverity: cannot write descriptor.\n", put)?;
        }
        scene.prints(line)
    }
}

impl Scene {
    /// A file is opened, and then the output files that are wanted. The result is what the pass does.
    fn opens_files(&mut self, file: Named, outputs: Outputs) -> Result<Pass, AllocError> {
        self.names(file)?;
        self.measures(file.name)?;
        self.empties(outputs)?;
        Ok(if outputs.0 {
            Pass::DigestTo(file.name, "tree")
        } else {
            Pass::Digest(file.name)
        })
    }

    /// A file is there before the run, and the command line names it.
    fn names(&mut self, file: Named) -> Result<(), AllocError> {
        self.words.push(' ')?;
        self.words.push_str(file.name)?;
        self.adds_file(file.name, data(self.alloc, file.length)?)
    }

    /// The system is asked of each output file that is wanted whether it is a folder; then each is opened and emptied.
    fn empties(&mut self, outputs: Outputs) -> Result<(), AllocError> {
        for wanted in &[outputs.0, outputs.1] {
            if *wanted {
                self.asks(Call::Metadata)?;
            }
        }
        for &(wanted, option, name) in &[
            (outputs.0, " --out-merkle-tree tree", "tree"),
            (outputs.1, " --out-descriptor made", "made"),
        ] {
            if wanted {
                self.words.push_str(option)?;
                self.opens_to_write(name, Effect::Emptied(name))?;
            }
        }
        Ok(())
    }
}
