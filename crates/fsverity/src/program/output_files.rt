//! The output files of a run.
ghost use Rattle.std.specs.Prelude.{◌≡◌, ◌⊎◌, ◌||◌, None, Some, IfErr, IfOk, IfSome, OnOk, is_some};
ghost use Rattle.std.specs.Prelude.{option_map, option_copied, string_bytes};
ghost use Rattle.fsverity.specs.OutputFiles.{FoundBySystem, IsAnswer, names_of};

use crate::Line;
use command_line::{
    FileIdentity, Identities, OpenedFile, are_same_file, is_folder, open_truncated, text_of,
};
use std::io::{Read, Seek, Write};
use std::rt::Files;
use verity_io::FileDevice;

/// The names of the output files; `None` if one is not given.
#[derive(Clone, Copy)]
pub(crate) struct OutputNames<'a> {
    pub tree: Option<&'a str>,
    pub descriptor: Option<&'a str>,
}

impl<'a> OutputNames<'a> {
    /// The names that a command line gives.
    pub(crate) fn of_line(line: &'a Line) -> OutputNames<'a>
        ensures tree { option_copied result.tree ≡ option_map string_bytes line.now.out_merkle_tree }
        ensures descriptor { option_copied result.descriptor ≡ option_map string_bytes line.now.out_descriptor }
    {
        OutputNames {
            tree: text_of(&line.out_merkle_tree),
            descriptor: text_of(&line.out_descriptor),
        }
    }

    /// Whether at least one is given.
    pub(crate) fn are_given(&self) -> bool
        ensures { result ≡ (is_some self.now.tree || is_some self.now.descriptor) }
    {
        self.tree.is_some() || self.descriptor.is_some()
    }
}

/// The output files; `None` for one that is not named. What was opened last is closed first.
#[derive(Drop)]
pub(crate) struct OutputFiles<'a, D, W> {
    pub descriptor: Option<OpenedFile<'a, W>>,
    pub tree: Option<OpenedFile<'a, D>>,
}

impl<'a, D, W> OutputFiles<'a, D, W> {
    /// The names that they were asked for by.
    pub(crate) fn names(&self) -> OutputNames<'a>
        ensures { result ≡ names_of self.now }
    {
        OutputNames {
            tree: name_of(&self.tree),
            descriptor: name_of(&self.descriptor),
        }
    }
}

/// The name of an output file, if there is one.
fn name_of<'a, F>(file: &Option<OpenedFile<'a, F>>) -> Option<&'a str>
    ensures { result ≡ option_map (λ f. f.path) file.now }
{
    match file {
        Some(file) => Some(file.path()),
        None => None,
    }
}

impl<'a, F: Read + Write + Seek + Drop> OutputFiles<'a, FileDevice<F>, F> {
    /// Opens the output files, the tree's and then the descriptor's: each is created or truncated. The error is the
    /// name of the first that is refused. Nobody loses a file that is named twice: if the system says that an output
    /// file is the input file or the other output file, it is refused before anything is truncated. So is a folder.
    pub(crate) fn open<R: Identities<File = F>>(
        rt: &R,
        input: &F,
        names: OutputNames<'a>,
    ) -> Result<Self, &'a str>
        ensures names { IfOk result (λ files. names_of files ≡ names.entry) }
        ensures distinct { OnOk result
            (FoundBySystem (R.path_is rt.now) (R.file_is rt.now input.now) names.entry None) }
        ensures refused { IfErr result (λ name. (names.entry.tree ≡ Some name) ⊎ (names.entry.descriptor ≡ Some name)) }
    {
        if let Some(name) = folder_among(rt, names) {
            return Err(name);
        }
        if let Some(name) = file_named_twice(rt, input, names) {
            return Err(name);
        }
        let tree = open_output(rt, names.tree)?;
        // The file exists now, so the system can say whether the other name leads to it too.
        if let (Some(file), Some(name)) = (&tree, names.descriptor)
            && are_same_file(rt.file_identity(file.file()), rt.path_identity(name))
        {
            return Err(name);
        }
        let descriptor = open_output(rt, names.descriptor)?;
        Ok(OutputFiles {
            tree: over_device(tree),
            descriptor,
        })
    }
}

/// The name of the first output file that is a folder, as the system says.
fn folder_among<'a, R: Files>(rt: &R, names: OutputNames<'a>) -> Option<&'a str>
    ensures { IfSome result (λ name. (names.entry.tree ≡ Some name) ⊎ (names.entry.descriptor ≡ Some name)) }
{
    if leads_to_folder(rt, names.tree) {
        names.tree
    } else if leads_to_folder(rt, names.descriptor) {
        names.descriptor
    } else {
        None
    }
}

/// Whether a name is given and leads to a folder.
fn leads_to_folder<R: Files>(rt: &R, name: Option<&str>) -> bool {
    match name {
        Some(name) => is_folder(rt, name),
        None => false,
    }
}

/// The name of the first output file that is the input file or the other output file, as the system says.
fn file_named_twice<'a, R: Identities>(
    rt: &R,
    input: &R::File,
    names: OutputNames<'a>,
) -> Option<&'a str>
    ensures { FoundBySystem (R.path_is rt.now) (R.file_is rt.now input.now) names.entry result }
{
    let opened = rt.file_identity(input);
    let tree = identity_of(rt, names.tree);
    let descriptor = identity_of(rt, names.descriptor);
    if are_same_file(tree, opened) {
        names.tree
    } else if are_same_file(descriptor, opened) || are_same_file(descriptor, tree) {
        names.descriptor
    } else {
        None
    }
}

/// The file that a name leads to; `None` if no name is given or the system doesn't say.
fn identity_of<R: Identities>(rt: &R, name: Option<&str>) -> Option<FileIdentity>
    ensures { IsAnswer (R.path_is rt.now) name.entry result }
{
    match name {
        Some(name) => rt.path_identity(name),
        None => None,
    }
}

/// The device over an output file, if there is one.
fn over_device<F: Read + Write + Seek>(
    file: Option<OpenedFile<'_, F>>,
) -> Option<OpenedFile<'_, FileDevice<F>>>
    ensures { option_map (λ f. f.path) result ≡ option_map (λ f. f.path) file.entry }
{
    match file {
        Some(file) => Some(file.into_device()),
        None => None,
    }
}

/// The output file of a name, created or truncated. The error is the name.
fn open_output<'a, R: Files>(
    rt: &R,
    name: Option<&'a str>,
) -> Result<Option<OpenedFile<'a, R::File>>, &'a str>
    ensures named { IfOk result (λ file. option_map (λ f. f.path) file ≡ name.entry) }
    ensures error { IfErr result (λ refused. name.entry ≡ Some refused) }
{
    match name {
        None => Ok(None),
        Some(name) => match open_truncated(rt, name) {
            Ok(opened) => Ok(Some(opened)),
            Err(_) => Err(name),
        },
    }
}
