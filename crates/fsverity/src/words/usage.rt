//! How the program is used.

/// The usage text of the program and of its command.
pub(crate) const USAGE: &str = "fsverity digest [--hash-alg NAME] [--block-size BYTES] [--salt HEX]
           [--compact] [--for-builtin-sig] [--out-merkle-tree FILE]
           [--out-descriptor FILE] FILE...";
