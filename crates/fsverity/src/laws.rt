//! Laws of file digests: each holds for all settings and files.
ghost use Rattle.std.specs.Prelude.{◌≡◌, ◌⊎◌, ℕ, ◌^◌, ◌<◌, List, length};
ghost use Rattle.verity_format.specs.Descriptors.{digest_of_file};
ghost use Rattle.verity_hash.specs.declared.salting.SaltRule.TheVariants.{PaddedBefore};
ghost use Rattle.verity_plan.specs.Settings.{TreeSettingsFields, IsValid};
ghost use Rattle.fsverity.specs.Runs.FileCollisions.{FilesCollide, descriptor_of_file};

/// A file digest binds the file: two files whose digests, each made with settings of its own, are the same have the same
/// settings and the same bytes; or two different descriptors, or different messages at one place of their trees, have
/// one hash.
pub fn file_digests_bind_the_file()
    ensures { (s t : TreeSettingsFields) (x y : List ℕ) → IsValid s → IsValid t
        → s.rule ≡ PaddedBefore → t.rule ≡ PaddedBefore → length x < 2 ^ 64 → length y < 2 ^ 64
        → digest_of_file (descriptor_of_file s x) ≡ digest_of_file (descriptor_of_file t y)
        → ((s ≡ t) × (x ≡ y)) ⊎ FilesCollide s t x y }
{}
