//! Laws of the definitions of slots, counts and places: each holds for all settings and sizes.
ghost use Rattle.std.specs.Prelude.{◌≡◌, ℕ, ◌*◌, ◌^◌, ◌<◌, ◌≤◌};
ghost use Rattle.verity_plan.specs.Plans.{level_count};
ghost use Rattle.verity_plan.specs.PlanLaws.{IsLevelCount, PlacesAreOnce};
ghost use Rattle.verity_plan.specs.Settings.{TreeSettingsFields, IsValid, digest_len, fan, slot_width};
ghost use Rattle.verity_hash.specs.declared.salting.SaltRule.TheVariants.{Before, After, PaddedBefore};

/// A hash block has at least two slots, and room for all of them.
pub fn slots_fit()
    ensures two { (s : TreeSettingsFields) → IsValid s → 2 ≤ fan s }
    ensures room { (s : TreeSettingsFields) → IsValid s → fan s * slot_width s ≤ s.hash_block }
{}

/// The fan-out is the greatest power of two of digests that a hash block has room for.
pub fn fans_are_greatest()
    ensures power { (s : TreeSettingsFields) → (k : ℕ) × (fan s ≡ 2 ^ k) }
    ensures room { (s : TreeSettingsFields) → digest_len s ≤ s.hash_block → fan s * digest_len s ≤ s.hash_block }
    ensures greatest { (s : TreeSettingsFields) → s.hash_block < 2 * fan s * digest_len s }
{}

/// In dm-verity's hash type 1 a slot is the least power of two that isn't below a digest: half of it is. In hash type 0
/// and in fs-verity it is a digest.
pub fn slots_are_least()
    ensures digest { (s : TreeSettingsFields) → digest_len s ≤ slot_width s }
    ensures power { (s : TreeSettingsFields) → s.rule ≡ Before → (k : ℕ) × (slot_width s ≡ 2 ^ k) }
    ensures least { (s : TreeSettingsFields) → s.rule ≡ Before → slot_width s < 2 * digest_len s }
    ensures after { (s : TreeSettingsFields) → s.rule ≡ After → slot_width s ≡ digest_len s }
    ensures same { (s : TreeSettingsFields) → s.rule ≡ PaddedBefore → slot_width s ≡ digest_len s }
{}

/// The number of levels is the least whose power of the fan-out isn't below the number of data blocks.
pub fn level_counts_are_least()
    ensures { (fan n : ℕ) → 2 ≤ fan → IsLevelCount fan n (level_count fan n) }
{}

/// The places are the base to the end, each that of one block.
pub fn places_are_once()
    ensures { (fan n base : ℕ) → PlacesAreOnce fan n base }
{}
