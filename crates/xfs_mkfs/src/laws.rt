//! Laws of volumes that were made. Each function does nothing; its contract is the law.

ghost use Rattle.std.specs.Prelude.{ℕ, Option};
ghost use Rattle.std.specs.Option.{ForSome};
ghost use Rattle.xfs_disk.specs.Blocks.{Image};
ghost use Rattle.xfs_disk.specs.Files.{Files};
ghost use Rattle.xfs_disk.specs.declared.stamp.Stamp.{Stamp};
ghost use Rattle.xfs_options.specs.declared.make_words.MakeOptions.{MakeOptions};
ghost use Rattle.xfs_mkfs.specs.Outcome.{IsDueMake, IsMade};
ghost use Rattle.xfs_mkfs.specs.Roots.{HasInodeRoot};
ghost use Rattle.xfs_mkfs.specs.declared.outcome.MadeSummary.{MadeSummary};
ghost use Rattle.xfs_mkfs.specs.declared.outcome.MakeOutcome.TheVariants.{Made};

/// Where a volume was made on a disk of so many blocks, the root of the inode records of its first group that block 0 states
/// is one of these, and not block 0.
pub fn made_root_inside()
    ensures { (o : MakeOptions) (s : Stamp) (told : Option Files) (blocks : ℕ) (image : Image) (now : Option Image) (summary : MadeSummary)
        → IsDueMake o s told blocks image (Made summary) → IsMade o s told blocks image now summary → ForSome now (HasInodeRoot blocks) }
{}
