//! Laws about what comes of a repair. Each function does nothing; its contract is the law.

ghost use Rattle.std.specs.Prelude.{◌≡◌, ℕ, true, Option, None, Some};
ghost use Rattle.xfs_disk.specs.Blocks.{Image};
ghost use Rattle.xfs_disk.specs.declared.stamp.Stamp.{Stamp};
ghost use Rattle.xfs_geom.specs.Election.{elected};
ghost use Rattle.xfs_geom.specs.Volumes.{volume_of};
ghost use Rattle.xfs_geom.specs.declared.geometry.Geometry.{Geometry};
ghost use Rattle.xfs_laws.specs.Lawful.{broken_law};
ghost use Rattle.xfs_image.specs.Consistent.{HasFinding, IsConsistent, IsConsistentImage};
ghost use Rattle.xfs_image.specs.declared.findings.Finding.{Finding};
ghost use Rattle.xfs_scan.specs.Refused.{refused};
ghost use Rattle.xfs_mend.specs.Asked.{Asked};
ghost use Rattle.xfs_mend.specs.Due.{IsAnswer, IsDueRepair, IsOwed, scan_refusal, turned_away, uncounted};
ghost use Rattle.xfs_mend.specs.Outcome.{IsRebuilt, IsRepaired, RepairLeaves, is_quiet};

use crate::outcome::Outcome;

/// One outcome is due to an image, but for how many blocks a rebuild writes. Only a consistent image is clean, and each that is
/// looked at is; a check finds what is found first, in each image in which something is.
pub fn outcomes_by_rows()
    ensures one { (o : Asked) (s : Stamp) (image : Image) (a b : Outcome) → IsAnswer o s image (elected image) a → IsAnswer o s image (elected image) b → uncounted a ≡ uncounted b }
    ensures clean { (o : Asked) (s : Stamp) (image : Image) → IsAnswer o s image (elected image) Outcome.Clean → IsConsistentImage broken_law image }
    ensures consistent { (o : Asked) (s : Stamp) (g : Geometry) (image : Image) → IsConsistent broken_law g image → turned_away o (volume_of g) image ≡ None → IsAnswer o s image (elected image) Outcome.Clean }
    ensures found { (o : Asked) (s : Stamp) (image : Image) (found : Finding) (has : HasFinding broken_law image found) → turned_away o (volume_of has.geometry) image ≡ None → o.check ≡ true → IsAnswer o s image (elected image) (Outcome.Damaged found) }
{}

/// A repair of a consistent image writes nothing and leaves it as it is, whatever its options are and whatever comes of it: its log never
/// stands in the way, so clean is due unless it is too large or has a file that is not supported. So it is with what a rebuild left,
/// whether names changed or not, and with what a repair of backups left, to which clean is due in any case.
pub fn repairs_leave_it()
    ensures quiet { (o : Asked) (s : Stamp) (g : Geometry) (image : Image) (outcome : Outcome) → IsConsistent broken_law g image → IsDueRepair o s image outcome → is_quiet outcome ≡ true }
    ensures consistent { (o : Asked) (s : Stamp) (g : Geometry) (image : Image) (now : Option Image) (outcome : Outcome) → IsConsistent broken_law g image → IsDueRepair o s image outcome → RepairLeaves s image now outcome → now ≡ Some image }
    ensures clean { (o : Asked) (s : Stamp) (g : Geometry) (image : Image) → IsConsistent broken_law g image → scan_refusal (refused (volume_of g) image) ≡ None → IsAnswer o s image (elected image) Outcome.Clean }
    ensures repaired { (o : Asked) (s : Stamp) (image left : Image) (now : Option Image) (outcome : Outcome) → IsRepaired image (Some left) → IsDueRepair o s left outcome → RepairLeaves s left now outcome → now ≡ Some left }
    ensures rebuilt { (o : Asked) (s t : Stamp) (image left : Image) (now : Option Image) (blocks kept cleared orphans : ℕ) (outcome : Outcome) → IsRebuilt s image (Some left) blocks kept cleared orphans → IsDueRepair o t left outcome → RepairLeaves t left now outcome → now ≡ Some left }
    ensures due { (o : Asked) (s : Stamp) (image left : Image) (outcome : Outcome) → IsRepaired image (Some left) → IsDueRepair o s left outcome → IsOwed (λ due. due ≡ Outcome.Clean) outcome }
{}
