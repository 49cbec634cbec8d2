//! Laws about the clusters among which lost+found finds a place, and about its number. The function does nothing; its contract is the
//! laws.

ghost use Rattle.xfs_settled.specs.Laws.Lost.{LostFoundStandsApartApart, LostFoundStandsApartClusters, LostFoundStandsApartFound, LostFoundStandsApartLow};

/// The clusters that are gathered of any image lie in the volume (`clusters`), and so does the one that is found for lost+found where
/// one is (`found`). Its inode has a number below 2^32 (`low`), which no file has (`apart`).
pub fn lost_found_stands_apart()
    ensures clusters { LostFoundStandsApartClusters }
    ensures found { LostFoundStandsApartFound }
    ensures low { LostFoundStandsApartLow }
    ensures apart { LostFoundStandsApartApart }
{}
