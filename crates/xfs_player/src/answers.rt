//! Answers that no call of the tools sees yet.

use xfs_image::Finding;
use xfs_place::Unplaced;
use xfs_tools::{Answer, Summary};
use xfs_volume::Law;

/// The answers, in the order of their lines; the last has none.
pub fn answers() -> [Answer; 13] {
    [
        Answer::Repaired(Summary::Rebuilt {
            blocks: 12,
            kept: 3,
            cleared: 0,
            orphans: 0,
        }),
        Answer::Unsupported {
            word: 12,
            bits: 0xfedc_ba98_7654_3210,
        },
        Answer::Damaged(Finding::Law(Law {
            law: 2,
            place: 1,
            held: u128::MAX,
            due: 0,
        })),
        Answer::DirtyLog,
        Answer::TooLarge {
            what: 1,
            count: 2_097_184,
        },
        Answer::UnsupportedFile { ino: 131, what: 4 },
        Answer::NoRoom(Unplaced::Group(3)),
        Answer::NoRoom(Unplaced::Directory(128)),
        Answer::NoRoom(Unplaced::File(131)),
        Answer::NoRoom(Unplaced::Chunk),
        Answer::NoRoom(Unplaced::LostFound),
        Answer::NoMemory,
        Answer::OutputFault,
    ]
}
