//! Feature words: the fields that say of which kind a volume is (chapter "Superblocks").

ghost use Rattle.std.specs.Prelude.{◌≡◌, ℕ, ◌+◌, ◌<◌, ◌≤◌, ◌^◌, length, map, All, Option, Some, None, IsTrue};
ghost use Rattle.xfs_word.specs.Field.{field_of, is_width};
ghost use Rattle.xfs_geom.specs.Features.{departing_bits, departure_by, first_departure, is_readable_feature, refused_feature};
ghost use Rattle.xfs_geom.specs.Private.Words.{feature_word};

use crate::superblock::{
    BLOCKSIZE, DIRBLKLOG, FEATURES_COMPAT, FEATURES_INCOMPAT, FEATURES_LOG_INCOMPAT,
    FEATURES_RO_COMPAT, GQUOTINO, INOALIGNMT, INODESIZE, LOGSTART, PQUOTINO, RBLOCKS, SECTSIZE,
    SPINO_ALIGN, UQUOTINO, VERSIONNUM,
};
use xfs_word::field;

/// What a feature word has to hold.
#[derive(Clone, Copy)]
pub enum Rule {
    /// Just this number.
    Exactly(u64),
    /// Any number but 0.
    NotZero,
    /// 0, or 64 bits of ones.
    ZeroOrOnes,
    /// None of these bits.
    Without(u64),
}

/// A feature word that departs from its rule.
#[derive(Clone, Copy)]
pub struct Departure {
    /// The word's number.
    pub word: u8,
    /// The bits by which it departs: those that are held and not wanted, or wanted and not held.
    pub bits: u64,
}

/// A feature word: the number that a refusal names, its field in bytes from the sector's start, and its
/// rule. It holds no name of the field: a borrowed table without references is one constant, and with
/// them is made anew at each call.
#[derive(Clone, Copy)]
struct Feature {
    word: u8,
    offset: usize,
    width: usize,
    rule: Rule,
}

const FEATURES: [Feature; 16] = [
    Feature {
        word: 1,
        offset: BLOCKSIZE.offset,
        width: BLOCKSIZE.width,
        rule: Rule::Exactly(4096),
    },
    Feature {
        word: 2,
        offset: SECTSIZE.offset,
        width: SECTSIZE.width,
        rule: Rule::Exactly(512),
    },
    Feature {
        word: 3,
        offset: INODESIZE.offset,
        width: INODESIZE.width,
        rule: Rule::Exactly(512),
    },
    Feature {
        word: 4,
        offset: DIRBLKLOG.offset,
        width: DIRBLKLOG.width,
        rule: Rule::Exactly(0),
    },
    Feature {
        word: 5,
        offset: LOGSTART.offset,
        width: LOGSTART.width,
        rule: Rule::NotZero,
    },
    Feature {
        word: 6,
        offset: RBLOCKS.offset,
        width: RBLOCKS.width,
        rule: Rule::Exactly(0),
    },
    Feature {
        word: 7,
        offset: UQUOTINO.offset,
        width: UQUOTINO.width,
        rule: Rule::ZeroOrOnes,
    },
    Feature {
        word: 8,
        offset: GQUOTINO.offset,
        width: GQUOTINO.width,
        rule: Rule::ZeroOrOnes,
    },
    Feature {
        word: 9,
        offset: PQUOTINO.offset,
        width: PQUOTINO.width,
        rule: Rule::ZeroOrOnes,
    },
    Feature {
        word: 10,
        offset: FEATURES_COMPAT.offset,
        width: FEATURES_COMPAT.width,
        rule: Rule::Exactly(0),
    },
    Feature {
        word: 11,
        offset: FEATURES_RO_COMPAT.offset,
        width: FEATURES_RO_COMPAT.width,
        rule: Rule::Exactly(3),
    },
    Feature {
        word: 12,
        offset: FEATURES_INCOMPAT.offset,
        width: FEATURES_INCOMPAT.width,
        rule: Rule::Exactly(3),
    },
    Feature {
        word: 13,
        offset: FEATURES_LOG_INCOMPAT.offset,
        width: FEATURES_LOG_INCOMPAT.width,
        rule: Rule::Exactly(0),
    },
    Feature {
        word: 14,
        offset: INOALIGNMT.offset,
        width: INOALIGNMT.width,
        rule: Rule::Exactly(8),
    },
    Feature {
        word: 15,
        offset: SPINO_ALIGN.offset,
        width: SPINO_ALIGN.width,
        rule: Rule::Exactly(4),
    },
    Feature {
        word: 16,
        offset: VERSIONNUM.offset,
        width: VERSIONNUM.width,
        rule: Rule::Without(0x4000),
    },
];

/// The first feature word of a superblock that is refused.
#[tactic(auto, unfolding(crate::specs::Features::refused_feature))]
pub fn refused_feature(sector: &[u8]) -> Option<Departure>
    requires { length sector.now ≡ 512 }
    ensures { result ≡ refused_feature sector.now }
{
    first_departure(&FEATURES, sector)
}

/// The first of these words that departs from its rule.
fn first_departure(features: &[Feature], sector: &[u8]) -> Option<Departure>
    requires sector { length sector.now ≡ 512 }
    requires readable { All (λ f. IsTrue (is_readable_feature (feature_word f))) features.now }
    ensures { result ≡ first_departure (map feature_word features.now) sector.now }
{
    for feature in features {
        if let Some(departure) = feature.departure(sector) {
            return Some(departure);
        }
    }
    None
}

impl Feature {
    fn departure(&self, sector: &[u8]) -> Option<Departure>
        requires sector { length sector.now ≡ 512 }
        requires readable { IsTrue (is_readable_feature (feature_word self.now)) }
        ensures { result ≡ departure_by self.now.word (departing_bits self.now.rule (field_of sector.now self.now.offset self.now.width)) }
    {
        let bits = self
            .rule
            .departing_bits(field(sector, self.offset, self.width))?;
        Some(Departure {
            word: self.word,
            bits,
        })
    }
}

impl Rule {
    /// The bits by which a number departs from the rule, or `None` where it keeps it.
    fn departing_bits(self, held: u64) -> Option<u64>
        ensures { result ≡ departing_bits self held }
    {
        match self {
            Rule::Exactly(required) => (held != required).then_some(held ^ required),
            Rule::NotZero => (held == 0).then_some(0),
            Rule::ZeroOrOnes => (held != 0 && held != u64::MAX).then_some(held),
            Rule::Without(bits) => (held & bits != 0).then_some(held & bits),
        }
    }
}
