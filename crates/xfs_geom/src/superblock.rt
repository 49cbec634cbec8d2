//! The superblock's layout: sector 0 of each allocation group (chapter "Superblocks").
//! One constant for each field, and the table of all in the order of their offsets, which are bytes from the sector's start; widths
//! are bytes too.

use xfs_word::{FieldLayout, Form};

/// The bytes of a superblock, which is one sector.
pub const SECTOR_SIZE: usize = 512;

pub const MAGICNUM: FieldLayout = FieldLayout {
    name: "magicnum",
    offset: 0,
    width: 4,
    form: Form::Hexadecimal,
};

pub const BLOCKSIZE: FieldLayout = FieldLayout {
    name: "blocksize",
    offset: 4,
    width: 4,
    form: Form::Decimal,
};

pub const DBLOCKS: FieldLayout = FieldLayout {
    name: "dblocks",
    offset: 8,
    width: 8,
    form: Form::Decimal,
};

pub const RBLOCKS: FieldLayout = FieldLayout {
    name: "rblocks",
    offset: 16,
    width: 8,
    form: Form::Decimal,
};

pub const REXTENTS: FieldLayout = FieldLayout {
    name: "rextents",
    offset: 24,
    width: 8,
    form: Form::Decimal,
};

pub const UUID: FieldLayout = FieldLayout {
    name: "uuid",
    offset: 32,
    width: 16,
    form: Form::Identifier,
};

pub const LOGSTART: FieldLayout = FieldLayout {
    name: "logstart",
    offset: 48,
    width: 8,
    form: Form::Decimal,
};

pub const ROOTINO: FieldLayout = FieldLayout {
    name: "rootino",
    offset: 56,
    width: 8,
    form: Form::Decimal,
};

pub const RBMINO: FieldLayout = FieldLayout {
    name: "rbmino",
    offset: 64,
    width: 8,
    form: Form::Decimal,
};

pub const RSUMINO: FieldLayout = FieldLayout {
    name: "rsumino",
    offset: 72,
    width: 8,
    form: Form::Decimal,
};

pub const REXTSIZE: FieldLayout = FieldLayout {
    name: "rextsize",
    offset: 80,
    width: 4,
    form: Form::Decimal,
};

pub const AGBLOCKS: FieldLayout = FieldLayout {
    name: "agblocks",
    offset: 84,
    width: 4,
    form: Form::Decimal,
};

pub const AGCOUNT: FieldLayout = FieldLayout {
    name: "agcount",
    offset: 88,
    width: 4,
    form: Form::Decimal,
};

pub const RBMBLOCKS: FieldLayout = FieldLayout {
    name: "rbmblocks",
    offset: 92,
    width: 4,
    form: Form::Decimal,
};

pub const LOGBLOCKS: FieldLayout = FieldLayout {
    name: "logblocks",
    offset: 96,
    width: 4,
    form: Form::Decimal,
};

pub const VERSIONNUM: FieldLayout = FieldLayout {
    name: "versionnum",
    offset: 100,
    width: 2,
    form: Form::Hexadecimal,
};

pub const SECTSIZE: FieldLayout = FieldLayout {
    name: "sectsize",
    offset: 102,
    width: 2,
    form: Form::Decimal,
};

pub const INODESIZE: FieldLayout = FieldLayout {
    name: "inodesize",
    offset: 104,
    width: 2,
    form: Form::Decimal,
};

pub const INOPBLOCK: FieldLayout = FieldLayout {
    name: "inopblock",
    offset: 106,
    width: 2,
    form: Form::Decimal,
};

pub const FNAME: FieldLayout = FieldLayout {
    name: "fname",
    offset: 108,
    width: 12,
    form: Form::Text,
};

pub const BLOCKLOG: FieldLayout = FieldLayout {
    name: "blocklog",
    offset: 120,
    width: 1,
    form: Form::Decimal,
};

pub const SECTLOG: FieldLayout = FieldLayout {
    name: "sectlog",
    offset: 121,
    width: 1,
    form: Form::Decimal,
};

pub const INODELOG: FieldLayout = FieldLayout {
    name: "inodelog",
    offset: 122,
    width: 1,
    form: Form::Decimal,
};

pub const INOPBLOG: FieldLayout = FieldLayout {
    name: "inopblog",
    offset: 123,
    width: 1,
    form: Form::Decimal,
};

pub const AGBLKLOG: FieldLayout = FieldLayout {
    name: "agblklog",
    offset: 124,
    width: 1,
    form: Form::Decimal,
};

pub const REXTSLOG: FieldLayout = FieldLayout {
    name: "rextslog",
    offset: 125,
    width: 1,
    form: Form::Decimal,
};

pub const INPROGRESS: FieldLayout = FieldLayout {
    name: "inprogress",
    offset: 126,
    width: 1,
    form: Form::Decimal,
};

pub const IMAX_PCT: FieldLayout = FieldLayout {
    name: "imax_pct",
    offset: 127,
    width: 1,
    form: Form::Decimal,
};

pub const ICOUNT: FieldLayout = FieldLayout {
    name: "icount",
    offset: 128,
    width: 8,
    form: Form::Decimal,
};

pub const IFREE: FieldLayout = FieldLayout {
    name: "ifree",
    offset: 136,
    width: 8,
    form: Form::Decimal,
};

pub const FDBLOCKS: FieldLayout = FieldLayout {
    name: "fdblocks",
    offset: 144,
    width: 8,
    form: Form::Decimal,
};

pub const FREXTENTS: FieldLayout = FieldLayout {
    name: "frextents",
    offset: 152,
    width: 8,
    form: Form::Decimal,
};

pub const UQUOTINO: FieldLayout = FieldLayout {
    name: "uquotino",
    offset: 160,
    width: 8,
    form: Form::Decimal,
};

pub const GQUOTINO: FieldLayout = FieldLayout {
    name: "gquotino",
    offset: 168,
    width: 8,
    form: Form::Decimal,
};

pub const QFLAGS: FieldLayout = FieldLayout {
    name: "qflags",
    offset: 176,
    width: 2,
    form: Form::Hexadecimal,
};

pub const FLAGS: FieldLayout = FieldLayout {
    name: "flags",
    offset: 178,
    width: 1,
    form: Form::Hexadecimal,
};

pub const SHARED_VN: FieldLayout = FieldLayout {
    name: "shared_vn",
    offset: 179,
    width: 1,
    form: Form::Decimal,
};

pub const INOALIGNMT: FieldLayout = FieldLayout {
    name: "inoalignmt",
    offset: 180,
    width: 4,
    form: Form::Decimal,
};

pub const UNIT: FieldLayout = FieldLayout {
    name: "unit",
    offset: 184,
    width: 4,
    form: Form::Decimal,
};

pub const WIDTH: FieldLayout = FieldLayout {
    name: "width",
    offset: 188,
    width: 4,
    form: Form::Decimal,
};

pub const DIRBLKLOG: FieldLayout = FieldLayout {
    name: "dirblklog",
    offset: 192,
    width: 1,
    form: Form::Decimal,
};

pub const LOGSECTLOG: FieldLayout = FieldLayout {
    name: "logsectlog",
    offset: 193,
    width: 1,
    form: Form::Decimal,
};

pub const LOGSECTSIZE: FieldLayout = FieldLayout {
    name: "logsectsize",
    offset: 194,
    width: 2,
    form: Form::Decimal,
};

pub const LOGSUNIT: FieldLayout = FieldLayout {
    name: "logsunit",
    offset: 196,
    width: 4,
    form: Form::Decimal,
};

pub const FEATURES2: FieldLayout = FieldLayout {
    name: "features2",
    offset: 200,
    width: 4,
    form: Form::Hexadecimal,
};

pub const BAD_FEATURES2: FieldLayout = FieldLayout {
    name: "bad_features2",
    offset: 204,
    width: 4,
    form: Form::Hexadecimal,
};

pub const FEATURES_COMPAT: FieldLayout = FieldLayout {
    name: "features_compat",
    offset: 208,
    width: 4,
    form: Form::Hexadecimal,
};

pub const FEATURES_RO_COMPAT: FieldLayout = FieldLayout {
    name: "features_ro_compat",
    offset: 212,
    width: 4,
    form: Form::Hexadecimal,
};

pub const FEATURES_INCOMPAT: FieldLayout = FieldLayout {
    name: "features_incompat",
    offset: 216,
    width: 4,
    form: Form::Hexadecimal,
};

pub const FEATURES_LOG_INCOMPAT: FieldLayout = FieldLayout {
    name: "features_log_incompat",
    offset: 220,
    width: 4,
    form: Form::Hexadecimal,
};

pub const CRC: FieldLayout = FieldLayout {
    name: "crc",
    offset: 224,
    width: 4,
    form: Form::Checksum,
};

pub const SPINO_ALIGN: FieldLayout = FieldLayout {
    name: "spino_align",
    offset: 228,
    width: 4,
    form: Form::Decimal,
};

pub const PQUOTINO: FieldLayout = FieldLayout {
    name: "pquotino",
    offset: 232,
    width: 8,
    form: Form::Decimal,
};

pub const LSN: FieldLayout = FieldLayout {
    name: "lsn",
    offset: 240,
    width: 8,
    form: Form::Hexadecimal,
};

pub const META_UUID: FieldLayout = FieldLayout {
    name: "meta_uuid",
    offset: 248,
    width: 16,
    form: Form::Identifier,
};

/// Every field of the superblock.
pub const SUPERBLOCK: [FieldLayout; 55] = [
    MAGICNUM,
    BLOCKSIZE,
    DBLOCKS,
    RBLOCKS,
    REXTENTS,
    UUID,
    LOGSTART,
    ROOTINO,
    RBMINO,
    RSUMINO,
    REXTSIZE,
    AGBLOCKS,
    AGCOUNT,
    RBMBLOCKS,
    LOGBLOCKS,
    VERSIONNUM,
    SECTSIZE,
    INODESIZE,
    INOPBLOCK,
    FNAME,
    BLOCKLOG,
    SECTLOG,
    INODELOG,
    INOPBLOG,
    AGBLKLOG,
    REXTSLOG,
    INPROGRESS,
    IMAX_PCT,
    ICOUNT,
    IFREE,
    FDBLOCKS,
    FREXTENTS,
    UQUOTINO,
    GQUOTINO,
    QFLAGS,
    FLAGS,
    SHARED_VN,
    INOALIGNMT,
    UNIT,
    WIDTH,
    DIRBLKLOG,
    LOGSECTLOG,
    LOGSECTSIZE,
    LOGSUNIT,
    FEATURES2,
    BAD_FEATURES2,
    FEATURES_COMPAT,
    FEATURES_RO_COMPAT,
    FEATURES_INCOMPAT,
    FEATURES_LOG_INCOMPAT,
    CRC,
    SPINO_ALIGN,
    PQUOTINO,
    LSN,
    META_UUID,
];
