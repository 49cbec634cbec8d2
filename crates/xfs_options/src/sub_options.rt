//! The sub-options of mkfs.xfs: items of the lists that some of its options take.

ghost use Rattle.std.specs.Prelude.{◌≡◌, ◌==◌, ◌&&◌, bytes_eq, length, take};
ghost use Rattle.std.specs.List.{find};
ghost use Rattle.xfs_options.specs.SubOptions.{all_sub_options, fits, item_form, is_item_of, option_of, rival_of, sub_of, item_text};
ghost use Rattle.xfs_options.specs.declared.sub_options.SubOption.{SubOption};

use crate::identifiers::identifier;
use crate::items::OptionItem;
use crate::numbers::read_decimal;
use crate::sizes::size;

/// What follows the text of a sub-option.
#[derive(Clone, Copy)]
pub(crate) enum ItemForm {
    /// Nothing: the text says all.
    Fixed,
    Size,
    /// A decimal number below 2^63.
    Count,
    /// The identifier of a volume.
    Identifier,
}

/// The sub-options.
#[derive(Clone, Copy)]
pub(crate) enum SubOption {
    DataSize,
    AgCount,
    AgSize,
    LogSize,
    Identifier,
    Crc,
    Finobt,
    Rmapbt,
    Reflink,
    Bigtime,
    Inobtcount,
    InodeSize,
    Sparse,
    Nrext64,
    SectorSize,
    BlockSize,
    Ftype,
}

/// Every sub-option.
pub(crate) const ALL: [SubOption; 17] = [
    SubOption::DataSize,
    SubOption::AgCount,
    SubOption::AgSize,
    SubOption::LogSize,
    SubOption::Identifier,
    SubOption::Crc,
    SubOption::Finobt,
    SubOption::Rmapbt,
    SubOption::Reflink,
    SubOption::Bigtime,
    SubOption::Inobtcount,
    SubOption::InodeSize,
    SubOption::Sparse,
    SubOption::Nrext64,
    SubOption::SectorSize,
    SubOption::BlockSize,
    SubOption::Ftype,
];

impl SubOption {
    /// The sub-option that an item gives.
    #[tactic(auto, unfolding(crate::specs::SubOptions::sub_of))]
    pub fn of(item: &OptionItem) -> Option<SubOption>
        ensures { result ≡ sub_of item.now }
    {
        find_given(&ALL, item)
    }

    /// Whether an item gives the sub-option.
    pub fn is_given(self, item: &OptionItem) -> bool
        ensures { result ≡ is_item_of self item.now }
    {
        self.list() == item.option && begins(item.text.bytes(), self.text().as_bytes())
    }

    /// The letter of the option in whose lists it stands.
    fn list(self) -> u8
        ensures { result ≡ option_of self }
    {
        match self {
            SubOption::DataSize | SubOption::AgCount | SubOption::AgSize => b'd',
            SubOption::LogSize => b'l',
            SubOption::InodeSize | SubOption::Sparse | SubOption::Nrext64 => b'i',
            SubOption::SectorSize => b's',
            SubOption::BlockSize => b'b',
            SubOption::Ftype => b'n',
            _ => b'm',
        }
    }

    /// The text with which its items begin.
    pub fn text(self) -> &'static str
        ensures { result.now ≡ item_text self }
    {
        match self {
            SubOption::DataSize | SubOption::LogSize => "size=",
            SubOption::AgCount => "agcount=",
            SubOption::AgSize => "agsize=",
            SubOption::Identifier => "uuid=",
            SubOption::Crc => "crc=1",
            SubOption::Finobt => "finobt=1",
            SubOption::Rmapbt => "rmapbt=1",
            SubOption::Reflink => "reflink=0",
            SubOption::Bigtime => "bigtime=0",
            SubOption::Inobtcount => "inobtcount=0",
            SubOption::InodeSize | SubOption::SectorSize => "size=512",
            SubOption::Sparse => "sparse=1",
            SubOption::Nrext64 => "nrext64=0",
            SubOption::BlockSize => "size=4096",
            SubOption::Ftype => "ftype=1",
        }
    }

    /// What follows the text.
    pub fn form(self) -> ItemForm
        ensures { result ≡ item_form self }
    {
        match self {
            SubOption::DataSize | SubOption::AgSize | SubOption::LogSize => ItemForm::Size,
            SubOption::AgCount => ItemForm::Count,
            SubOption::Identifier => ItemForm::Identifier,
            _ => ItemForm::Fixed,
        }
    }

    /// The sub-option that can't stand beside it: its own, or the other one that says how many groups there are.
    pub fn rival(self) -> SubOption
        ensures { result ≡ rival_of self }
    {
        match self {
            SubOption::AgCount => SubOption::AgSize,
            SubOption::AgSize => SubOption::AgCount,
            _ => self,
        }
    }
}

impl ItemForm {
    /// Whether the rest of an item is of the form.
    pub fn fits(self, rest: &[u8]) -> bool
        ensures { result ≡ fits self rest.now }
    {
        match self {
            ItemForm::Fixed => rest.is_empty(),
            ItemForm::Size => size(rest).is_some(),
            ItemForm::Count => read_decimal(rest).is_some(),
            ItemForm::Identifier => identifier(rest).is_some(),
        }
    }
}

/// Whether a text begins so.
fn begins(text: &[u8], start: &[u8]) -> bool
    ensures { result ≡ bytes_eq (take (length start.now) text.now) start.now }
{
    head(text, start.len()) == start
}

/// The first bytes of a text, so many at most.
fn head(text: &[u8], most: usize) -> &[u8]
    ensures { result.now ≡ take most text.now }
{
    if text.len() < most {
        text
    } else {
        &text[..most]
    }
}

/// The first of these sub-options that an item gives.
fn find_given(subs: &[SubOption], item: &OptionItem) -> Option<SubOption>
    ensures { result ≡ find (λ (sub : SubOption). is_item_of sub item.now) subs.now }
{
    for sub in subs {
        if sub.is_given(item) {
            return Some(*sub);
        }
    }
    None
}
