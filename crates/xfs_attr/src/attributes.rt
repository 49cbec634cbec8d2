//! Attributes, and what a reader of them answers.

ghost use Rattle.std.specs.Prelude.{◌≡◌};

use std::alloc::Global;
use std::marker::Model;
use xfs_disk::{NoMemory, Word};

/// An extended attribute.
#[derive(Debug, Drop)]
pub struct Attr {
    /// The flags of its entry: bit 0 its value stands in the leaf (in a leaf alone), bit 1 it is one of the
    /// root's, bit 2 it is one of the security modules.
    pub flags: u8,
    pub name: Word,
    pub value: Word,
}

impl Attr {
    ghost use Rattle.std.specs.Prelude.{IfOk};

    /// An attribute with copies of this name and value.
    pub(crate) fn copied(
        alloc: Global,
        flags: u8,
        name: &[u8],
        value: &[u8],
    ) -> Result<Attr, NoMemory>
        ensures { IfOk result (λ attribute. attribute ≡ record { flags = flags; name = name.now; value = value.now }) }
    {
        let name = Word::from_slice(alloc, name)?;
        let value = Word::from_slice(alloc, value)?;
        Ok(Attr { flags, name, value })
    }
}

/// A list of attributes.
#[derive(Drop)]
pub struct Attrs {
    attributes: Vec<Attr>,
}

impl Model for Attrs {
    ghost use Rattle.std.specs.Prelude.{List};
    ghost use Rattle.xfs_attr.specs.declared.attributes.Attr.{Attr};

    ghost Value = { List Attr };

    ghost view = { λ attrs. attrs.attributes.items };
}

impl Attrs {
    /// The list of these attributes. Takes no memory.
    pub fn from_vec(attributes: Vec<Attr>) -> Attrs
        ensures { result ≡ attributes.items }
    {
        Attrs { attributes }
    }

    /// The attributes of the list. Takes no memory.
    pub fn into_vec(self) -> Vec<Attr>
        ensures { result.items ≡ self }
    {
        let Attrs { attributes } = self;
        attributes
    }

    /// The attributes of the list.
    pub fn as_slice(&self) -> &[Attr]
        ensures { result.now ≡ self.now }
    {
        self.attributes.as_slice()
    }
}

/// Why attributes are not read.
#[derive(Clone, Copy, Debug)]
pub enum AttrFault {
    /// They have a form that is not supported: 1 a value outside the leaf.
    Unsupported { what: u8 },
    /// They break a rule of their form.
    Unsound,
    /// There is not enough memory.
    NoMemory,
}
