//! What a reader saw where it wanted something else, owned.
ghost use Rattle.std.specs.Prelude.{◌≡◌, IfOk};
ghost use Rattle.data_core.specs.Unexpected.{kind_of as kind_lent, seen_of as seen_lent};
ghost use Rattle.value_error.specs.Unexpected.{kind_of, seen_of};

use data_core::Text;
use std::alloc::{AllocError, Global};
use std::fmt;

/// What a reader saw: serde_value's owned `Unexpected`, without floats.
#[derive(Drop)]
pub enum Unexpected {
    Bool(bool),
    Unsigned(u64),
    Signed(i64),
    Char(char),
    Str(Text),
    Bytes(Vec<u8>),
    Unit,
    Option,
    NewtypeStruct,
    Seq,
    Map,
    Enum,
    UnitVariant,
    NewtypeVariant,
    TupleVariant,
    StructVariant,
    Other(Text),
}

impl Unexpected {
    /// A copy of what a reader saw: serde_value's `From` of serde's `Unexpected`.
    pub fn from_core(alloc: Global, u: data_core::Unexpected<'_>) -> Result<Unexpected, AllocError>
        ensures seen { IfOk result (λ o. seen_of o ≡ seen_lent u.entry) }
        ensures kind { IfOk result (λ o. kind_of o ≡ kind_lent u.entry) }
    {
        Ok(match u {
            data_core::Unexpected::Bool(b) => Unexpected::Bool(b),
            data_core::Unexpected::Unsigned(n) => Unexpected::Unsigned(n),
            data_core::Unexpected::Signed(n) => Unexpected::Signed(n),
            data_core::Unexpected::Char(c) => Unexpected::Char(c),
            data_core::Unexpected::Str(s) => Unexpected::Str(Text::new(alloc, s)?),
            data_core::Unexpected::Bytes(b) => Unexpected::Bytes(Vec::from_slice(alloc, b)?),
            data_core::Unexpected::Unit => Unexpected::Unit,
            data_core::Unexpected::Option => Unexpected::Option,
            data_core::Unexpected::NewtypeStruct => Unexpected::NewtypeStruct,
            data_core::Unexpected::Seq => Unexpected::Seq,
            data_core::Unexpected::Map => Unexpected::Map,
            data_core::Unexpected::Enum => Unexpected::Enum,
            data_core::Unexpected::UnitVariant => Unexpected::UnitVariant,
            data_core::Unexpected::NewtypeVariant => Unexpected::NewtypeVariant,
            data_core::Unexpected::TupleVariant => Unexpected::TupleVariant,
            data_core::Unexpected::StructVariant => Unexpected::StructVariant,
            data_core::Unexpected::Other(s) => Unexpected::Other(Text::new(alloc, s)?),
        })
    }

    /// The same, lent: serde_value's `to_unexpected`. Takes no memory.
    pub fn to_unexpected(&self) -> data_core::Unexpected<'_>
        ensures seen { seen_lent result ≡ seen_of self.now }
        ensures kind { kind_lent result ≡ kind_of self.now }
    {
        match self {
            Unexpected::Bool(b) => data_core::Unexpected::Bool(*b),
            Unexpected::Unsigned(n) => data_core::Unexpected::Unsigned(*n),
            Unexpected::Signed(n) => data_core::Unexpected::Signed(*n),
            Unexpected::Char(c) => data_core::Unexpected::Char(*c),
            Unexpected::Str(s) => data_core::Unexpected::Str(s.as_str()),
            Unexpected::Bytes(b) => data_core::Unexpected::Bytes(b.as_slice()),
            Unexpected::Unit => data_core::Unexpected::Unit,
            Unexpected::Option => data_core::Unexpected::Option,
            Unexpected::NewtypeStruct => data_core::Unexpected::NewtypeStruct,
            Unexpected::Seq => data_core::Unexpected::Seq,
            Unexpected::Map => data_core::Unexpected::Map,
            Unexpected::Enum => data_core::Unexpected::Enum,
            Unexpected::UnitVariant => data_core::Unexpected::UnitVariant,
            Unexpected::NewtypeVariant => data_core::Unexpected::NewtypeVariant,
            Unexpected::TupleVariant => data_core::Unexpected::TupleVariant,
            Unexpected::StructVariant => data_core::Unexpected::StructVariant,
            Unexpected::Other(s) => data_core::Unexpected::Other(s.as_str()),
        }
    }
}

/// The text of what is lent.
impl fmt::Display for Unexpected {
    ghost use Rattle.data_core.specs.UnexpectedText.{seen_text};

    ghost output = { λ u. seen_text (seen_of u) };

    fn fmt<W: fmt::Write>(&self, f: &mut fmt::Formatter<W>) -> fmt::Result {
        self.to_unexpected().fmt(f)
    }
}
