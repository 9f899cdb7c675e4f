//! What a refusal says of a tree.
ghost use Rattle.std.specs.Prelude.{◌≡◌};
ghost use Rattle.data_core.specs.Unexpected.{kind_of as kind_lent, seen_of as seen_lent};
ghost use Rattle.data_core.specs.Node.{own_kind};
ghost use Rattle.serde_value.specs.Seen.{seen_of_node};
ghost use Rattle.serde_value.specs.View.{node_view};

use crate::value::Value;

impl Value {
    // What a refusal says of a tree, lent.
    pub(crate) fn unexpected(&self) -> data_core::Unexpected<'_>
        ensures seen { seen_lent result ≡ seen_of_node (node_view self.now) }
        ensures kind { kind_lent result ≡ own_kind (node_view self.now) }
    {
        match self {
            Value::Bool(b) => data_core::Unexpected::Bool(*b),
            Value::U8(n) => data_core::Unexpected::Unsigned(u64::from(*n)),
            Value::U16(n) => data_core::Unexpected::Unsigned(u64::from(*n)),
            Value::U32(n) => data_core::Unexpected::Unsigned(u64::from(*n)),
            Value::U64(n) => data_core::Unexpected::Unsigned(*n),
            Value::I8(n) => data_core::Unexpected::Signed(i64::from(*n)),
            Value::I16(n) => data_core::Unexpected::Signed(i64::from(*n)),
            Value::I32(n) => data_core::Unexpected::Signed(i64::from(*n)),
            Value::I64(n) => data_core::Unexpected::Signed(*n),
            Value::Char(c) => data_core::Unexpected::Char(*c),
            Value::String(text) => data_core::Unexpected::Str(text.as_str()),
            Value::Unit => data_core::Unexpected::Unit,
            Value::Option(_) => data_core::Unexpected::Option,
            Value::Newtype(_) => data_core::Unexpected::NewtypeStruct,
            Value::Seq(_) => data_core::Unexpected::Seq,
            Value::Map(_) => data_core::Unexpected::Map,
            Value::Bytes(bytes) => data_core::Unexpected::Bytes(bytes.as_slice()),
        }
    }
}
