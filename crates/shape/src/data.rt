//! The data that is read by a shape.
use data_core::Text;
use std::marker::Model;

/// What is read by a shape, in order by variant as they are written here, and then by what the variant
/// holds: of lists the first difference counts, and then the length. It is this project's own. Comparing
/// takes no memory. Comparing and dropping recurse as deep as it nests.
#[cycle(data)]
#[derive(Drop)]
pub enum Data {
    Bool(bool),
    /// An integer of an unsigned shape, whatever the shape's width.
    Unsigned(u64),
    /// An integer of a signed shape, whatever the shape's width.
    Signed(i64),
    Char(char),
    Text(Text),
    Bytes(Vec<u8>),
    Unit,
    Option(Option<DataHeld>),
    /// What a newtype struct holds.
    Newtype(DataHeld),
    /// The values of a sequence, a tuple, a tuple struct, or the prefix of one of these two.
    Seq(DataItems),
    Map(DataMap),
    /// The values of a struct's fields, in the order of its shape.
    Struct(DataItems),
    /// A variant's number, and what the variant holds.
    Enum(usize, Payload),
}

/// What a variant holds, in order by variant and then by what that holds. It is this project's own.
/// Comparing takes no memory. Comparing and dropping recurse as deep as it nests.
#[cycle(data)]
#[derive(Drop)]
pub enum Payload {
    Unit,
    Newtype(DataHeld),
    Tuple(DataItems),
    /// The values of the fields, in the order of the variant's shape.
    Struct(DataItems),
}

/// What was read, in a box. It is this project's own. Dropping it recurses as deep as it nests.
#[cycle(data)]
#[derive(Drop)]
pub struct DataHeld {
    pub(crate) inner: Box<Data>,
}

/// What was read of elements, in order. It is this project's own. Dropping it recurses as deep as it
/// nests.
#[cycle(data)]
#[derive(Drop)]
pub struct DataItems {
    pub(crate) items: Vec<Data>,
}

/// What was read of entries: pairs by strictly rising key, which compare as a list of pairs. It is this
/// project's own. Comparing takes no memory. Comparing and dropping recurse as deep as it nests.
#[cycle(data)]
#[derive(Drop)]
pub struct DataMap {
    pub(crate) pairs: Vec<(Data, Data)>,
}

impl Model for DataHeld {
    ghost use Rattle.shape.specs.Shape as plain;
    ghost use Rattle.shape.specs.DataCode.{coded_data};

    ghost Value = { plain.Data };

    ghost coded = { coded_data };

    ghost use Rattle.shape.specs.Depth.{depth};
    ghost use Rattle.shape.specs.View.{data_view};

    ghost view = { λ h. data_view h.inner.value };

    ghost size = { depth };

    ghost use Rattle.std.proofs.Common.{arith};
    ghost use Rattle.shape.specs.Sizes.{deep≤depth};

    ghost size_decreases = { λ h i. omega (arith, deep≤depth h.inner.value) };
}

impl Model for DataItems {
    ghost use Rattle.std.specs.Prelude.{List, map};
    ghost use Rattle.std.specs.Coded.{coded_list};
    ghost use Rattle.shape.specs.Shape as plain;
    ghost use Rattle.shape.specs.Shape.{parts_of};
    ghost use Rattle.shape.specs.DataCode.{coded_data};

    ghost Value = { List plain.Data };

    ghost coded = { coded_list coded_data };

    ghost use Rattle.shape.specs.Depth.{depth_of_parts};
    ghost use Rattle.shape.specs.View.{data_view};

    ghost view = { λ a. map data_view a.items.items };

    ghost size = { λ ds. depth_of_parts (parts_of ds) };

    ghost use Rattle.std.proofs.Common.{arith};
    ghost use Rattle.shape.specs.Sizes.{most≤depth};

    ghost size_decreases = { λ a i. omega (arith, most≤depth a.items.items) };
}

impl Model for DataMap {
    ghost use Rattle.std.specs.Prelude.{List, map};
    ghost use Rattle.std.specs.Coded.{coded_list, coded×};
    ghost use Rattle.shape.specs.Shape as plain;
    ghost use Rattle.shape.specs.Shape.{pairs_of};
    ghost use Rattle.shape.specs.DataCode.{coded_data};

    ghost Value = { List (plain.Data × plain.Data) };

    ghost coded = { coded_list (coded× coded_data coded_data) };

    ghost use Rattle.shape.specs.Depth.{depth_of_pairs};
    ghost use Rattle.shape.specs.View.{pair_view};

    ghost view = { λ m. map pair_view m.pairs.items };

    ghost use Rattle.sorted_pairs.specs.Pairs.{Rises};
    ghost use Rattle.shape.specs.DataOrder.{data_order};

    ghost invariant = { λ m. Rises data_order (map pair_view m.pairs.items) };

    ghost size = { λ ps. depth_of_pairs (pairs_of ps) };

    ghost use Rattle.std.proofs.Common.{arith};
    ghost use Rattle.shape.specs.Sizes.{most≤depth_of_pairs};

    ghost size_decreases = { λ m i. omega (arith, most≤depth_of_pairs m.pairs.items) };
}
