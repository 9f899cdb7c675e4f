//! The one outcome of each offer, as a tree.

use crate::value::Value;
use data_std::Told;

impl Told for Value {
    ghost use Rattle.data_core.specs.Node.{Node};
    ghost use Rattle.data_std.specs.Told.{told_by};
    ghost use Rattle.serde_value.specs.Captured.{captured_offer};
    ghost use Rattle.serde_value.specs.View.{node_view};

    ghost Seen = { Node };

    ghost see = { node_view };

    ghost outcome = { captured_offer };

    ghost is_told = { told_by node_view captured_offer };

    ghost is_quiet = { tt };

    ghost is_placed = { tt };
}
