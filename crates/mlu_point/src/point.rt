//! Points, owned and borrowed: the same calls, with one body each.

mod chunks;
mod coordinates;
mod evaluation;
mod metered;
mod order;
mod owned;
mod rule;
mod table;
mod view;

pub use order::BitOrder;
pub use owned::Point;
pub use rule::Successor;
pub use table::fill_equality_table;
pub use view::PointView;
