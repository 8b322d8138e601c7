//! The builder over a table and a seat.

ghost use Rattle.std.specs.Prelude.{◌≡◌};

use crate::seats::{GateSeat, GateTable};

/// The builder over a table and one of its seats. Its trace stays empty, and its base is the name of
/// the reference to the seat, and the identity and the size of the table.
#[derive(Drop)]
pub struct SeatBuilder<'a> {
    pub(crate) table: &'a GateTable,
    pub(crate) seat: &'a mut GateSeat,
    ghost of: { seat.now.table ≡ table.now },
}
