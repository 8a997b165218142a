//! What the tests of the definitions decide.

ghost use Rattle.std.specs.Prelude.{◌≡◌, Decides};
ghost use Rattle.zr_ledger.specs.Out.{Out};
ghost use Rattle.zr_ledger.specs.Ready.{is_ticket};
ghost use Rattle.zr_ledger.specs.Seats.{same_seat, Seat};

/// The test of two seats passes exactly where they are one.
pub fn seats_are_told_apart()
    ensures { (a b : Seat) → Decides (same_seat a b) (a ≡ b) }
{}

/// The test of a ticket passes exactly for its own unit with its own run number.
pub fn tickets_are_told_apart()
    ensures { (a b : Out) → Decides (is_ticket a b) (a ≡ b) }
{}
