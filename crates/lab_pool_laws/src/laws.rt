//! What can't be said of the notes of a seat: each law is a function that does nothing, whose contract is the law.
ghost use Rattle.std.specs.Prelude.{ℕ, ◌≡◌, List, [], Result, Ok, OnOk};
ghost use Rattle.lab_history.specs.declared.grant.Grant.{Grant};
ghost use Rattle.lab_history.specs.declared.entry.Call.TheVariants.{Abandon, Close, Park};
ghost use Rattle.lab_history.specs.declared.entry.Reply.TheVariants.{Done};
ghost use Rattle.lab_desk.specs.declared.seat.Noted.{Noted};
ghost use Rattle.lab_desk.specs.Record.{SeatValue, Notes};

/// At a seat without notes no call is noted that gave a tile up.
pub fn a_seat_without_notes_lets_nothing_go()
    ensures { (s : SeatValue) (g : Grant) (i : ℕ) (before : List Noted) → s.notes ≡ []
        → Notes i before s.notes s.number (Abandon g) Done → ⊥ }
{}

/// A note that a tile was parked isn't a note that it was closed.
pub fn a_parked_tile_is_not_closed()
    ensures { (old new : SeatValue) (g : Grant) (i j n : ℕ) (result : Result ℕ ℕ) → result ≡ Ok n
        → Notes i old.notes new.notes old.number (Park g) Done
        → OnOk result (Notes j old.notes new.notes old.number (Close g) Done) → ⊥ }
{}
