//! How a worker gives a lease back.
ghost use Rattle.std.specs.Prelude.{◌≡◌};
ghost use Rattle.lab_history.specs.Ending.{call_of_end, is_at_mark};

use crate::entry::Call;
use crate::grant::Grant;

/// How a lease is ended: its tile is parked, abandoned or closed.
#[derive(Clone, Copy)]
pub enum Ending {
    Park,
    Abandon,
    Close,
}

impl Ending {
    /// The call that ends a lease so.
    pub fn call(self, lease: Grant) -> Call
        ensures { result ≡ call_of_end self lease }
    {
        match self {
            Ending::Park => Call::Park(lease),
            Ending::Abandon => Call::Abandon(lease),
            Ending::Close => Call::Close(lease),
        }
    }

    /// Whether the tile stays at its mark: it is parked or abandoned.
    pub fn is_at_mark(self) -> bool
        ensures { result ≡ is_at_mark self }
    {
        match self {
            Ending::Close => false,
            _ => true,
        }
    }
}
