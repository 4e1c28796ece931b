//! What a desk is made of, before it has a name.
ghost use Rattle.std.specs.Prelude.{◌≡◌, [], IfOk};

use crate::desk::Desking;
use crate::seat::{Noted, Own};
use known_parts::{Keeper, Opened};
use lab_book::Entry;
use std::alloc::{AllocError, Global};
use std::collections::LinkedList;
use std::marker::Model;

/// What the book and the seats of one desk are told from those of others by: it has a name, and is for
/// so many seats.
#[derive(Drop)]
pub struct Blank {
    pub(crate) opened: Opened<LinkedList<Entry>, LinkedList<Noted>, Own>,
    parts: u8,
}

impl Model for Blank {
    ghost use Rattle.lab_desk.specs.Seats.{BlankValue};

    ghost Value = { BlankValue };

    ghost view = { λ b. record { name = b.opened.id; parts = b.parts } };
}

impl Blank {
    /// A blank for so many seats. It takes memory for one number.
    pub fn new(alloc: Global, parts: u8) -> Result<Blank, AllocError>
        ensures { IfOk result (λ b. b.parts ≡ parts) }
    {
        let opened = Opened::new(alloc)?;
        Ok(Blank { opened, parts })
    }

    /// The keeper of what the desk with this name gains.
    pub(crate) fn named<L: Desking>(self) -> Keeper<LinkedList<Entry>, LinkedList<Noted>, Own, L>
        requires { self.name ≡ L.table }
        ensures { result ≡ record { all = []; made = 0 } }
    {
        self.opened.named::<L>()
    }
}
