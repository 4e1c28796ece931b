//! Visits as text.
ghost use Rattle.std.specs.Prelude.{◌≡◌, ◌++◌, ◌∷◌, [], map, OnOk, OnErr};
ghost use Rattle.text_lines.specs.Writing.{text_of};
ghost use Rattle.shared_words.specs.Answers.{Returns};
ghost use Rattle.x_texts.specs.Words.{visit_words};

use crate::visit_line::VisitLine;
use std::alloc::{AllocError, Global};
use std::marker::Model;

/// Visits, each as the line that it is written as. A list of them would take as much memory again.
#[derive(Drop)]
pub struct VisitText {
    text: Vec<u8>,
    /// That of the last visit, which the next one mostly begins like.
    line: VisitLine,
}

impl Model for VisitText {
    ghost use Rattle.std.specs.Prelude.{ℕ, List};
    ghost use Rattle.x_texts.specs.Written.{visits_said, AreVisitLines};

    ghost Value = { List (List ℕ) };

    ghost view = { λ v. visits_said v.text.items };

    ghost invariant = { λ v. AreVisitLines v.text.items };
}

impl VisitText {
    /// No visit.
    pub fn new(alloc: Global) -> Result<VisitText, AllocError>
        ensures { Returns result [] }
    {
        let line = VisitLine::new(alloc)?;
        Ok(VisitText {
            text: Vec::new(alloc),
            line,
        })
    }

    /// Adds a visit; where memory runs out, nothing changes.
    pub fn push(&mut self, path: &[u32]) -> Result<(), AllocError>
        ensures added { OnOk result (self.new ≡ self.old ++ path.now ∷ []) }
        ensures unchanged { OnErr result (self.new ≡ self.old) }
    {
        self.line.turn(path)?;
        self.text.extend_from_slice(self.line.bytes())
    }

    /// The text: a line for each visit.
    pub fn into_text(self) -> Vec<u8>
        ensures { result.items ≡ text_of (map visit_words self) }
    {
        let VisitText { text, line: _ } = self;
        text
    }
}
