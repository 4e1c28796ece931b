//! Takes the lines that say pieces: `piece`, `copies`, and what `maybe`, `any` and `mirror` say of them.
ghost use Rattle.std.specs.Prelude.{◌≡◌};
ghost use Rattle.text_lines.specs.Lines.{words_of};
ghost use Rattle.poly_texts.specs.Answers.{Becomes};
ghost use Rattle.poly_texts.specs.Reading as reading;

use crate::draft::Draft;
use crate::fault::{Fault, LineRefusal};
use crate::form::Form;
use crate::kind::PieceKind;
use crate::piece::shape_of;
use crate::pieces::new_names;
use crate::usage::Usage;
use crate::word::{joined, split_plus};
use std::alloc::Global;
use text_lines::{has_words, split_word};

impl Draft {
    /// Takes a kind of this form, with the symbols of a word, and the cells of other words.
    #[tactic(auto, unfolding(crate::specs::Reading::kind_line))]
    fn take_kind(
        &mut self,
        alloc: Global,
        form: Form,
        word: &[u8],
        cells: &[u8],
    ) -> Result<(), LineRefusal>
        ensures { Becomes result self.new
            (reading.kind_line self.old form word.now (words_of cells.now)) }
    {
        if !has_words(cells) {
            return Err(LineRefusal::Fault(Fault::BadLine));
        }
        let symbols = new_names(alloc, self.kinds.as_slice(), form.usage, word)?;
        let shape = shape_of(alloc, cells)?;
        self.kinds.push(PieceKind {
            form,
            symbols,
            shape,
        })?;
        Ok(())
    }

    /// Takes the piece of a `piece` line.
    #[tactic(auto, unfolding(crate::specs::Reading::piece_line))]
    pub(super) fn take_piece(
        &mut self,
        alloc: Global,
        usage: Usage,
        is_mirrored: bool,
        words: &[u8],
    ) -> Result<(), LineRefusal>
        ensures { Becomes result self.new
            (reading.piece_line self.old usage is_mirrored (words_of words.now)) }
    {
        let Some((word, cells)) = split_word(words) else {
            return Err(LineRefusal::Fault(Fault::BadLine));
        };
        let form = Form {
            usage,
            is_mirrored,
            spare: 0,
        };
        self.take_kind(alloc, form, word, cells)
    }

    /// Takes the pieces of a `copies` line, with a `+` or without.
    #[tactic(auto, unfolding(crate::specs::Reading::copies_line))]
    pub(super) fn take_copies(
        &mut self,
        alloc: Global,
        is_mirrored: bool,
        words: &[u8],
    ) -> Result<(), LineRefusal>
        ensures { Becomes result self.new
            (reading.copies_line self.old is_mirrored (words_of words.now)) }
    {
        let Some((word, cells)) = split_word(words) else {
            return Err(LineRefusal::Fault(Fault::BadLine));
        };
        let usage = Usage::Copies;
        let Some((needed, spare)) = split_plus(word) else {
            let form = Form {
                usage,
                is_mirrored,
                spare: 0,
            };
            return self.take_kind(alloc, form, word, cells);
        };
        if spare.is_empty() {
            return Err(LineRefusal::Fault(Fault::BadLine));
        }
        let form = Form {
            usage,
            is_mirrored,
            spare: spare.len(),
        };
        self.take_kind(alloc, form, joined(alloc, needed, spare)?.as_slice(), cells)
    }
}
