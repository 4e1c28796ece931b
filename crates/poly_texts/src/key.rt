//! The first words of lines.
ghost use Rattle.std.specs.Prelude.{◌≡◌};
ghost use Rattle.poly_texts.specs.Reading.{key_from};

/// What a line says.
#[derive(Drop)]
pub enum Key {
    Piece,
    Box,
    Cells,
    Cut,
    Maybe,
    Any,
    Mirror,
    Copies,
}

/// What a line with this first word says.
pub fn key_of(word: &[u8]) -> Option<Key>
    ensures { result ≡ key_from word.now }
{
    if word == b"piece".as_slice() {
        Some(Key::Piece)
    } else if word == b"box".as_slice() {
        Some(Key::Box)
    } else if word == b"cells".as_slice() {
        Some(Key::Cells)
    } else if word == b"cut".as_slice() {
        Some(Key::Cut)
    } else if word == b"maybe".as_slice() {
        Some(Key::Maybe)
    } else if word == b"any".as_slice() {
        Some(Key::Any)
    } else if word == b"mirror".as_slice() {
        Some(Key::Mirror)
    } else if word == b"copies".as_slice() {
        Some(Key::Copies)
    } else {
        None
    }
}
