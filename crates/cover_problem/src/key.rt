//! The first words of lines.
ghost use Rattle.std.specs.Prelude.{◌≡◌};
ghost use Rattle.cover_problem.specs.Reading.{key_from};

/// What a line says.
pub enum Key {
    /// The names of the items that have to be covered.
    Items,
    /// The names of the items that may be covered.
    Maybe,
    /// The items of an option.
    Option,
}

/// What a line with this first word says.
pub fn key_of(word: &[u8]) -> Option<Key>
    ensures { result ≡ key_from word.now }
{
    match word {
        b"items" => Some(Key::Items),
        b"maybe" => Some(Key::Maybe),
        b"option" => Some(Key::Option),
        _ => None,
    }
}
