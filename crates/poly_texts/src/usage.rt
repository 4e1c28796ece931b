//! How the pieces of a line are used.
ghost use Rattle.std.specs.Prelude.{◌≡◌};
ghost use Rattle.poly_texts.specs.Usages as spec;

/// What a line says of its pieces: one has to be used once, may be left out, or may be used any number of times; or there are several equal
/// ones.
#[derive(Clone, Copy, Debug, PartialEq, Eq)]
pub enum Usage {
    Once,
    Maybe,
    Any,
    Copies,
}

impl Usage {
    /// Whether the piece has to be used once.
    pub fn is_once(self) -> bool
        ensures { result ≡ spec.is_once self }
    {
        matches!(self, Usage::Once)
    }

    /// Whether it may be left out.
    pub fn is_maybe(self) -> bool
        ensures { result ≡ spec.is_maybe self }
    {
        matches!(self, Usage::Maybe)
    }

    /// Whether it may be used any number of times.
    pub fn is_any(self) -> bool
        ensures { result ≡ spec.is_repeatable self }
    {
        matches!(self, Usage::Any)
    }

    /// Whether there are several equal ones.
    pub fn are_copies(self) -> bool
        ensures { result ≡ spec.are_copies self }
    {
        matches!(self, Usage::Copies)
    }

    /// Whether a line may have that many symbols.
    pub(crate) fn are_so_many(self, count: usize) -> bool
        ensures { result ≡ spec.are_so_many self count }
    {
        match self {
            Usage::Once => count == 1,
            Usage::Maybe => count == 1,
            Usage::Any => count > 0,
            Usage::Copies => count > 1,
        }
    }
}
