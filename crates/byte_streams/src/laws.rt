//! What can't be said of a stream, whatever counts of bytes are made up for it. Each law is a function that does nothing, whose contract is the
//! law.
ghost use Rattle.std.specs.Prelude.{ℕ, ◌≡◌, ◌<◌, ◌≤◌, ◌+◌, ◌++◌, ◌∷◌, [], false, List, Option, Some, None, length, map, take};
ghost use Rattle.std.specs.Io.KnownBytes.{Appends, Consumes};
ghost use Rattle.byte_streams.specs.Stream.{Stream, HasFailed, IsSound};
ghost use Rattle.byte_streams.specs.Input.{most_input};

/// If an answer follows a failure, it isn't so that some counts came and then a failure.
pub fn nothing_follows_a_failure()
    ensures { (old : List (Option ℕ)) (answer : Option ℕ) (counts : List ℕ)
        → old ++ None ∷ answer ∷ [] ≡ old ++ (map Some counts ++ None ∷ []) → ⊥ }
{}

/// A stream that wasn't asked has no failure behind its answers; and if it hadn't failed, it hasn't, whatever it holds.
pub fn silence_is_no_failure()
    ensures answers { (old : List (Option ℕ)) (counts : List ℕ) → old ≡ old ++ (map Some counts ++ None ∷ []) → ⊥ }
    ensures part { (s : Stream) (text : List ℕ) (n : ℕ) → s.failed ≡ false
        → Appends s.bytes s.bytes (take n text) → HasFailed s → ⊥ }
{}

/// If more bytes came than are read, it isn't so that some bytes came which are within the limit: where bytes are known there is one list of
/// those that came.
pub fn no_other_bytes_came()
    ensures { (n : ℕ) (old new : Stream) (before left came : List ℕ) → old.bytes ≡ Some before → new.bytes ≡ Some left
        → before ≡ came ++ left → most_input < n + length came
        → ((bytes : List ℕ) × Consumes old.bytes new.bytes bytes × (n + length bytes ≤ most_input)) × IsSound old new → ⊥ }
{}
