//! Laws of replies, over the definitions alone: each is a function that does nothing, whose contract is the law.
ghost use Rattle.std.specs.Prelude.{ℕ, List};
ghost use Rattle.x_debug.specs.Session.{SessionValue};
ghost use Rattle.debug_script.specs.Replies.{ReplyAlike};

/// Sound sessions that are alike answer any command lines with the same bytes, though their closed tiles, ids, leases and histories
/// may differ: so no reply names one of these.
pub fn closed_tiles_are_not_told()
    ensures { (a b : SessionValue) (lines : List (List ℕ)) → ReplyAlike a b lines }
{}
