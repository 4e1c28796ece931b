//! Laws of cuts, over the definitions alone: each is a function that does nothing, whose contract is the law.
ghost use Rattle.std.specs.Prelude.{ℕ, ◌≡◌, ◌<◌, ◌↔◌, true, List, ◌∷◌, length, take, drop};
ghost use Rattle.shared_words.specs.Lists.{has};
ghost use Rattle.cover_problem.specs.Problem.{ProblemValue};
ghost use Rattle.x_steps.specs.StateValue.{StateValue};
ghost use Rattle.x_steps.specs.Steps.{Fits};
ghost use Rattle.x_steps.specs.Order.{PathLess};
ghost use Rattle.x_branches.specs.Cut.{choices, cut_state, IsCut};
ghost use Rattle.x_branches.specs.RunOrder.{ComesBefore, comes_before};
ghost use Rattle.x_branches.specs.Untried.{untried, remaining_above, with_choice, IsUntried};

/// The test of two fitting states says which comes first.
pub fn test_is_order()
    ensures { (p : ProblemValue) (s t : StateValue) → Fits p s → Fits p t →
        ((comes_before p s t ≡ true) ↔ ComesBefore p s t) }
{}

/// Cuts come on the run in path order.
pub fn cuts_in_order()
    ensures { (p : ProblemValue) (q r : List ℕ) → IsCut p q → IsCut p r →
        (ComesBefore p (cut_state q) (cut_state r) ↔ PathLess q r) }
{}

/// What is untried at a state names cuts, which come later on the run, and before the end.
pub fn untried_is_later()
    ensures cut { (p : ProblemValue) (s end : StateValue) → Fits p s → Fits p end → (level k : ℕ) →
        has (untried p end level s) k ≡ true → IsCut p (with_choice s level k) }
    ensures later { (p : ProblemValue) (s end : StateValue) → Fits p s → Fits p end →
        (level k : ℕ) →
        has (untried p end level s) k ≡ true → ComesBefore p s (cut_state (with_choice s level k)) }
    ensures before_end { (p : ProblemValue) (s end : StateValue) → Fits p s → Fits p end →
        (level k : ℕ) →
        has (untried p end level s) k ≡ true →
        ComesBefore p (cut_state (with_choice s level k)) end }
{}

/// At a level where a state has a choice, each cut that comes later and before the end is untried; and the cut of each option
/// left there above the choice comes later.
pub fn untried_is_all()
    ensures all { (p : ProblemValue) (s end : StateValue) → Fits p s → Fits p end → (level k : ℕ) →
        level < length (choices s) → IsUntried p s end (with_choice s level k) →
        has (untried p end level s) k ≡ true }
    ensures reached { (p : ProblemValue) (s : StateValue) → Fits p s →
        (level o k : ℕ) (more : List ℕ) →
        drop level (choices s) ≡ o ∷ more →
        has (remaining_above p (take level (choices s)) o) k ≡ true →
        ComesBefore p s (cut_state (with_choice s level k)) }
{}
