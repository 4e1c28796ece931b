//! Laws of what lies below a path, over the definitions alone: each is a function that does nothing, whose contract is the law.
ghost use Rattle.std.specs.Prelude.{ℕ, zero, ◌≡◌, ◌+◌, ◌*◌, ◌<◌, List, [], length, map, sum, sum_by};
ghost use Rattle.shared_words.specs.Lists.{numbers};
ghost use Rattle.cover_problem.specs.Problem.{ProblemValue, IsProblem};
ghost use Rattle.cover_problem.specs.Covering.{active};
ghost use Rattle.cover_problem.specs.Path.{taken, IsValid, covered_by};
ghost use Rattle.cover_problem.specs.Table.{IsCoveredList};
ghost use Rattle.x_steps.specs.declared.state.Label.TheVariants.{X2, X8};
ghost use Rattle.x_steps.specs.declared.state.Cursor.TheVariants.{None};
ghost use Rattle.x_steps.specs.StateValue.{StateValue, at, start, done};
ghost use Rattle.x_steps.specs.Steps.{Fits};
ghost use Rattle.x_steps.specs.Run.{ReachesIn, level_count, levels, steps_between, states_between, visits_between};
ghost use Rattle.x_steps.specs.Levels.{without_last_zeros, trimmed_levels};
ghost use Rattle.kept_counts.specs.Owed.{owed};
ghost use Rattle.kept_counts.specs.Below.{tried_options, states_below, visits_below, CoverTheSame, CoverTheSameOf};

/// Where the same items are covered, the same lies below.
pub fn counts_hang_on_what_is_covered()
    ensures visits { (p : ProblemValue) (c d : List ℕ) → CoverTheSame c d → visits_below p c ≡ visits_below p d }
    ensures states { (p : ProblemValue) (k : ℕ) (c d : List ℕ) → CoverTheSame c d → states_below p k c ≡ states_below p k d }
    ensures items { (p : ProblemValue) (c d : List ℕ) → IsCoveredList p c → IsCoveredList p d
        → CoverTheSameOf (length p.names) c d → CoverTheSame c d }
{}

/// The visits are one where no item is active, and else those below each choice.
pub fn visits_are_those_below_the_choices()
    ensures none { (p : ProblemValue) (c : List ℕ) → length (active p c) ≡ 0 → visits_below p c ≡ 1 }
    ensures some { (p : ProblemValue) (c : List ℕ) → 0 < length (active p c)
        → visits_below p c ≡ sum_by (λ o. visits_below p (taken p c o)) (tried_options p c) }
{}

/// Between the X2 and the X8 of a path lies what is counted below it.
pub fn a_path_has_what_is_counted_below()
    ensures visits { (p : ProblemValue) (path : List ℕ) → IsValid p path
        → length (visits_between p (at X2 path None) (at X8 path None)) ≡ visits_below p (covered_by p path) }
    ensures levels { (p : ProblemValue) (path : List ℕ) (k : ℕ) → IsValid p path
        → level_count (states_between p (at X2 path None) (at X8 path None)) (length path + k) ≡ states_below p k (covered_by p path) }
    ensures above { (p : ProblemValue) (path : List ℕ) (level : ℕ) → IsValid p path → level < length path
        → level_count (states_between p (at X2 path None) (at X8 path None)) level ≡ 0 }
{}

/// The whole run has the visits and the levels that are counted below the empty path, and its steps follow from them.
pub fn the_run_has_what_is_counted()
    ensures visits { (p : ProblemValue) → length (visits_between p start done) ≡ visits_below p [] }
    ensures levels { (p : ProblemValue)
        → levels p start done ≡ map (λ k. states_below p k []) (numbers (length p.names + 1) 0) }
    ensures trimmed { (p : ProblemValue)
        → trimmed_levels p start done ≡ without_last_zeros (map (λ k. states_below p k []) (numbers (length p.names + 1) 0)) }
    ensures steps { (p : ProblemValue) → IsProblem p
        → steps_between p start done + 1 + 4 * visits_below p [] ≡ 8 * sum (levels p start done) }
{}

/// A stretch takes eight steps for each X2 state, less four for each visit, with what is owed where it begins, and less what is owed where
/// it ends.
pub fn steps_follow_from_paths_and_visits()
    ensures { (p : ProblemValue) (s t : StateValue) (n : ℕ) → IsProblem p → Fits p s → ReachesIn p s t n
        → n + owed t + 4 * length (visits_between p s t) ≡ 8 * sum (levels p s t) + owed s }
{}
