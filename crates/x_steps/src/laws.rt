//! Laws of the run, over the definitions alone: each is a function that does nothing, whose contract is the law.
ghost use Rattle.std.specs.Prelude.{ℕ, ◌≡◌, ◌<◌, ◌+◌, ◌*◌, ◌++◌, ◌∷◌, [], ◌⊎◌, List, length, map, replicate};
ghost use Rattle.shared_words.specs.Lists.{numbers};
ghost use Rattle.cover_problem.specs.Problem.{ProblemValue, IsProblem};
ghost use Rattle.x_steps.specs.StateValue.{StateValue, start, done};
ghost use Rattle.x_steps.specs.Steps.{Fits, IsBefore};
ghost use Rattle.x_steps.specs.Run.{IsRun, ReachesIn, after, states, visits, entries, steps_between, states_between, visits_between};
ghost use Rattle.x_steps.specs.Levels.{without_last_zeros};
ghost use Rattle.x_steps.specs.Order.{PathsRise};
ghost use Rattle.x_steps.specs.Covers.{AreCovers};

/// Each state on the run but X1 has exactly one predecessor, and X1 has none.
pub fn one_predecessor()
    ensures none { (p : ProblemValue) (u : StateValue) → IsBefore p u start → ⊥ }
    ensures one { (p : ProblemValue) (s : StateValue) → Fits p s → (s ≡ start → ⊥) →
        (t : StateValue) × IsBefore p t s × ((u : StateValue) → IsBefore p u s → u ≡ t) }
{}

/// The run reaches Done, meets exactly the fitting states, and none twice; `steps_between` is its number of steps.
pub fn run_is_fitting()
    ensures { (p : ProblemValue) → IsRun p (steps_between p start done) }
{}

/// The visits rise in path order.
pub fn visits_rise()
    ensures { (p : ProblemValue) → PathsRise (visits_between p start done) }
{}

/// The visits are, as sets, the exact covers, each once.
pub fn visits_are_covers()
    ensures { (p : ProblemValue) → IsProblem p → AreCovers p (visits_between p start done) }
{}

/// Eight steps for each entry of X2 that finds an active item, and four for each visit, but one.
pub fn run_length()
    ensures { (p : ProblemValue) → let run = states p (steps_between p start done) start in
        steps_between p start done + 1 ≡ 8 * entries p run + 4 * length (visits p run) }
{}

/// Of two fitting states one is reached from the other, in as many steps as `steps_between` tells; the other way it tells 0.
pub fn steps_lie_between()
    ensures reached { (p : ProblemValue) (s t : StateValue) (n : ℕ) → Fits p s → ReachesIn p s t n →
        steps_between p s t ≡ n }
    ensures none_back { (p : ProblemValue) (s t : StateValue) (n : ℕ) → Fits p s → ReachesIn p s t n →
        steps_between p t s ≡ 0 }
    ensures one_way { (p : ProblemValue) (s t : StateValue) → Fits p s → Fits p t →
        ReachesIn p s t (steps_between p s t) ⊎ ReachesIn p t s (steps_between p t s) }
{}

/// The states between two states are those that the run meets on its way from the one to the other, and so are their visits:
/// the whole run is what comes before, what lies between, and what comes after.
pub fn stretches_are_of_the_run()
    ensures each { (p : ProblemValue) (s t : StateValue) →
        states_between p s t ≡ map (λ i. after p i s) (numbers (steps_between p s t) 0) }
    ensures run { (p : ProblemValue) (s t : StateValue) (n : ℕ) → Fits p s → ReachesIn p s t n →
        states_between p start done ≡ states_between p start s ++ states_between p s t ++ states_between p t done }
    ensures visits { (p : ProblemValue) (s t : StateValue) (n : ℕ) → Fits p s → ReachesIn p s t n →
        visits_between p start done ≡ visits_between p start s ++ visits_between p s t ++ visits_between p t done }
{}

/// Of a list of counts the zeros at its end are cut off, all of them and nothing else.
pub fn levels_are_trimmed()
    ensures zeros { (xs : List ℕ) → (n : ℕ) × (xs ≡ without_last_zeros xs ++ replicate n 0) }
    ensures last { (xs ys : List ℕ) (y : ℕ) → without_last_zeros xs ≡ ys ++ y ∷ [] → 0 < y }
{}
