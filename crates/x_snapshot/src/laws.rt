//! Laws of snapshots' texts, over the definitions alone: each is a function that does nothing, whose contract is the law.
ghost use Rattle.std.specs.Prelude.{ℕ, ◌≡◌, ◌↔◌, true, List};
ghost use Rattle.cover_problem.specs.Problem.{ProblemValue, IsProblem};
ghost use Rattle.cover_problem.specs.Path.{IsValid};
ghost use Rattle.x_steps.specs.StateValue.{StateValue};
ghost use Rattle.x_steps.specs.Steps.{Fits};
ghost use Rattle.x_texts.specs.Breaks.{are_breaks};
ghost use Rattle.x_snapshot.specs.Snapshot.{SnapshotValue, EachSnapshot, StandsOnRun, StandsInside};
ghost use Rattle.x_snapshot.specs.Judged.{is_valid, is_fit, is_on_run, is_inside};
ghost use Rattle.x_snapshot.specs.Writer.{snapshot_text};
ghost use Rattle.x_snapshot.specs.Reader.{Says};

/// Each snapshot has one spelling: a text whose lines say parts is the text that is written of them, so two texts that say the
/// same are the same. What they say is a problem, with breakpoints that can be met, each once.
pub fn text_has_one_spelling()
    ensures written { (text : List ℕ) (v : SnapshotValue) → Says text v → text ≡ snapshot_text v }
    ensures same { (s t : List ℕ) (v : SnapshotValue) → Says s v → Says t v → s ≡ t }
    ensures problem { (text : List ℕ) (v : SnapshotValue) → Says text v → IsProblem v.problem }
    ensures breaks { (text : List ℕ) (v : SnapshotValue) → Says text v → are_breaks v.problem v.breaks ≡ true }
{}

/// What is written of a snapshot says that snapshot.
pub fn written_is_read()
    ensures { EachSnapshot (λ v. Says (snapshot_text v) v) }
{}

/// The tests by which a text is judged are true of exactly what the facts say of a path, of a state, and of a snapshot's cuts and state:
/// that they are on the problem's run and, where they are, that they are in their order.
pub fn tests_tell_the_facts()
    ensures path { (p : ProblemValue) (path : List ℕ) → (is_valid p path ≡ true) ↔ IsValid p path }
    ensures state { (p : ProblemValue) (s : StateValue) → (is_fit p s ≡ true) ↔ Fits p s }
    ensures on_run { (v : SnapshotValue) → (is_on_run v ≡ true) ↔ StandsOnRun v }
    ensures inside { (v : SnapshotValue) → StandsOnRun v → ((is_inside v ≡ true) ↔ StandsInside v) }
{}
