//! Laws of stretches, of what is listed and of how a run ends, over the definitions alone: each is a function that does nothing, whose
//! contract is the law.
ghost use Rattle.std.specs.Prelude.{ℕ, ◌≡◌, ◌<◌, ◌+◌, ◌^◌, ◌↔◌, Bool, true, false, List, Option, length};
ghost use Rattle.std.specs.Prelude as prelude;
ghost use Rattle.byte_streams.specs.Stream.{Stream, HasFailed};
ghost use Rattle.cover_problem.specs.Problem.{ProblemValue};
ghost use Rattle.poly_texts.specs.Puzzle.{PuzzleValue, IsPuzzle};
ghost use Rattle.poly_place.specs.Packings.{ChoiceValue, IsPacking, problem_fits};
ghost use Rattle.x_steps.specs.Order.{PathsRise};
ghost use Rattle.x_steps.specs.Covers.{AreCovers};
ghost use Rattle.x_snapshot.specs.Snapshot.{IsSnapshot, EachSnapshot};
ghost use Rattle.part_sums.specs.Answers.{HasNumbersOf};
ghost use Rattle.part_sums.specs.Parts.{last_state};
ghost use Rattle.polylab_engine.specs.declared.job.Job.{Job};
ghost use Rattle.polylab_engine.specs.declared.engine.RunEnding.TheVariants.{Written};
ghost use Rattle.polylab_engine.specs.Account.{PassesBlock};
ghost use Rattle.polylab_engine.specs.Added.{report_counts};
ghost use Rattle.polylab_engine.specs.Ending.{IsEnd};
ghost use Rattle.polylab_engine.specs.Further.{ArePackingPaths};
ghost use Rattle.polylab_engine.specs.Listed.{AreAllCovers, AreAllPackings};
ghost use Rattle.polylab_engine.specs.Packing.{Packs};
ghost use Rattle.polylab_engine.specs.Output.{whole_report};
ghost use Rattle.polylab_engine.specs.Stretch.{stretch_report};
ghost use Rattle.polylab_engine.specs.Resumed.{stop_of, report_up_to, IsReadBack};
ghost use Rattle.polylab_engine.specs.Joined.{after_slice, sliced, EachSlicing, SlicesAddUp, SlicesEnd, AddUpToEnd, EachJoin, EachWholeJoin};

/// A run that is cut in slices, each of which begins where the one before wrote its snapshot: the visits of the slices in order are the
/// visits of the stretch from the first one's state to where the last one stopped, and the numbers of visits, steps and levels add up
/// to its own; to those of the whole rest of the branch, where the last one stopped at its end. What a slice writes last is read
/// as the snapshot where it stopped.
pub fn slices_join()
    ensures sum { EachSlicing (λ keeps v mosts. SlicesAddUp keeps v mosts (sliced v mosts).state) }
    ensures whole { EachSlicing (λ keeps v mosts. SlicesEnd v mosts → AddUpToEnd keeps v mosts) }
    ensures snapshot { (most : Option ℕ) → EachSnapshot (λ v. IsSnapshot (after_slice most v)) }
    ensures read { (most : Option ℕ) → EachSnapshot (λ v. IsReadBack (after_slice most v)) }
{}

/// Branches that join, each of which begins where the one before ends: their visits in order are those of the stretch from where the
/// first begins to where the last ends, and the numbers of visits, steps and levels add up to its own; from X1 to Done to those of the
/// whole run, which `cover` reports.
pub fn parts_join()
    ensures sum { EachJoin (λ keeps p s t sum. sum ≡ stretch_report keeps p s t) }
    ensures whole { EachWholeJoin (λ keeps p sum. sum ≡ whole_report keeps p) }
{}

/// A run isn't written where the writer failed at last and not before.
pub fn what_failed_is_not_written()
    ensures { (job : Job) (r r' w w' : Stream) → w.failed ≡ false → HasFailed w' → IsEnd job r r' w w' Written → ⊥ }
{}

/// A number that stays below 2^32 fills no block.
pub fn no_block_is_passed_within_one()
    ensures { (old more : ℕ) → old + more < 2 ^ 32 → PassesBlock old (old + more) → ⊥ }
{}

/// What `resume` tells of a snapshot, up to the end of its branch, has numbers that `join` takes as those of that part.
pub fn resumed_numbers_fit()
    ensures { EachSnapshot (λ v. HasNumbersOf v.state (last_state v)
        (report_counts (report_up_to false v (stop_of prelude.None v)))) }
{}

/// A packing whose symmetries are matrices is one whose symmetries are numbers, and back. Paths that rise and are the exact covers are
/// these in the words of the library, and back. Where lists of choices are all packings, as many paths stand for them.
pub fn listed_words_agree()
    ensures packings { (p : PuzzleValue) (chosen : ChoiceValue → Bool) → IsPacking p chosen ↔ Packs p chosen }
    ensures covers { (p : ProblemValue) (paths : List (List ℕ)) → (PathsRise paths × AreCovers p paths) ↔ AreAllCovers p paths }
    ensures paths { (p : PuzzleValue) (packings : List (List ChoiceValue)) → IsPuzzle p → problem_fits p ≡ true
        → AreAllPackings p packings → (paths : List (List ℕ)) × ArePackingPaths p paths × (length paths ≡ length packings) }
{}
