//! What can't be said of a job that was done. Each law is a function that does nothing, whose contract is the law.
ghost use Rattle.std.specs.Prelude.{ℕ, ◌≡◌, ◌++◌, false, List, Some, Ok};
ghost use Rattle.byte_streams.specs.Stream.{Stream, IsSound};
ghost use Rattle.lab_pool.specs.declared.fault.PoolFault.TheVariants.{BadWorkerCount};
ghost use Rattle.lab_pool.specs.Pool.{IsBadCount};
ghost use Rattle.debug_script.specs.Refusals.{MayRefuse};
ghost use Rattle.polylab_engine.specs.declared.job.Job.{Job};
ghost use Rattle.polylab_engine.specs.declared.job.Job.TheVariants.{Puzzle};
ghost use Rattle.polylab_engine.specs.declared.job.PuzzleJob.TheVariants.{Solve};
ghost use Rattle.polylab_engine.specs.Ending.{IsProgramRun};
ghost use Rattle.polylab_engine.specs.Outcome.{job_outcome, pool_refusal};
ghost use Rattle.polylab_engine.specs.Refusals.{MayOfInput, TellsWant, pool_faults};

/// A run that ends with status 0 is not of two jobs that make different texts of the input.
pub fn a_run_is_of_one_text()
    ensures { (one other : Job) (r r' w w' f f' : Stream) (input before first second : List ℕ) → r.bytes ≡ Some input
        → w.bytes ≡ Some before → job_outcome one input ≡ Ok first → job_outcome other input ≡ Ok second
        → (first ≡ second → ⊥) → IsProgramRun one r r' w w' f f' 0 → IsProgramRun other r r' w w' f f' 0 → ⊥ }
{}

/// A search by a number of workers that may be is not refused for their number.
pub fn right_numbers_are_not_refused()
    ensures { (count : ℕ) (input f f' : Stream) (before : List ℕ) → (IsBadCount count → ⊥) → f.failed ≡ false → IsSound f f'
        → f.bytes ≡ Some before → f'.bytes ≡ Some (before ++ pool_refusal BadWorkerCount)
        → TellsWant (MayOfInput (pool_faults (Puzzle Solve) (MayRefuse count)) input) f f' → ⊥ }
{}
