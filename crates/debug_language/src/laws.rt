//! Laws of the definitions that the contracts cite: each is a function that does nothing, whose contract is the law.
ghost use Rattle.std.specs.Prelude.{ℕ, ◌≡◌, List, Some, None};
ghost use Rattle.cover_problem.specs.Problem.{ProblemValue};
ghost use Rattle.debug_language.specs.declared.engine.EngineCommand.{EngineCommand};
ghost use Rattle.debug_language.specs.Reader.{command_of, engine_command_of};

/// What the engine does itself is no command of a search.
pub fn engine_lines_are_no_commands()
    ensures { (p : ProblemValue) (line : List ℕ) (command : EngineCommand) → engine_command_of line ≡ Some command →
        command_of p line ≡ None }
{}
