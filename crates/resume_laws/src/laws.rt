//! Laws of the texts that `resume` reads and writes, over the definitions alone: each is a function that does nothing, whose contract is
//! the law.
ghost use Rattle.std.specs.Prelude.{◌≡◌, ◌++◌, ◌⊎◌, None};
ghost use Rattle.cover_problem.specs.Problem.{ProblemValue, IsProblem};
ghost use Rattle.polylab_engine.specs.Account.{ReportValue};
ghost use Rattle.polylab_engine.specs.Output.{report_text};
ghost use Rattle.polylab_engine.specs.Resumed.{end_text};
ghost use Rattle.resume_laws.specs.ResumedTexts.{report_part, rest_part, IsReportPart, TellsReport, TellsNumbers, IsWritten};
ghost use Rattle.resume_laws.specs.ResumedTexts.{IsInput, IsRest, AllMove, AllList, TellTogether, TellsSteps, whole_text, IsWholeText};
ghost use Rattle.resume_laws.specs.ResumedTexts.{EachOutput, EachAhead, EachWhole, EachCover};

/// What `resume` writes of a text is the lines of a report, none of which begins with `polysnap` or is `end`, and then the rest: `end`, or
/// a text within the limit that `resume` takes, whatever is asked of it. Where no number of steps is asked for it is `end`.
pub fn output_has_two_parts()
    ensures parts { EachOutput (λ a output. output ≡ report_part output ++ rest_part output) }
    ensures report { EachOutput (λ a output. (r : ReportValue) × TellsReport output r) }
    ensures lines { EachOutput (λ a output. IsReportPart (report_part output)) }
    ensures rest { EachOutput (λ a output. IsRest (rest_part output)) }
    ensures end { EachOutput (λ a output. a.steps ≡ None → rest_part output ≡ end_text) }
{}

/// The lines of a report tell it: reports that are told by the same lines are the same, where no number has more than 64 digits.
pub fn report_is_told_once()
    ensures { (r q : ReportValue) → IsWritten r → IsWritten q → report_text r ≡ report_text q → r ≡ q }
{}

/// Runs from a text, each on the rest of what the one before wrote and with a step asked for at least, come to the end: unless `end` is
/// left, they are no more than the steps that one run to the end tells.
pub fn runs_come_to_the_end()
    ensures { EachAhead (λ asked n rest whole. AllMove asked → (rest ≡ end_text) ⊎ TellsSteps n whole) }
{}

/// Of runs from a text to the end, each on the rest of what the one before wrote, the numbers of visits, steps and levels add up to those
/// that one run to the end tells of the first text, and for the text of a whole problem to those that `cover` tells. Where all list the
/// visits, so do these, in order.
pub fn runs_add_up()
    ensures numbers { EachWhole (λ asked outputs whole. TellTogether outputs (TellsNumbers whole)) }
    ensures visits { EachWhole (λ asked outputs whole. AllList asked → TellTogether outputs (TellsReport whole)) }
    ensures input { (p : ProblemValue) → IsProblem p → IsInput (whole_text p) }
    ensures whole { (p : ProblemValue) → IsProblem p → IsWholeText p (whole_text p) }
    ensures cover { EachCover (λ asked outputs covers. TellTogether outputs (TellsNumbers covers)) }
    ensures cover_visits { EachCover (λ asked outputs covers. AllList asked → TellTogether outputs (TellsReport covers)) }
{}
