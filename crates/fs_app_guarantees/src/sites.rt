//! What an answer over sites means.

ghost use Rattle.std.specs.Prelude.{Bool, ℕ, List};
ghost use Rattle.fs_app_io.specs.declared.status.Status.{Status};
ghost use Rattle.fs_sites.specs.Answers.{IsAnswer};
ghost use Rattle.fs_sites.specs.declared.answer.Answer.{Answer};
ghost use Rattle.fs_sites.specs.Questions.{Question};
ghost use Rattle.fs_app_sites.specs.declared.content.Tests.{Tests};
ghost use Rattle.fs_app_sites.specs.Sites.{names_of, question_of};
ghost use Rattle.fs_app_sites.specs.Solved.{IsSolved};
ghost use Rattle.fs_app_guarantees.specs.Sites.{IsTrueOfSites};

/// A law, the promise of `solve --sites`. What it answers of tests and sites is so of their programs: with its fences as
/// instructions, each at all places of its site, no program shows its outcome, and with any better ones some program
/// does. Beside `none` some program does whatever stands at the sites. So it is of the question that its files ask.
pub fn sites_are_true()
    ensures answers { (q : Question) (a : Answer) → IsAnswer q a → IsTrueOfSites q a }
    ensures files { (is_json : Bool) (tests : Tests) (prices text : List ℕ) (status : Status)
        (solved : IsSolved is_json tests prices text status)
        → IsTrueOfSites (question_of solved.table (names_of solved.contents) solved.contents) solved.found }
{}
