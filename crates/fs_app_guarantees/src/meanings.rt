//! What answers mean, over the bytes of a test in print and in the words of the model's chapter: no fault, no limit, no
//! candidate and no certificate. Each law is said twice: of the command over these bytes, and of the command over a
//! file of which `place` prints them.

ghost use Rattle.std.specs.Prelude.{◌≡◌, ◌↔◌, ◌⊎◌, ◌++◌, ℕ, Bool, false, Option, None, List, []};
ghost use Rattle.fs_kinds.specs.Placements.{PriceTable};
ghost use Rattle.fs_model.specs.declared.test.Test.{Test};
ghost use Rattle.fs_model.specs.Allows.{full_fences};
ghost use Rattle.fs_model.specs.Executions.{Outcome};
ghost use Rattle.fs_model.specs.OfTests.{program_of, outcome_of};
ghost use Rattle.fs_model.specs.Printed.{printed};
ghost use Rattle.fs_model.specs.Reasons.{IsYes};
ghost use Rattle.fs_model.specs.Runs.{Program};
ghost use Rattle.fs_model.specs.Test.{IsTest};
ghost use Rattle.fs_model.specs.Witness.{Witness};
ghost use Rattle.fs_cert_evidence.specs.Certificate.{Certificate, Version};
ghost use Rattle.fs_cert_evidence.specs.CertificateFile.{IsCertificateFile, version_number};
ghost use Rattle.fs_app_io.specs.declared.status.Status.{Status};
ghost use Rattle.fs_app_io.specs.declared.status.Status.TheVariants.{Denied, Success};
ghost use Rattle.fs_app_io.specs.Status.{code};
ghost use Rattle.fs_app_place_and_order.specs.Place.{IsFencedText};
ghost use Rattle.fs_app_test.specs.declared.said.Kind.{Kind};
ghost use Rattle.fs_app_solve_and_check.specs.Solve.{IsSolved};
ghost use Rattle.fs_app_test.specs.Report.{kind_text};
ghost use Rattle.fs_app_test.specs.Verdicts.{IsTested};
ghost use Rattle.fs_app_states.specs.Shown.{IsStatesText};
ghost use Rattle.fs_app_solve_and_check.specs.Check.{IsChecked, yes_line};
ghost use Rattle.fs_app_guarantees.specs.Checked.{IsBestAnswer};
ghost use Rattle.fs_app_guarantees.specs.Headline.{CheapestRulesOut, NothingRulesOut};
ghost use Rattle.fs_app_guarantees.specs.Meanings.{Accepts, ShowsOutcome, SolveIsTrue, Solves, StatesAreTrue};
ghost use Rattle.fs_app_guarantees.specs.Meanings.{TestIsTrue, YesIsTrue};
ghost use Rattle.fs_app_guarantees.specs.Print.{print, IsPrintable};

/// A law: what `place` prints of a test is the print of its program and outcome, and each test can be printed so; a
/// print is that of one program and one outcome alone. So a reader who sees one has these, and need not know how files
/// are read.
pub fn print_says_one_program()
    ensures shown { (t : Test) → printed t ≡ print t.name (program_of t) (outcome_of t) }
    ensures printable { (t : Test) → IsTest t ↔ IsPrintable t.name (program_of t) (outcome_of t) }
    ensures once { (name other : List ℕ) (t u : Program) (o p : Outcome) → IsPrintable name t o → IsPrintable other u p
        → print name t o ≡ print other u p → (t ≡ u) × (o ≡ p) }
{}

/// A law, the promise of `solve`. Where it answers of a program in print, and of prices, then with status 0 what it
/// prints is the cheapest placement with its cost, and of several the first: with its fences as instructions no
/// execution shows the outcome, and with any better ones some execution does. With status 1 it prints `none`, and
/// whatever fences stand in the slots, some execution shows the outcome; the line below gives one with `rw,rw` in each
/// of them. It answers with no other status.
pub fn solve_is_true()
    ensures printed { (test prices text : List ℕ) (status : Status) → IsSolved test prices text status
        → SolveIsTrue test prices text (code status) }
    ensures placed { (file test prices text : List ℕ) (status : Status) → IsFencedText file None [] test
        → IsSolved file prices text status → SolveIsTrue test prices text (code status) }
{}

/// A law: of each test and prices that is what the headline says of an answer, no less and no more, but that the
/// headline says besides that the test's runs can be listed; and so it is of a yes of `check`. `order` says yes to a
/// witness, with `rw,rw` in every slot, exactly where it gives an execution as the line beside `none` does.
pub fn chapter_says_the_headline()
    ensures answers { (t : Test) (table : PriceTable) (text : List ℕ) (status : Status) → IsTest t
        → Solves (program_of t) (outcome_of t) table text (code status)
        ↔ (((status ≡ Success) × CheapestRulesOut t table text) ⊎ ((status ≡ Denied) × NothingRulesOut t text)) }
    ensures yes { (t : Test) (table : PriceTable) (text : List ℕ) (version : Version) → IsTest t
        → Accepts (version_number version) (program_of t) (outcome_of t) table text
        ↔ ((below : List ℕ) × (text ≡ yes_line ++ below)
        × (IsBestAnswer version t table below ⊎ NothingRulesOut t below)) }
    ensures witness { (t : Test) (w : Witness)
        → ShowsOutcome (program_of t) (outcome_of t) w ↔ IsYes t (full_fences t) w }
{}

/// A law, the promise of `check`. Where it says `yes` of a program in print, of prices and of a certificate, what it
/// prints below means what the same lines of `solve` do. With a certificate of version 1 fences may be such that they
/// rule the outcome out and none that cost less do.
pub fn check_is_true()
    ensures printed { (test prices certificate text : List ℕ) (c : Certificate)
        → IsChecked test prices certificate text Success → IsCertificateFile certificate c
        → YesIsTrue (version_number c.version) test prices text }
    ensures placed { (file test prices certificate text : List ℕ) (c : Certificate) → IsFencedText file None [] test
        → IsChecked file prices certificate text Success → IsCertificateFile certificate c
        → YesIsTrue (version_number c.version) test prices text }
{}

/// A law, the promise of `test`. Where it says `allowed` of a program in print, some execution shows the outcome; where
/// it says `forbidden` or `vacuous`, none does.
pub fn test_is_true()
    ensures printed { (test why : List ℕ) (said : Kind) (witness : Option Witness) → IsTested test said why witness
        → TestIsTrue test (kind_text said) }
    ensures placed { (file test why : List ℕ) (said : Kind) (witness : Option Witness) → IsFencedText file None [] test
        → IsTested file said why witness → TestIsTrue test (kind_text said) }
{}

/// A law, the promise of `states` without `--witnesses` and `--json`. Where it answers, it prints of a program in print
/// all states in which executions end, at some places, each once and no other. With FENCE words it is the program that
/// `place` prints with the same words.
pub fn states_are_true()
    ensures printed { (test text : List ℕ) (all : Bool)
        → IsStatesText test [] (record { all = all; witnesses = false; json = false; guarded = false }) text → StatesAreTrue test text }
    ensures placed { (file test text : List ℕ) (words : List (List ℕ)) (all : Bool) → IsFencedText file None words test
        → IsStatesText file words (record { all = all; witnesses = false; json = false; guarded = false }) text
        → StatesAreTrue test text }
{}
