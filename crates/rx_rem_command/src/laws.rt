//! Laws of the tool, each as the contract of a function that does nothing.

ghost use Rattle.std.specs.Prelude.{◌≡◌, ◌≤◌, ◌*◌, ℕ, ℤ, List, [], length, Some, codes};
ghost use Rattle.rx_tree.specs.Plain.{ProgramTree};
ghost use Rattle.rx_parse_grammar.specs.grammar.Items.{Parses};
ghost use Rattle.rx_check.specs.Passes.{Accepted};
ghost use Rattle.rx_cert.specs.Verified.{IsVerified};
ghost use Rattle.rx_cert_least.specs.Least.{IsCertificateOf};
ghost use Rattle.rx_meaning.specs.declared.outcome.Outcome.{Outcome};
ghost use Rattle.rx_meaning.specs.Programs.{UpTo};
ghost use Rattle.rx_engine_extraction.specs.Promise.{Extracts};
ghost use Rattle.rx_rem_generated.specs.Generated.{generated, input, turns, twice};
ghost use Rattle.rx_rem_generated.specs.Summary.{summary};
ghost use Rattle.rx_rem_command.specs.declared.status.Status.{Status};
ghost use Rattle.rx_rem_command.specs.Alike.{AreLines};
ghost use Rattle.rx_rem_command.specs.Defined.{Choices, Defined, IsAccepted, wish, generated_wish};
ghost use Rattle.rx_compact_call.specs.Shortened.{IsShortened};
ghost use Rattle.rx_rem_command.specs.Forms.{Preference, Command, command_of, extracts, checks, certifies, verifies, compacts, runs, generates};
ghost use Rattle.rx_rem_command.specs.RunLines.{end_status, end_line};
ghost use Rattle.rx_engine.specs.Runs.{Does};
ghost use Rattle.rx_rem_command.specs.Replies.{Stream, Replies};
ghost use Rattle.rx_rem_command.specs.Statuses.{Comes, Cause};
ghost use Rattle.rx_rem_command.specs.UpTo.{IsUpTo};

use rx_cert::{verdicts_are_one, verified_or_refused};
use rx_cert_least::certificates_are_one;
use rx_check::{causes_are_one, passed_or_faulty};
use rx_compact_call::short_texts_are_one;
use rx_engine::{
    answers_are_one, answers_run_alike, conditions_are_one, extractions_are_answers, one_outcome,
    refusals_are_one,
};

/// Two defined answers of the same words on the same text have one status and one output. They have one line, but for the places where
/// the tokens of the text stop because of their depth; or each line says a fault of the program, and both are of one pass; or each says
/// a place where the run is not reached, or each a loan that is met. Of bytes that are a certificate two lines that differ are two such lines
/// of its text.
pub fn one_answer()
    ensures { (C : Choices) (words : List (List ℕ)) (text : List ℕ) (s t : Status) (a b c d : List ℕ) → Defined C words text s a b → Defined C words text t c d
        → (s ≡ t) × (a ≡ c) × AreLines C (command_of words) text b d }
{
    passed_or_faulty();
    causes_are_one();
    one_outcome();
    conditions_are_one();
    refusals_are_one();
    answers_are_one();
    certificates_are_one();
    verified_or_refused();
    verdicts_are_one();
    short_texts_are_one();
}

/// A reply has its status for the cause that is told of it; and of a text one status comes at most, but for failures.
pub fn statuses_have_causes()
    ensures cause { (C : Choices) (words : List (List ℕ)) (source source_now out out_now err err_now : Stream) (result : Status)
        → Replies C words source source_now out out_now err err_now result → Cause C words source source_now out out_now err err_now result }
    ensures one { (C : Choices) (command : Command) (text : List ℕ) (s t : Status) → Comes C command text s → Comes C command text t → s ≡ t }
{
    passed_or_faulty();
    conditions_are_one();
    one_outcome();
    certificates_are_one();
    verified_or_refused();
    short_texts_are_one();
}

/// Where each condition of an extraction is met, its text is the defined answer; and an answer is one of such.
pub fn extraction_is_defined()
    ensures answer { (C : Choices) (words : List (List ℕ)) (text name : List ℕ) (start end : ℕ) (w : Preference) → command_of words ≡ Some (extracts name start end w) → length text ≤ 1048576
        → (x : Extracts text (wish C name start end w)) → Defined C words text Status.Done x.case.text [] }
    ensures only { (C : Choices) (words : List (List ℕ)) (text name out err : List ℕ) (start end : ℕ) (w : Preference) → command_of words ≡ Some (extracts name start end w)
        → Defined C words text Status.Done out err → (x : Extracts text (wish C name start end w)) × (out ≡ x.case.text) × (err ≡ []) }
{
    extractions_are_answers();
    answers_run_alike();
}

/// The answer of an extraction is accepted. And the commands that run a text and the answer of an extraction from it reply alike, with
/// each input: with as many turns the answer is up to the text, and the text is up to the answer with twice as many.
pub fn extractions_run_alike()
    ensures accepted { (C : Choices) (words : List (List ℕ)) (text name answer err : List ℕ) (start end : ℕ) (w : Preference) → command_of words ≡ Some (extracts name start end w)
        → Defined C words text Status.Done answer err → IsAccepted answer }
    ensures answer { (C : Choices) (words : List (List ℕ)) (text name answer said : List ℕ) (start end : ℕ) (w : Preference) → command_of words ≡ Some (extracts name start end w)
        → Defined C words text Status.Done answer said
        → (runs_it : List (List ℕ)) (n : ℕ) (input : List ℤ) → command_of runs_it ≡ Some (runs n input) → (s t : Status) (out err printed line : List ℕ)
        → Defined C runs_it answer s out err → Defined C runs_it text t printed line → IsUpTo s out err t printed line }
    ensures text { (C : Choices) (words : List (List ℕ)) (text name answer said : List ℕ) (start end : ℕ) (w : Preference) → command_of words ≡ Some (extracts name start end w)
        → Defined C words text Status.Done answer said
        → (runs_it twice : List (List ℕ)) (n : ℕ) (input : List ℤ) → command_of runs_it ≡ Some (runs n input) → command_of twice ≡ Some (runs (2 * n) input)
        → (s t : Status) (out err printed line : List ℕ) → Defined C runs_it text s out err → Defined C twice answer t printed line → IsUpTo s out err t printed line }
{
    passed_or_faulty();
}

/// Where each condition of the extraction from a text that is made is met, what is told of it and of the text of the extraction, and of
/// what both do, is the defined answer. And an answer is one of such; the run of the text is up to that of the answer, so that both print the
/// same where the text's ends.
pub fn summaries_are_defined()
    ensures answer { (C : Choices) (words : List (List ℕ)) (text : List ℕ) (n : ℕ) → command_of words ≡ Some (generates n) → (x : Extracts (generated n) (generated_wish C n))
        → (p : ProgramTree) → Parses x.case.text p → (o a : Outcome) → Does x.text.program (turns n) (input n) o → Does p (twice n) (input n) a
        → Defined C words text Status.Done (summary (generated n) x.case.text o.printed a.printed) [] }
    ensures only { (C : Choices) (words : List (List ℕ)) (text out err : List ℕ) (n : ℕ) → command_of words ≡ Some (generates n) → Defined C words text Status.Done out err
        → (x : Extracts (generated n) (generated_wish C n)) × (o : Outcome) × (a : Outcome) × (out ≡ summary (generated n) x.case.text o.printed a.printed) × (err ≡ [])
        × Does x.text.program (turns n) (input n) o × UpTo o a }
{
    extractions_are_answers();
    answers_run_alike();
}

/// The defined answer of a check is `accepted` where the text is accepted, and nowhere else.
pub fn acceptance_is_defined()
    ensures accepted { (C : Choices) (words : List (List ℕ)) (text : List ℕ) → command_of words ≡ Some checks → IsAccepted text → Defined C words text Status.Done (codes "accepted\n") [] }
    ensures only { (C : Choices) (words : List (List ℕ)) (text out err : List ℕ) → command_of words ≡ Some checks → Defined C words text Status.Done out err → IsAccepted text }
{}

/// The defined answer of `compact` is the text with a short signature of its function of the name, where the text is accepted and the
/// answer is within the limit, and an answer is one of such.
pub fn short_texts_are_defined()
    ensures answer { (C : Choices) (words : List (List ℕ)) (text name bytes : List ℕ) → command_of words ≡ Some (compacts name) → IsShortened text name bytes → length bytes ≤ 1048576
        → Defined C words text Status.Done bytes [] }
    ensures only { (C : Choices) (words : List (List ℕ)) (text name out err : List ℕ) → command_of words ≡ Some (compacts name) → Defined C words text Status.Done out err
        → IsShortened text name out × (length out ≤ 1048576) × (err ≡ []) }
{}

/// The defined answer of `certify` is the certificate of the text where that is accepted and the certificate is short, and an answer is one of
/// such. That of `verify` is `accepted` where the bytes are a certificate that is good for its text, and nowhere else.
pub fn certificates_are_defined()
    ensures answer { (C : Choices) (words : List (List ℕ)) (text bytes : List ℕ) → command_of words ≡ Some certifies → IsCertificateOf text bytes → length bytes ≤ 16777216
        → Defined C words text Status.Done bytes [] }
    ensures only { (C : Choices) (words : List (List ℕ)) (text out err : List ℕ) → command_of words ≡ Some certifies → Defined C words text Status.Done out err
        → IsCertificateOf text out × (length out ≤ 16777216) × (err ≡ []) }
    ensures good { (C : Choices) (words : List (List ℕ)) (bytes : List ℕ) → command_of words ≡ Some verifies → IsVerified bytes → Defined C words bytes Status.Done (codes "accepted\n") [] }
    ensures verified { (C : Choices) (words : List (List ℕ)) (bytes out err : List ℕ) → command_of words ≡ Some verifies → Defined C words bytes Status.Done out err → IsVerified bytes }
{}

/// The defined answer of a run is what the program does where the text is accepted, and that of a check elsewhere.
pub fn runs_are_defined()
    ensures accepted { (C : Choices) (words : List (List ℕ)) (text : List ℕ) (turns : ℕ) (input : List ℤ) (p : ProgramTree) (o : Outcome) → command_of words ≡ Some (runs turns input)
        → Parses text p → Accepted p → Does p turns input o → Defined C words text (end_status o.end) o.printed (end_line o.end) }
    ensures refused { (C : Choices) (words other : List (List ℕ)) (text out err : List ℕ) (turns : ℕ) (input : List ℤ) → command_of words ≡ Some (runs turns input) → command_of other ≡ Some checks
        → Defined C other text Status.NotAccepted out err → Defined C words text Status.NotAccepted out err }
{}
