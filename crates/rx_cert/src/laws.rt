//! Laws of certificates, each the contract of a function that does nothing.

ghost use Rattle.std.specs.Prelude.{◌≢◌, ℕ, List};
ghost use Rattle.rx_tree.specs.Plain.{ProgramTree};
ghost use Rattle.rx_parse_grammar.specs.grammar.Items.{Parses};
ghost use Rattle.rx_check.specs.Passes.{Accepted};
ghost use Rattle.rx_cert_lines.specs.Certificates.{IsCertificate};
ghost use Rattle.rx_cert_lines.specs.declared.line.Line.{Line};
ghost use Rattle.rx_cert.specs.Verified.{IsVerified, VerifyCauses};
ghost use Rattle.rx_cert.specs.Verdicts.{AreOne};
ghost use Rattle.rx_cert.specs.declared.fault.VerifyFault.{VerifyFault as Fault};
ghost use Rattle.rx_cert.specs.declared.fault.VerifyFault.TheVariants as fault;

use rx_cert_lines::misread_bytes_are_no_certificate;
use rx_check::{causes_are_one, passed_or_faulty};
use rx_facts::one_typing;

/// Where bytes are verified, the text behind their line `text` is accepted, whoever made them.
pub fn verified_is_accepted()
    ensures { (bytes : List ℕ) → IsVerified bytes → (ls : List Line) (text : List ℕ) → IsCertificate ls text bytes → (p : ProgramTree) × Parses text p × Accepted p }
{}

/// Bytes that are verified have no cause of a refusal: so each fault of `verify` comes exactly where it is true, unless memory runs out.
pub fn verified_or_refused()
    ensures { (bytes : List ℕ) (e : Fault) → e ≢ fault.OutOfMemory → IsVerified bytes → VerifyCauses e bytes → ⊥ }
{
    one_typing();
    passed_or_faulty();
    misread_bytes_are_no_certificate();
}

/// Two faults of the same bytes are of one test: those of lines are one line, those of rules one function and rule; those of the text's form
/// are two causes of one text, and those of a pass are of one pass.
pub fn verdicts_are_one()
    ensures { (bytes : List ℕ) (e f : Fault) → e ≢ fault.OutOfMemory → f ≢ fault.OutOfMemory → VerifyCauses e bytes → VerifyCauses f bytes → AreOne e f }
{
    one_typing();
    passed_or_faulty();
    misread_bytes_are_no_certificate();
    causes_are_one();
}
