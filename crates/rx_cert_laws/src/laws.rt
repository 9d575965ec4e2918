//! Laws of certificates, each the contract of a function that does nothing.

ghost use Rattle.std.specs.Prelude.{◌≡◌, ◌≢◌, ℕ, ◌<◌, ◌≤◌, List, length, Ok};
ghost use Rattle.rx_core.specs.declared.types.Bound.{Bound};
ghost use Rattle.rx_typed.specs.declared.declarations.Decl.{Decl};
ghost use Rattle.rx_typed_declarations.specs.WellFormed.{WellSigned};
ghost use Rattle.rx_lower_walks.specs.Text.{actions_of};
ghost use Rattle.rx_lower_lifetimes.specs.Lowered.{lifetimes};
ghost use Rattle.rx_lower.specs.Functions.{function};
ghost use Rattle.rx_region_outlives.specs.Implied.{HasPair};
ghost use Rattle.rx_region.specs.Constraints.{imposed};
ghost use Rattle.rx_typeck_typed.specs.declared.typed.TypedFn.{TypedFn as TypedFunction};
ghost use Rattle.rx_facts.specs.Functions.{sites_of};
ghost use Rattle.rx_check.specs.Contexts.{context_of};
ghost use Rattle.rx_cert.specs.Verified.{IsVerified, VerifyCauses};
ghost use Rattle.rx_cert.specs.declared.fault.VerifyFault.{VerifyFault as Refusal};
ghost use Rattle.rx_cert.specs.declared.fault.VerifyFault.TheVariants as refusal;
ghost use Rattle.rx_cert_least.specs.Certified.{most_bytes, Answers, CertifyCauses};
ghost use Rattle.rx_cert_least.specs.Least.{IsCertificateOf};
ghost use Rattle.rx_cert_least.specs.declared.fault.CertifyFault.{CertifyFault as Fault};
ghost use Rattle.rx_cert_least.specs.declared.fault.CertifyFault.TheVariants as fault;

use rx_cert::verified_or_refused;
use rx_cert_least::certificates_are_one;
use rx_check::passed_or_faulty;
use rx_parse::parsed_programs_are_numbered;
use rx_typeck_typed::signatures_are_well_formed;

/// Where any lifetime of a function is counted, those of the pairs that its actions impose are.
pub fn imposed_lifetimes_are_counted()
    ensures { (D : List Decl) (P : ℕ → List Bound) (f : TypedFunction) → WellSigned D → 0 < (lifetimes (function D f)).regions
        → (l k : ℕ) → HasPair (imposed (context_of D P f) (actions_of (sites_of f))) l k
        → (l < (lifetimes (function D f)).regions) × (k < (lifetimes (function D f)).regions) }
{}

/// The certificate of a text is verified, where the text and the certificate are within the limits.
pub fn certified_is_verified()
    ensures { (text bytes : List ℕ) → length text ≤ 1048576 → length bytes ≤ most_bytes → IsCertificateOf text bytes → IsVerified bytes }
{
    parsed_programs_are_numbered();
    signatures_are_well_formed();
}

/// What `certify` answers of a text is verified, and `verify` refuses it for want of memory alone.
pub fn certify_is_verified()
    ensures verified { (text bytes : List ℕ) → length text ≤ 1048576 → Answers text (Ok bytes) → IsVerified bytes }
    ensures accepted { (text bytes : List ℕ) (e : Refusal) → length text ≤ 1048576 → Answers text (Ok bytes) → VerifyCauses e bytes → e ≡ refusal.OutOfMemory }
{
    certified_is_verified();
    verified_or_refused();
}

/// A text with a certificate within the limit has no cause to get none but want of memory: so each fault of `certify` comes exactly where
/// it is true.
pub fn certified_or_refused()
    ensures { (text bytes : List ℕ) (e : Fault) → e ≢ fault.OutOfMemory → length bytes ≤ most_bytes → IsCertificateOf text bytes → CertifyCauses e text → ⊥ }
{
    certificates_are_one();
    passed_or_faulty();
}
