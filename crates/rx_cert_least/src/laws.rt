//! A law of certificates, the contract of a function that does nothing.

ghost use Rattle.std.specs.Prelude.{◌≡◌, ℕ, List};
ghost use Rattle.rx_cert_least.specs.Least.{IsCertificateOf};

use rx_facts::one_typing;

/// A text has one certificate.
pub fn certificates_are_one()
    ensures { (text a b : List ℕ) → IsCertificateOf text a → IsCertificateOf text b → a ≡ b }
{
    one_typing();
}
