//! Laws: bytes tell lines and certificates, each in one way.

ghost use Rattle.std.specs.Prelude.{◌≡◌, ℕ, List};
ghost use Rattle.rx_cert_lines.specs.declared.line.Line.{Line as LineOf};
ghost use Rattle.rx_cert_lines.specs.Lines.{IsLine, line_text};
ghost use Rattle.rx_cert_lines.specs.Certificates as spec;

/// Two lines with the same bytes are one.
pub fn lines_are_unique()
    ensures { (l m : LineOf) → IsLine l → IsLine m → line_text l ≡ line_text m → l ≡ m }
{}

/// Bytes are the certificate of one list of lines and one text at most.
pub fn certificates_are_unique()
    ensures { (ls ms : List LineOf) (t u bytes : List ℕ) → spec.IsCertificate ls t bytes → spec.IsCertificate ms u bytes → (ls ≡ ms) × (t ≡ u) }
{}

/// Bytes stop being a certificate at one line at most.
pub fn misread_lines_are_unique()
    ensures { (bytes : List ℕ) (m n : ℕ) → spec.Misread bytes m → spec.Misread bytes n → m ≡ n }
{}

/// Bytes that are misread are no certificate.
pub fn misread_bytes_are_no_certificate()
    ensures { (ls : List LineOf) (t bytes : List ℕ) (n : ℕ) → spec.Misread bytes n → spec.IsCertificate ls t bytes → ⊥ }
{}
