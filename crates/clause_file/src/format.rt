// Which files hold a proof in the third format.

ghost use Rattle.clause_file.specs.Answers.{is_clause_text};
ghost use Rattle.std.specs.Prelude.{◌≡◌};

use proof_file::body;

/// Whether the proof in the file is one of the third format: it begins with `princess-proof 3`.
pub fn is_clause_text(file: &[u8]) -> bool
    ensures { result ≡ is_clause_text file.now }
{
    body(file).starts_with(b"princess-proof 3")
}
