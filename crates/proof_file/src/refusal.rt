// Why a file holds no proof, and where.

ghost use Rattle.proof_file.specs.Body.{body};
ghost use Rattle.proof_file.specs.Refused.{RefusesProofFile};
ghost use Rattle.std.specs.Prelude.{◌≤◌, length};
ghost use Rattle.proof_grammar.specs.Refusals.{RefusesText};

use linear_term::Memory;
use proof_grammar::Fault;

/// Why a file holds no proof. The number is the place of the refusal in the file.
#[derive(Clone, Copy)]
pub enum ProofRefusal {
    /// The token that begins there cannot stand there; at the file's end, a token is missing.
    Syntax(u64),
    /// The token that begins there would open level 2,001.
    Deep(u64),
    Memory,
}

impl From<Memory> for ProofRefusal {
    ghost use Rattle.proof_file.specs.declared.refusal.ProofRefusal.TheVariants as r;
    ghost use Rattle.std.specs.Prelude.{◌≡◌};

    ghost from_gives = { λ _ refusal. refusal ≡ r.Memory };

    fn from(_error: Memory) -> ProofRefusal {
        ProofRefusal::Memory
    }
}

/// The refusal of the part that holds the proof, with its place in the whole file.
pub(crate) fn in_file(bytes: &[u8], fault: Fault) -> ProofRefusal
    requires refused { RefusesText (body bytes.now) fault }
    requires within { length (body bytes.now) ≤ length bytes.now }
    ensures { RefusesProofFile bytes.now result }
{
    match fault {
        Fault::Syntax(left) => ProofRefusal::Syntax((bytes.len() - left) as u64),
        Fault::Deep(left) => ProofRefusal::Deep((bytes.len() - left) as u64),
        Fault::Memory => ProofRefusal::Memory,
    }
}
