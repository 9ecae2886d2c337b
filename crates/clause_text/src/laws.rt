// What the definitions of texts mean for whole proofs.

ghost use Rattle.clause_proof.specs.declared.line.Line.{Line};
ghost use Rattle.clause_text.specs.Files.{IsProofRefusedAt, IsProofText, lines_text, proof_text, ProofText};
ghost use Rattle.clause_text.specs.Head.{head_of, head_text, IsHead};
ghost use Rattle.clause_text.specs.Lines.{IsLine, line_of, line_text};
ghost use Rattle.clause_text.specs.declared.head.Head.{Head};
ghost use Rattle.std.specs.List.{AllByRecursion};
ghost use Rattle.std.specs.Prelude.{◌≡◌, ◌++◌, [], Err, List, ℕ};
ghost use Rattle.clause_words.specs.Places.{IsRefusedAt};
ghost use Rattle.clause_words.specs.Reading.{done, Token};
ghost use Rattle.clause_words.specs.Tokens.{spelled, tokens};

/// A text is that of one proof.
pub fn one_proof_law()
    ensures { (p q : ProofText) → IsProofText p → IsProofText q → proof_text p ≡ proof_text q → p ≡ q }
{}

/// First lines that are refused, and a line that is refused after first lines and lines, are the first refusal of the whole text.
pub fn refused_law()
    ensures head { (ts : List Token) (n : ℕ) → head_of ts ≡ Err n → IsProofRefusedAt ts n }
    ensures line { (h : Head) (ls : List Line) (rest : List Token) (n : ℕ) → IsHead h → AllByRecursion IsLine ls → (rest ≡ [] → ⊥) → line_of rest ≡ Err n → IsProofRefusedAt (head_text h ++ (lines_text ls ++ rest)) n }
{}

/// A line is read exactly where its text comes; a refusal is at the first token with which no line's text goes on.
pub fn line_law()
    ensures found { (ts : List Token) (line : Line) (rest : List Token) → line_of ts ≡ done line rest → IsLine line × (ts ≡ line_text line ++ rest) }
    ensures again { (line : Line) (rest : List Token) → IsLine line → line_of (line_text line ++ rest) ≡ done line rest }
    ensures first { (ts : List Token) (n : ℕ) → line_of ts ≡ Err n → IsRefusedAt IsLine line_text ts n }
{}

/// The same for the first lines.
pub fn head_law()
    ensures found { (ts : List Token) (head : Head) (rest : List Token) → head_of ts ≡ done head rest → IsHead head × (ts ≡ head_text head ++ rest) }
    ensures again { (head : Head) (rest : List Token) → IsHead head → head_of (head_text head ++ rest) ≡ done head rest }
    ensures first { (ts : List Token) (n : ℕ) → head_of ts ≡ Err n → IsRefusedAt IsHead head_text ts n }
{}

/// The bytes of a line, and of first lines, are read as its tokens, whatever stands after them.
pub fn bytes_law()
    ensures line { (line : Line) (rest : List ℕ) → IsLine line → tokens (spelled (line_text line) ++ rest) ≡ line_text line ++ tokens rest }
    ensures head { (head : Head) (rest : List ℕ) → IsHead head → tokens (spelled (head_text head) ++ rest) ≡ head_text head ++ tokens rest }
{}
