// What the definition of tokens means for bytes.

ghost use Rattle.proof_tokens.specs.Lines.{AreValues, charges_text, head_text, IsCharges, IsFormat, IsPart, IsSaidLog, log_text, none_text, part_text, parts_text, said_text, solution_text, use_text, values_text};
ghost use Rattle.proof_tokens.specs.Reading.{Cuts, IsRefusedAt};
ghost use Rattle.proof_tokens.specs.Spellings.{AreSpaced, IsEntry, IsGood, spelled};
ghost use Rattle.proof_tokens.specs.declared.part_lines.SaidLog.{SaidLog};
ghost use Rattle.proof_tokens.specs.declared.tokens.Token.{Token};
ghost use Rattle.proof_tokens.specs.declared.tokens.Token.TheVariants as t;
ghost use Rattle.base_budget.specs.declared.log.Entry.{Entry};
ghost use Rattle.std.specs.List.{AllByRecursion};
ghost use Rattle.std.specs.Prelude.{◌≡◌, ◌<◌, ◌^◌, ◌∷◌, ◌++◌, List, ℕ, ℤ};

/// Bytes that begin with tokens of texts begin with the spellings of these, one after another. So a token has one
/// spelling, and what is read is written in one way.
pub fn spelling_law()
    ensures { (xs : List Token) (bytes rest : List ℕ) → AllByRecursion IsGood xs → Cuts xs bytes rest → bytes ≡ spelled xs ++ rest }
{}

/// What bytes begin with after the word of a line with a log, in a text of this many parts, is the only such log, and it is not
/// refused.
pub fn said_law()
    ensures one { (parts : ℕ) (u v : SaidLog) (bytes r s : List ℕ) → IsSaidLog parts u → IsSaidLog parts v → Cuts (said_text u) bytes r → Cuts (said_text v) bytes s → (u ≡ v) × (r ≡ s) }
    ensures taken { (parts : ℕ) (u : SaidLog) (bytes rest : List ℕ) (left : ℕ) → IsSaidLog parts u → Cuts (said_text u) bytes rest → IsRefusedAt (IsSaidLog parts) said_text bytes left → ⊥ }
{}

/// A line `part` that bytes begin with is the only one, and it is not refused.
pub fn part_law()
    ensures one { (es fs : List Entry) (bytes r s : List ℕ) → IsPart es → IsPart fs → Cuts (part_text es) bytes r → Cuts (part_text fs) bytes s → (es ≡ fs) × (r ≡ s) }
    ensures taken { (es : List Entry) (bytes rest : List ℕ) (left : ℕ) → IsPart es → Cuts (part_text es) bytes rest → IsRefusedAt IsPart part_text bytes left → ⊥ }
{}

/// A line `charges` that bytes begin with is the only one, and it is not refused.
pub fn charges_law()
    ensures one { (n m : ℕ) (bytes r s : List ℕ) → IsCharges n → IsCharges m → Cuts (charges_text n) bytes r → Cuts (charges_text m) bytes s → (n ≡ m) × (r ≡ s) }
    ensures taken { (n : ℕ) (bytes rest : List ℕ) (left : ℕ) → IsCharges n → Cuts (charges_text n) bytes rest → IsRefusedAt IsCharges charges_text bytes left → ⊥ }
{}

/// A first line that bytes begin with is the only one, and it is not refused.
pub fn head_law()
    ensures one { (n m : ℕ) (bytes r s : List ℕ) → IsFormat n → IsFormat m → Cuts (head_text n) bytes r → Cuts (head_text m) bytes s → (n ≡ m) × (r ≡ s) }
    ensures taken { (n : ℕ) (bytes rest : List ℕ) (left : ℕ) → IsFormat n → Cuts (head_text n) bytes rest → IsRefusedAt IsFormat head_text bytes left → ⊥ }
{}

/// The integers to the end of a line that bytes begin with are the only ones, and they are not refused.
pub fn values_law()
    ensures one { (us vs : List ℤ) (bytes r s : List ℕ) → AreValues us → AreValues vs → Cuts (values_text us) bytes r → Cuts (values_text vs) bytes s → (us ≡ vs) × (r ≡ s) }
    ensures taken { (vs : List ℤ) (bytes rest : List ℕ) (left : ℕ) → AreValues vs → Cuts (values_text vs) bytes rest → IsRefusedAt AreValues values_text bytes left → ⊥ }
{}

/// Tokens as texts have them, written one after another, are read as themselves, whatever stands after them.
pub fn cutting_law()
    ensures { (xs : List Token) (rest : List ℕ) → AreSpaced xs → Cuts xs (spelled xs ++ rest) rest }
{}

/// What is written of a line is read as that line.
pub fn written_law()
    ensures head { (n : ℕ) (rest : List ℕ) → n < 2 ^ 127 → Cuts (head_text n) (spelled (head_text n) ++ rest) rest }
    ensures charges { (n : ℕ) (rest : List ℕ) → n < 2 ^ 127 → Cuts (charges_text n) (spelled (charges_text n) ++ rest) rest }
    ensures parts { (n : ℕ) (rest : List ℕ) → n < 2 ^ 127 → Cuts (parts_text n) (spelled (parts_text n) ++ rest) rest }
    ensures part { (es : List Entry) (rest : List ℕ) → AllByRecursion IsEntry es → Cuts (part_text es) (spelled (part_text es) ++ rest) rest }
    ensures log_use { (i : ℕ) (rest : List ℕ) → i < 2 ^ 32 → Cuts (t.Log ∷ use_text i) (spelled (t.Log ∷ use_text i) ++ rest) rest }
    ensures none_use { (i : ℕ) (rest : List ℕ) → i < 2 ^ 32 → Cuts (t.Nothing ∷ use_text i) (spelled (t.Nothing ∷ use_text i) ++ rest) rest }
    ensures log { (es : List Entry) (rest : List ℕ) → AllByRecursion IsEntry es → Cuts (log_text es) (spelled (log_text es) ++ rest) rest }
    ensures none { (es : List Entry) (rest : List ℕ) → AllByRecursion IsEntry es → Cuts (none_text es) (spelled (none_text es) ++ rest) rest }
    ensures solution { (vs : List ℤ) (rest : List ℕ) → AreValues vs → Cuts (solution_text vs) (spelled (solution_text vs) ++ rest) rest }
{}
