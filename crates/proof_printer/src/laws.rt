// What a written proof is.

ghost use Rattle.proof_tokens.specs.Spellings.{spelled};
ghost use Rattle.proof_tree.specs.Proof.{Proof};
ghost use Rattle.proof_tree.specs.declared.node.Conclusion.{Conclusion};
ghost use Rattle.proof_printer.specs.Short.{AreDifferent, keys, most_parts, parts_of, times};
ghost use Rattle.proof_printer.specs.Typed.{IsTypedProof, IsTypedConclusion};
ghost use Rattle.std.specs.Prelude.{◌≡◌, ◌<◌, ◌≤◌, ◌⊎◌, length, true, List, ℕ};
ghost use Rattle.base_texts.specs.Texts.{is_among, place};
ghost use Rattle.proof_grammar.specs.declared.lines.TextLine.{TextLine};
ghost use Rattle.proof_grammar.specs.Lines.{proof_text};
ghost use Rattle.proof_grammar.specs.Shaped.{IsTextOfProof, IsWritable};

/// The tokens of a proof that a text can hold, written one after another, are read as that proof.
pub fn text_law()
    ensures { (n : ℕ) (x : Proof) (c : Conclusion) → IsWritable n x c → IsTypedProof x → IsTypedConclusion c → IsTextOfProof (spelled (proof_text n x c)) n x c }
{}

/// The parts of a text are what they should be: each stands on two lines at least; each log of two entries and more that does is one
/// of them, unless there are as many as a text can say; no two are the same; and they stand in the order of their first lines, all of
/// them before those of a log that a text could say no more.
pub fn parts_law()
    ensures again { (ls : List TextLine) (k : List ℕ) → is_among k (parts_of ls) ≡ true → 2 ≤ times k (keys ls) }
    ensures all { (ls : List TextLine) (k : List ℕ) → 2 ≤ times k (keys ls) → (is_among k (parts_of ls) ≡ true) ⊎ (length (parts_of ls) ≡ most_parts) }
    ensures different { (ls : List TextLine) → AreDifferent (parts_of ls) }
    ensures order { (ls : List TextLine) (j k : List ℕ) → 2 ≤ times k (keys ls) → place j (parts_of ls) < place k (parts_of ls) → place j (keys ls) < place k (keys ls) }
{}
