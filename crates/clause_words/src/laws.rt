// Which words are read.

ghost use Rattle.linear_term.specs.Linear.{IsNormal};
ghost use Rattle.linear_term.specs.Range.{InRange};
ghost use Rattle.std.specs.Fmt.{decimal};
ghost use Rattle.std.specs.Prelude.{◌<◌, ◌^◌};
ghost use Rattle.clause_words.specs.Numbers.{index_of, integer_of};
ghost use Rattle.clause_words.specs.Spelling.{integer_text, IsSpelling};
ghost use Rattle.clause_words.specs.Terms.{term_of, term_text};

/// The words that are read are the spellings of numbers below 2^32, of integers in the range, and of terms in normal form.
pub fn spelling_law()
    ensures number { IsSpelling (λ n. n < 2 ^ 32) decimal index_of }
    ensures integer { IsSpelling InRange integer_text integer_of }
    ensures term { IsSpelling IsNormal term_text term_of }
{}
