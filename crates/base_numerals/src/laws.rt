// What a written number reads back as.

ghost use Rattle.base_numerals.specs.Numerals.{decimal_value};
ghost use Rattle.std.specs.Char.{is_ascii_digit};
ghost use Rattle.std.specs.Fmt.{decimal};
ghost use Rattle.std.specs.List.{list_all};
ghost use Rattle.std.specs.Prelude.{◌≡◌, ◌<◌, ◌^◌, ℕ, true};

/// What a number is written as is digits, and they read back as that number.
#[tactic(auto, using(crate::proofs::Decimals::digits_back, crate::proofs::Decimals::value_back))]
pub fn decimal_law()
    ensures digits { (n : ℕ) → n < 10 ^ 64 → list_all is_ascii_digit (decimal n) ≡ true }
    ensures value { (n : ℕ) → n < 10 ^ 64 → decimal_value (decimal n) ≡ n }
{}
