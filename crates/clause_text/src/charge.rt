// How many steps a checker may charge.

ghost use Rattle.clause_text.specs.HeadWords.{charge_of};
ghost use Rattle.std.specs.Prelude.{◌≡◌};

use base_limits::MOST_BUDGET;
use clause_words::index;

/// How many steps a checker may charge: at least one.
#[derive(Clone, Copy)]
pub struct Charge {
    pub count: u32,
}

/// The charge that the word is.
pub(crate) fn charge_word(word: &[u8]) -> Option<Charge>
    ensures { result ≡ charge_of word.now }
{
    let count = index(word)?;
    if count >= 1 && u64::from(count) <= MOST_BUDGET {
        Some(Charge { count })
    } else {
        None
    }
}
