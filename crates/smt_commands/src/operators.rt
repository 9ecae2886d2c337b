// The names that no symbol of a script may have.

ghost use Rattle.smt_commands.specs.Symbols.{is_reserved, is_unlisted};
ghost use Rattle.std.specs.Prelude.{◌≡◌};

use smt_terms::named_operator;

/// Whether a text is the name of an operator of the theories Core and Ints.
pub fn is_reserved(text: &[u8]) -> bool
    ensures { result ≡ is_reserved text.now }
{
    named_operator(text).is_some() || is_unlisted(text)
}

/// Whether a text is the name of an operator of the theory Ints that terms may not use.
pub fn is_unlisted(text: &[u8]) -> bool
    ensures { result ≡ is_unlisted text.now }
{
    text == b"div".as_slice() || text == b"mod".as_slice()
}
