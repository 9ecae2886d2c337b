// How a symbol is written: as it stands if it is a simple symbol, else between bars.

ghost use Rattle.smt_models.specs.Symbols.{is_asking_word, is_defining_word, is_doing_word, is_general_word, is_reserved, is_simple, symbol_text};
ghost use Rattle.smt_tokens.specs.Bytes.{is_symbol_byte};
ghost use Rattle.smt_tokens.specs.Tokens.{begins, is_run};
ghost use Rattle.std.specs.Char.{is_ascii_digit};
ghost use Rattle.std.specs.List.{list_all};
ghost use Rattle.std.specs.Prelude.{◌≡◌, ◌++◌, OnOk};

use linear_term::Memory;

/// Whether a symbol is a reserved word that begins no command.
fn is_general_word(text: &[u8]) -> bool
    ensures { result ≡ is_general_word text.now }
{
    text == b"!".as_slice()
        || text == b"_".as_slice()
        || text == b"as".as_slice()
        || text == b"BINARY".as_slice()
        || text == b"DECIMAL".as_slice()
        || text == b"exists".as_slice()
        || text == b"HEXADECIMAL".as_slice()
        || text == b"forall".as_slice()
        || text == b"let".as_slice()
        || text == b"match".as_slice()
        || text == b"NUMERAL".as_slice()
        || text == b"par".as_slice()
        || text == b"STRING".as_slice()
}

/// Whether a symbol is a command that declares or defines.
fn is_defining_word(text: &[u8]) -> bool
    ensures { result ≡ is_defining_word text.now }
{
    text == b"declare-const".as_slice()
        || text == b"declare-datatype".as_slice()
        || text == b"declare-datatypes".as_slice()
        || text == b"declare-fun".as_slice()
        || text == b"declare-sort".as_slice()
        || text == b"define-const".as_slice()
        || text == b"define-fun".as_slice()
        || text == b"define-fun-rec".as_slice()
        || text == b"define-funs-rec".as_slice()
        || text == b"define-sort".as_slice()
}

/// Whether a symbol is a command that asks.
fn is_asking_word(text: &[u8]) -> bool
    ensures { result ≡ is_asking_word text.now }
{
    text == b"check-sat".as_slice()
        || text == b"check-sat-assuming".as_slice()
        || text == b"get-assertions".as_slice()
        || text == b"get-assignment".as_slice()
        || text == b"get-info".as_slice()
        || text == b"get-model".as_slice()
        || text == b"get-option".as_slice()
        || text == b"get-proof".as_slice()
        || text == b"get-unsat-assumptions".as_slice()
        || text == b"get-unsat-core".as_slice()
        || text == b"get-value".as_slice()
}

/// Whether a symbol is any other command.
fn is_doing_word(text: &[u8]) -> bool
    ensures { result ≡ is_doing_word text.now }
{
    text == b"assert".as_slice()
        || text == b"echo".as_slice()
        || text == b"exit".as_slice()
        || text == b"pop".as_slice()
        || text == b"push".as_slice()
        || text == b"reset".as_slice()
        || text == b"reset-assertions".as_slice()
        || text == b"set-info".as_slice()
        || text == b"set-logic".as_slice()
        || text == b"set-option".as_slice()
}

/// Whether a symbol is a reserved word.
fn is_reserved(text: &[u8]) -> bool
    ensures { result ≡ is_reserved text.now }
{
    is_general_word(text) || is_defining_word(text) || is_asking_word(text) || is_doing_word(text)
}

/// A letter, a digit, or one of the signs of which symbols are made.
fn is_symbol_byte(byte: u8) -> bool
    ensures { result ≡ is_symbol_byte byte }
{
    byte.is_ascii_alphabetic()
        || byte.is_ascii_digit()
        || byte == b'~'
        || byte == b'!'
        || byte == b'@'
        || byte == b'$'
        || byte == b'%'
        || byte == b'^'
        || byte == b'&'
        || byte == b'*'
        || byte == b'_'
        || byte == b'-'
        || byte == b'+'
        || byte == b'='
        || byte == b'<'
        || byte == b'>'
        || byte == b'.'
        || byte == b'?'
        || byte == b'/'
}

/// Whether a text is letters, digits and signs; it may have no byte.
fn are_symbol_bytes(text: &[u8]) -> bool
    ensures { result ≡ list_all is_symbol_byte text.now }
{
    for byte in text {
        let good = is_symbol_byte(*byte);
        if !good {
            return false;
        }
    }
    true
}

/// Whether a text is letters, digits and signs, one at least.
fn is_run(text: &[u8]) -> bool
    ensures { result ≡ is_run is_symbol_byte text.now }
{
    match text.split_first() {
        Some((first, more)) => is_symbol_byte(*first) && are_symbol_bytes(more),
        None => false,
    }
}

/// Whether a text begins with a digit.
fn begins_with_digit(text: &[u8]) -> bool
    ensures { result ≡ begins is_ascii_digit text.now }
{
    match text.split_first() {
        Some((first, _more)) => first.is_ascii_digit(),
        None => false,
    }
}

/// Whether a symbol is simple, and no reserved word.
fn is_simple(text: &[u8]) -> bool
    ensures { result ≡ is_simple text.now }
{
    is_run(text) && !begins_with_digit(text) && !is_reserved(text)
}

/// Puts a symbol after a text. A symbol of a script has no bar.
pub(crate) fn put_symbol(text: &[u8], out: &mut Vec<u8>) -> Result<(), Memory>
    ensures { OnOk result (out.new.items ≡ out.old.items ++ symbol_text text.now) }
{
    if is_simple(text) {
        out.extend_from_slice(text)?;
        return Ok(());
    }
    out.extend_from_slice(b"|")?;
    out.extend_from_slice(text)?;
    out.extend_from_slice(b"|")?;
    Ok(())
}
