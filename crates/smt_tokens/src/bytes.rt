// Which bytes a script is made of.

ghost use Rattle.smt_tokens.specs.Bytes.{is_bar_byte, is_binary_digit, is_in_line, is_printable, is_string_byte, is_symbol_byte, is_white};
ghost use Rattle.std.specs.Prelude.{◌≡◌};

/// Space, tab, line feed or carriage return.
pub fn is_white(byte: u8) -> bool
    ensures { result ≡ is_white byte }
{
    byte == b' ' || byte == b'\t' || byte == b'\n' || byte == b'\r'
}

/// Every byte that ends no line.
pub fn is_in_line(byte: u8) -> bool
    ensures { result ≡ is_in_line byte }
{
    byte != b'\n' && byte != b'\r'
}

/// A letter, a digit, or one of the signs of which symbols are made.
pub fn is_symbol_byte(byte: u8) -> bool
    ensures { result ≡ is_symbol_byte byte }
{
    byte.is_ascii_alphabetic()
        || byte.is_ascii_digit()
        || byte == b'~'
        || byte == b'!'
        || byte == b'@'
        || byte == b'$'
        || byte == b'%'
        || byte == b'^'
        || byte == b'&'
        || byte == b'*'
        || byte == b'_'
        || byte == b'-'
        || byte == b'+'
        || byte == b'='
        || byte == b'<'
        || byte == b'>'
        || byte == b'.'
        || byte == b'?'
        || byte == b'/'
}

/// A byte that may stand in a string or between bars: white space, and all from the space on but the one for deletion.
pub fn is_printable(byte: u8) -> bool
    ensures { result ≡ is_printable byte }
{
    is_white(byte) || (b' ' <= byte && byte != 127)
}

/// A printable byte but `"`.
pub fn is_string_byte(byte: u8) -> bool
    ensures { result ≡ is_string_byte byte }
{
    is_printable(byte) && byte != b'"'
}

/// A printable byte but `|` and `\`.
pub fn is_bar_byte(byte: u8) -> bool
    ensures { result ≡ is_bar_byte byte }
{
    is_printable(byte) && byte != b'|' && byte != b'\\'
}

/// `0` or `1`.
pub fn is_binary_digit(byte: u8) -> bool
    ensures { result ≡ is_binary_digit byte }
{
    byte == b'0' || byte == b'1'
}
