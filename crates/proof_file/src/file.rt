// The part of a file that holds a proof.

ghost use Rattle.proof_file.specs.Body.{body, is_marker, lines_of};
ghost use Rattle.std.specs.Prelude.{◌≡◌, ◌≤◌, ◌<◌, ◌==◌, ◌∷◌, [], length, position, IfSome, MatchOption};

/// Where the first line ends; none where no line feed stands.
fn line_end(bytes: &[u8]) -> Option<usize>
    ensures { result ≡ position (λ b. b == 10) bytes.now }
{
    bytes.iter().position(|b| *b == b'\n')
}

/// The first line, and the bytes after its line feed; none where no line feed stands, so that the bytes are one line.
fn first_line(bytes: &[u8]) -> Option<(&[u8], &[u8])>
    ensures first { MatchOption result (lines_of bytes.now ≡ bytes.now ∷ []) (λ x. lines_of bytes.now ≡ x.0.now ∷ lines_of x.1.now) }
    ensures shorter { IfSome result (λ x. length x.1.now < length bytes.now) }
{
    match line_end(bytes) {
        Some(end) => Some((&bytes[..end], &bytes[end + 1..])),
        None => None,
    }
}

/// Whether a line is the one after which a proof stands.
fn is_marker(line: &[u8]) -> bool
    ensures { result ≡ is_marker line.now }
{
    line == b"proof:".as_slice()
}

/// The bytes after the first line that is `proof:`, or all where no line is so.
pub fn body(bytes: &[u8]) -> &[u8]
    ensures exact { result.now ≡ body bytes.now }
    ensures within { length result.now ≤ length bytes.now }
{
    let mut rest = bytes;
    'lines: loop {
        let Some((line, more)) = first_line(rest) else {
            return if is_marker(rest) { &[] } else { bytes };
        };
        if is_marker(line) {
            return more;
        }
        rest = more;
    }
}
