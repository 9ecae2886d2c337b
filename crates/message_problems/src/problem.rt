// The tokens of a problem's file round a place: what is open there, in which block it lies, and what a quantifier binds.

use message_lines::line_at;
use pri_tokens::{Lexeme, Terminal, TokenKind, kind_of, spelling};

/// The tokens of a problem's file.
#[derive(Clone, Copy)]
pub struct Problem<'a> {
    pub bytes: &'a [u8],
    pub lexemes: &'a [Lexeme],
}

/// What is round a token: how many brackets are open there, the innermost of them, the block in which it stands, and how many
/// blocks `\problem` begin before it.
#[derive(Clone, Copy)]
pub(crate) struct Around {
    pub(crate) depth: usize,
    pub(crate) innermost: Option<usize>,
    pub(crate) block: Option<Terminal>,
    pub(crate) problems: usize,
}

/// Whether a token begins a block.
pub fn is_block(terminal: Option<Terminal>) -> bool {
    matches!(
        terminal,
        Some(
            Terminal::UniversalConstants
                | Terminal::ExistentialConstants
                | Terminal::Functions
                | Terminal::Predicates
                | Terminal::Problem
                | Terminal::Interpolant
        )
    )
}

/// Whether a token is a block of constants.
pub(crate) fn is_constants(terminal: Option<Terminal>) -> bool {
    matches!(
        terminal,
        Some(Terminal::UniversalConstants | Terminal::ExistentialConstants)
    )
}

pub fn is_quantifier(terminal: Option<Terminal>) -> bool {
    matches!(terminal, Some(Terminal::Forall | Terminal::Exists))
}

fn has_kind(terminal: Option<Terminal>, kind: TokenKind) -> bool {
    match terminal {
        Some(terminal) => kind_of(terminal) == kind,
        None => false,
    }
}

/// Whether a token is a command inside a formula.
pub(crate) fn is_command(terminal: Option<Terminal>) -> bool {
    has_kind(terminal, TokenKind::Command) && !is_block(terminal)
}

pub(crate) fn is_word(terminal: Option<Terminal>) -> bool {
    has_kind(terminal, TokenKind::Word)
}

pub(crate) fn is_relation(terminal: Option<Terminal>) -> bool {
    matches!(
        terminal,
        Some(
            Terminal::Equal
                | Terminal::Unequal
                | Terminal::Less
                | Terminal::AtMost
                | Terminal::Greater
                | Terminal::AtLeast
        )
    )
}

/// Whether a token is a sign between or before terms and formulas.
pub(crate) fn is_operator(terminal: Option<Terminal>) -> bool {
    is_relation(terminal)
        || matches!(
            terminal,
            Some(
                Terminal::Plus
                    | Terminal::Minus
                    | Terminal::Star
                    | Terminal::And
                    | Terminal::Or
                    | Terminal::Implies
                    | Terminal::Iff
                    | Terminal::Not
            )
        )
}

/// Whether a term or a formula may end with a token.
pub(crate) fn ends_term(terminal: Option<Terminal>) -> bool {
    matches!(
        terminal,
        Some(
            Terminal::Identifier
                | Terminal::Number
                | Terminal::CloseParenthesis
                | Terminal::True
                | Terminal::False
        )
    )
}

fn opens(terminal: Terminal) -> bool {
    matches!(
        terminal,
        Terminal::OpenBrace | Terminal::OpenParenthesis | Terminal::OpenBracket
    )
}

fn closes(terminal: Terminal) -> bool {
    matches!(
        terminal,
        Terminal::CloseBrace | Terminal::CloseParenthesis | Terminal::CloseBracket
    )
}

impl<'a> Problem<'a> {
    /// Whether token k opens a bracket.
    pub fn opens(&self, k: usize) -> bool {
        match self.terminal(k) {
            Some(terminal) => opens(terminal),
            None => false,
        }
    }

    /// Whether token k closes a bracket.
    pub fn closes(&self, k: usize) -> bool {
        match self.terminal(k) {
            Some(terminal) => closes(terminal),
            None => false,
        }
    }

    /// The offset after token k.
    pub fn end_of(&self, k: usize) -> usize {
        self.offset(k).saturating_add(self.text(k).len())
    }

    /// How many tokens the file has.
    pub fn len(&self) -> usize {
        self.lexemes.len()
    }

    /// What token k is; none past the end.
    pub fn terminal(&self, k: usize) -> Option<Terminal> {
        match self.lexemes.get(k) {
            Some(lexeme) => Some(lexeme.terminal),
            None => None,
        }
    }

    /// What the token that many before token k is.
    pub(crate) fn before(&self, k: usize, many: usize) -> Option<Terminal> {
        match k.checked_sub(many) {
            Some(i) => self.terminal(i),
            None => None,
        }
    }

    /// The bytes of token k; none past the end.
    pub fn text(&self, k: usize) -> &'a [u8] {
        match self.lexemes.get(k) {
            Some(lexeme) => spelling(self.bytes, lexeme),
            None => b"",
        }
    }

    /// The bytes of the token that many before token k.
    pub(crate) fn text_before(&self, k: usize, many: usize) -> &'a [u8] {
        match k.checked_sub(many) {
            Some(i) => self.text(i),
            None => b"",
        }
    }

    /// The offset of token k; that of the end past the end.
    pub fn offset(&self, k: usize) -> usize {
        match self.lexemes.get(k) {
            Some(lexeme) => lexeme.at as usize,
            None => self.bytes.len(),
        }
    }

    /// The number of the line of token k.
    pub fn line(&self, k: usize) -> u64 {
        line_at(self.bytes, self.offset(k)).number
    }

    /// Whether nothing stands between token k and the next one.
    pub(crate) fn touches_next(&self, k: usize) -> bool {
        let next = k.saturating_add(1);
        next < self.len() && self.offset(k).saturating_add(self.text(k).len()) == self.offset(next)
    }

    /// The first token at this offset or after it.
    pub(crate) fn token_at(&self, offset: usize) -> usize {
        for (k, lexeme) in self.lexemes.iter().enumerate() {
            if lexeme.at as usize >= offset {
                return k;
            }
        }
        self.len()
    }

    /// What is round token k.
    pub(crate) fn around(&self, k: usize) -> Around {
        let mut depth: usize = 0;
        let mut block = None;
        let mut problems: usize = 0;
        for lexeme in self.lexemes.get(..k).unwrap_or(self.lexemes) {
            let terminal = lexeme.terminal;
            if depth == 0 && is_block(Some(terminal)) {
                block = Some(terminal);
                if terminal == Terminal::Problem {
                    problems = problems.saturating_add(1);
                }
            }
            if opens(terminal) {
                depth = depth.saturating_add(1);
            } else if closes(terminal) && depth > 0 {
                depth -= 1;
                if depth == 0 {
                    block = None;
                }
            }
        }
        Around {
            depth,
            innermost: self.innermost(k),
            block,
            problems,
        }
    }

    /// The innermost bracket that is open before token k.
    fn innermost(&self, k: usize) -> Option<usize> {
        let mut closed: usize = 0;
        for i in (0..k.min(self.len())).rev() {
            let Some(terminal) = self.terminal(i) else {
                return None;
            };
            if closes(terminal) {
                closed = closed.saturating_add(1);
            } else if opens(terminal) {
                if closed == 0 {
                    return Some(i);
                }
                closed -= 1;
            }
        }
        None
    }

    /// The last token before token k that is neither a name nor a comma.
    fn before_names(&self, k: usize) -> Option<usize> {
        for i in (0..k.min(self.len())).rev() {
            if !matches!(
                self.terminal(i),
                Some(Terminal::Identifier | Terminal::Comma)
            ) {
                return Some(i);
            }
        }
        None
    }

    /// Whether the last command up to token k is a quantifier, with none of `;`, `)` and `}` after it.
    pub(crate) fn begins_binder(&self, k: usize) -> bool {
        for i in (0..k.saturating_add(1).min(self.len())).rev() {
            match self.terminal(i) {
                Some(Terminal::Semicolon | Terminal::CloseParenthesis | Terminal::CloseBrace) => {
                    return false;
                }
                found if has_kind(found, TokenKind::Command) => {
                    return is_quantifier(found);
                }
                _ => {}
            }
        }
        false
    }

    /// Whether token k is, or would be the next of, the names of a quantifier that stands without parentheses.
    pub(crate) fn is_in_binder(&self, k: usize) -> bool {
        match self.before_names(k) {
            Some(i) => self.ends_type(i) && self.begins_binder(i),
            None => false,
        }
    }

    /// Whether a quantifier before token k binds the name of that token.
    pub(crate) fn is_bound_before(&self, k: usize) -> bool {
        let name = self.text(k);
        let mut is_binder = false;
        let mut has_type = false;
        for i in 0..k.min(self.len()) {
            match self.terminal(i) {
                Some(Terminal::Identifier) => {
                    if is_binder && has_type && self.text(i) == name {
                        return true;
                    }
                }
                Some(Terminal::Comma) => {}
                Some(Terminal::Int | Terminal::Nat | Terminal::CloseBracket) => has_type = true,
                Some(Terminal::CloseParenthesis | Terminal::CloseBrace) => {
                    is_binder = false;
                    has_type = false;
                }
                found => {
                    has_type = false;
                    if has_kind(found, TokenKind::Command) {
                        is_binder = is_quantifier(found);
                    }
                }
            }
        }
        false
    }

    fn ends_type(&self, k: usize) -> bool {
        matches!(
            self.terminal(k),
            Some(Terminal::Int | Terminal::Nat | Terminal::CloseBracket)
        )
    }

    /// How many arguments stand in the parentheses after token k.
    pub(crate) fn arguments(&self, k: usize) -> usize {
        let open = k.saturating_add(1);
        if self.terminal(open) != Some(Terminal::OpenParenthesis)
            || self.terminal(open.saturating_add(1)) == Some(Terminal::CloseParenthesis)
        {
            return 0;
        }
        let mut depth: usize = 0;
        let mut count: usize = 1;
        for lexeme in self.lexemes.get(open..).unwrap_or(&[]) {
            match lexeme.terminal {
                Terminal::OpenParenthesis => depth = depth.saturating_add(1),
                Terminal::CloseParenthesis if depth <= 1 => break,
                Terminal::CloseParenthesis => depth = depth.saturating_sub(1),
                Terminal::Comma if depth == 1 => count = count.saturating_add(1),
                _ => {}
            }
        }
        count
    }
}
