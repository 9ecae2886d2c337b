// The tokens of a script, and its lists by them.

use crate::places::line_at;
use smt_tokens::{Lexeme, Terminal};

/// The tokens of a script.
#[derive(Clone, Copy)]
pub struct Script<'a> {
    pub bytes: &'a [u8],
    pub lexemes: &'a [Lexeme],
}

/// Some tokens of a script: from the first on, up to the second.
#[derive(Clone, Copy)]
pub struct Span {
    pub from: usize,
    pub to: usize,
}

impl<'a> Script<'a> {
    /// How many tokens the script has.
    pub fn len(&self) -> usize {
        self.lexemes.len()
    }

    /// What token k is; none past the end.
    pub fn terminal(&self, k: usize) -> Option<Terminal> {
        match self.lexemes.get(k) {
            Some(lexeme) => Some(lexeme.terminal),
            None => None,
        }
    }

    /// The bytes of token k; none past the end.
    pub fn text(&self, k: usize) -> &'a [u8] {
        match self.lexemes.get(k) {
            Some(lexeme) => {
                let rest = self.bytes.get(lexeme.at as usize..).unwrap_or(&[]);
                rest.get(..lexeme.len as usize).unwrap_or(rest)
            }
            None => b"",
        }
    }

    /// The bytes of the token that many before token k.
    pub fn text_before(&self, k: usize, many: usize) -> &'a [u8] {
        match k.checked_sub(many) {
            Some(i) => self.text(i),
            None => b"",
        }
    }

    /// The bytes of the token that many after token k.
    pub fn text_behind(&self, k: usize, many: usize) -> &'a [u8] {
        self.text(k.saturating_add(many))
    }

    /// The offset of token k; that of the end past the end.
    pub fn offset(&self, k: usize) -> usize {
        match self.lexemes.get(k) {
            Some(lexeme) => lexeme.at as usize,
            None => self.bytes.len(),
        }
    }

    /// The number of the line of token k.
    pub fn line(&self, k: usize) -> u64 {
        line_at(self.bytes, self.offset(k)).number
    }

    /// Whether token k opens a list.
    pub fn opens(&self, k: usize) -> bool {
        self.terminal(k) == Some(Terminal::Open)
    }

    /// Whether token k closes a list.
    pub fn closes(&self, k: usize) -> bool {
        self.terminal(k) == Some(Terminal::Close)
    }

    /// Whether the token before token k opens a list.
    pub fn follows_open(&self, k: usize) -> bool {
        match k.checked_sub(1) {
            Some(i) => self.opens(i),
            None => false,
        }
    }

    /// The first token at this offset or after it.
    pub fn token_at(&self, offset: usize) -> usize {
        for (k, lexeme) in self.lexemes.iter().enumerate() {
            if lexeme.at as usize >= offset {
                return k;
            }
        }
        self.len()
    }

    /// The outermost list that is open before token k.
    pub fn outermost(&self, k: usize) -> Option<usize> {
        let mut depth: usize = 0;
        let mut outermost = None;
        for i in 0..k.min(self.len()) {
            match self.terminal(i) {
                Some(Terminal::Open) => {
                    if depth == 0 {
                        outermost = Some(i);
                    }
                    depth = depth.saturating_add(1);
                }
                Some(Terminal::Close) => {
                    depth = depth.saturating_sub(1);
                    if depth == 0 {
                        outermost = None;
                    }
                }
                _ => {}
            }
        }
        outermost
    }

    /// How many members the list that token k opens has.
    pub fn count(&self, k: usize) -> usize {
        let mut depth: usize = 0;
        let mut count: usize = 0;
        for i in k.saturating_add(1)..self.len() {
            let terminal = self.terminal(i);
            if terminal == Some(Terminal::Close) {
                if depth == 0 {
                    return count;
                }
                depth -= 1;
                continue;
            }
            if depth == 0 {
                count = count.saturating_add(1);
            }
            if terminal == Some(Terminal::Open) {
                depth = depth.saturating_add(1);
            }
        }
        count
    }

    /// A member of the list that token k opens, by its number from 0 on.
    pub fn member(&self, k: usize, number: usize) -> Option<Span> {
        let mut depth: usize = 0;
        let mut count: usize = 0;
        let mut found = None;
        for i in k.saturating_add(1)..self.len() {
            let terminal = self.terminal(i);
            if depth == 0 {
                if let Some(from) = found {
                    return Some(Span { from, to: i });
                }
                if terminal == Some(Terminal::Close) {
                    return None;
                }
                if count == number {
                    found = Some(i);
                }
                count = count.saturating_add(1);
            }
            match terminal {
                Some(Terminal::Open) => depth = depth.saturating_add(1),
                Some(Terminal::Close) => depth = depth.saturating_sub(1),
                _ => {}
            }
        }
        match found {
            Some(from) => Some(Span {
                from,
                to: self.len(),
            }),
            None => None,
        }
    }

    /// The first token of a member of the list that token k opens.
    pub fn member_text(&self, k: usize, number: usize) -> &'a [u8] {
        match self.member(k, number) {
            Some(span) => self.text(span.from),
            None => b"",
        }
    }

    /// Whether token k opens a list that declares or defines a symbol.
    pub fn declares(&self, k: usize) -> bool {
        self.opens(k) && is_declaration(self.text_behind(k, 1))
    }

    /// The list in which a name is declared or defined first.
    pub fn declaration(&self, name: &[u8]) -> Option<usize> {
        for k in 0..self.len() {
            if self.declares(k) && self.text_behind(k, 2) == name {
                return Some(k);
            }
        }
        None
    }

    /// The first command before that of token k which declares or defines a name, of those that no `pop` and no reset between them
    /// takes back.
    pub fn declaration_before(&self, name: &[u8], k: usize) -> Option<usize> {
        let mut found = None;
        let mut left: u64 = 0;
        let mut depth: usize = 0;
        let command = self.outermost(k).unwrap_or(k);
        for i in (0..command.min(self.len())).rev() {
            if self.closes(i) {
                depth = depth.saturating_add(1);
            }
            if !self.opens(i) {
                continue;
            }
            depth = depth.saturating_sub(1);
            if depth > 0 {
                continue;
            }
            match self.text_behind(i, 1) {
                b"reset" | b"reset-assertions" => return found,
                b"pop" => left = left.saturating_add(self.levels(i)),
                b"push" => left = left.saturating_sub(self.levels(i)),
                _ => {
                    if left == 0 && self.declares(i) && self.text_behind(i, 2) == name {
                        found = Some(i);
                    }
                }
            }
        }
        found
    }

    /// How many levels the `push` or `pop` that token k opens is for.
    fn levels(&self, k: usize) -> u64 {
        if self.terminal(k.saturating_add(2)) != Some(Terminal::Numeral) {
            return 1;
        }
        let mut levels: u64 = 0;
        for digit in self.text_behind(k, 2) {
            levels = levels
                .saturating_mul(10)
                .saturating_add(digit.saturating_sub(b'0') as u64);
        }
        levels
    }

    /// The first list that declares or defines a name which differs from this one at most in case.
    pub fn declaration_in_any_case(&self, name: &[u8]) -> Option<usize> {
        for k in 0..self.len() {
            if self.declares(k) && self.text_behind(k, 2).eq_ignore_ascii_case(name) {
                return Some(k);
            }
        }
        None
    }
}

/// Whether a command of this name declares or defines a symbol.
fn is_declaration(text: &[u8]) -> bool {
    text == b"declare-const".as_slice()
        || text == b"declare-fun".as_slice()
        || text == b"define-fun".as_slice()
        || text == b"define-fun-rec".as_slice()
        || text == b"define-const".as_slice()
}
