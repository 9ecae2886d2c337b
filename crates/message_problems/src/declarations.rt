// What a problem's file declares.

use crate::problem::{Problem, is_block, is_constants};
use pri_tokens::Terminal;

/// A declaration of a name.
#[derive(Clone, Copy)]
pub(crate) struct Declaration {
    /// The token of the name.
    pub(crate) token: usize,
    /// The block in which it stands.
    pub(crate) block: Terminal,
    /// The number of its arguments.
    pub(crate) arity: usize,
}

/// The first declaration of a name; where `any_case` is set, of a name that differs from it at most in case.
pub(crate) fn find_declaration(p: &Problem, name: &[u8], any_case: bool) -> Option<Declaration> {
    let mut block = Terminal::Problem;
    let mut is_open = false;
    let mut depth: usize = 0;
    for k in 0..p.len() {
        match p.terminal(k) {
            Some(Terminal::OpenBrace) => is_open = true,
            Some(Terminal::CloseBrace) => is_open = false,
            Some(Terminal::OpenParenthesis | Terminal::OpenBracket) => {
                depth = depth.saturating_add(1);
            }
            Some(Terminal::CloseParenthesis | Terminal::CloseBracket) => {
                depth = depth.saturating_sub(1);
            }
            Some(Terminal::Identifier) => {
                let is_named = p.text(k) == name
                    || any_case && p.text(k).eq_ignore_ascii_case(name);
                if is_open && depth == 0 && declares(block) && is_named {
                    return Some(Declaration {
                        token: k,
                        block,
                        arity: p.arguments(k),
                    });
                }
            }
            Some(found) if !is_open && is_block(Some(found)) => block = found,
            _ => {}
        }
    }
    None
}

/// Whether a block declares names.
fn declares(block: Terminal) -> bool {
    is_constants(Some(block)) || matches!(block, Terminal::Functions | Terminal::Predicates)
}

/// Whether a file declares an existential constant.
pub fn has_existential(p: &Problem) -> bool {
    for k in 0..p.len() {
        if p.terminal(k) == Some(Terminal::ExistentialConstants)
            && p.terminal(k.saturating_add(2)) != Some(Terminal::CloseBrace)
        {
            return true;
        }
    }
    false
}
