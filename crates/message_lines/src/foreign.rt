// Words and signs of other languages, and what is written for them in a problem's file.

/// Whether a text is one of these words.
pub fn is_among(text: &[u8], words: &[&str]) -> bool {
    for word in words {
        if text == word.as_bytes() {
            return true;
        }
    }
    false
}

/// Whether a text begins with one of these words.
pub fn begins_with_one(text: &[u8], words: &[&str]) -> bool {
    for word in words {
        if text.starts_with(word.as_bytes()) {
            return true;
        }
    }
    false
}

/// The second of the first pair that has this text first.
pub fn paired(text: &[u8], pairs: &[(&str, &'static str)]) -> Option<&'static str> {
    for (word, sign) in pairs {
        if text == word.as_bytes() {
            return Some(sign);
        }
    }
    None
}

/// The sign that is written for a connective in words.
pub fn sign_for_word(text: &[u8]) -> Option<&'static str> {
    paired(
        text,
        &[
            ("and", "&"),
            ("AND", "&"),
            ("or", "|"),
            ("OR", "|"),
            ("not", "!"),
            ("NOT", "!"),
            ("implies", "->"),
            ("impl", "->"),
            ("iff", "<->"),
            ("equiv", "<->"),
            ("xor", "!="),
            ("distinct", "!="),
        ],
    )
}

/// Whether a text is the name of a remainder or a quotient elsewhere.
pub fn is_remainder(text: &[u8]) -> bool {
    is_among(text, &["mod", "div", "rem"])
}

/// Whether a text is the name of a type elsewhere.
pub fn is_foreign_type(text: &[u8]) -> bool {
    is_among(
        text,
        &[
            "bool", "boolean", "Bool", "Boolean", "Int", "integer", "Integer", "real", "Real",
            "Nat", "natural", "uint", "float", "double", "long", "unsigned", "string", "var",
            "const",
        ],
    )
}

/// Whether a text is the name of a block of declarations elsewhere.
pub fn is_foreign_block(text: &[u8]) -> bool {
    is_among(
        text,
        &[
            "\\variables",
            "\\sorts",
            "\\constants",
            "\\universalVariables",
            "\\constant",
        ],
    )
}

/// Whether a text is the name of a block of assumptions elsewhere.
pub fn is_assumption_block(text: &[u8]) -> bool {
    is_among(
        text,
        &[
            "\\assumptions",
            "\\assume",
            "\\premises",
            "\\hypotheses",
            "\\axioms",
            "\\given",
        ],
    )
}

/// Whether a text is a quantifier in words.
pub fn is_quantifier_word(text: &[u8]) -> bool {
    is_among(
        text,
        &[
            "all", "All", "ALL", "Forall", "FORALL", "some", "Some", "any", "Exists", "EXISTS",
            "ex",
        ],
    )
}

/// Whether a text is the name of a block without its backslash.
pub fn is_block_word(text: &[u8]) -> bool {
    is_among(
        text,
        &[
            "problem",
            "universalConstants",
            "existentialConstants",
            "functions",
            "predicates",
            "interpolant",
        ],
    )
}

/// The sign that is written for the sign of mathematics with which a text begins.
pub fn sign_for_symbol(text: &[u8]) -> Option<&'static str> {
    for (symbol, sign) in &[
        ("≤", "<="),
        ("≥", ">="),
        ("≠", "!="),
        ("∧", "&"),
        ("∨", "|"),
        ("¬", "!"),
        ("→", "->"),
        ("⇒", "->"),
        ("↔", "<->"),
        ("⇔", "<->"),
        ("∀", "\\forall"),
        ("∃", "\\exists"),
        ("×", "*"),
        ("·", "*"),
        ("⋅", "*"),
        ("−", "-"),
        ("–", "-"),
        ("\u{a0}", "as a blank"),
    ] {
        if text.starts_with(symbol.as_bytes()) {
            return Some(sign);
        }
    }
    None
}

/// Whether a text begins with the byte order mark of UTF-16.
pub fn is_utf_16(text: &[u8]) -> bool {
    text.starts_with(b"\xff\xfe") || text.starts_with(b"\xfe\xff")
}
