// What is said of a refused problem, one sentence a constant: the refusal's name, then the slip. Names in braces stand for what
// the place shows: the token there and the one before it, a line's number, a name, and another one.

pub(crate) const SMTLIB: &str =
    "this is an SMT-LIB script, which `princess smt` reads; `solve` reads .pri files, whose language docs/LANGUAGE.md describes";

pub(crate) const TPTP: &str =
    "this is a TPTP file; `solve` reads .pri files, whose language docs/LANGUAGE.md describes";

pub(crate) const NO_PROBLEM: &str = "the file ends without a \\problem { .. } block";

pub(crate) const OPEN_END: &str = "the file ends, and the {name} of line {line} is still open";

pub(crate) const OPEN_COMMENT: &str = "this comment is never closed; it ends at */";

pub(crate) const OPEN_BRACE: &str =
    "{token} begins a block, and the {name} of line {line} is still open";

pub(crate) const OPEN_PAREN: &str = "the ( of line {line} is still open here";

pub(crate) const UNMATCHED: &str = "no ( is open that this ) could close";

pub(crate) const SECOND_PROBLEM: &str =
    "a file has one \\problem block, and this is the second one";

pub(crate) const BLOCK_BACKSLASH: &str = "a block begins with a backslash, as \\problem { .. }";

pub(crate) const BLOCK_BRACE: &str = "after {before} its block stands in braces: {before} { .. }";

pub(crate) const EQUALS_TWICE: &str = "equal is written = once";

pub(crate) const AND_TWICE: &str = "and is written & once";

pub(crate) const OR_TWICE: &str = "or is written | once";

pub(crate) const ARROW_EQUALS: &str = "implies is written ->, and at least >=";

pub(crate) const EQUALS_LESS: &str = "at most is written <=";

pub(crate) const ANGLE_BRACKETS: &str = "not equal is written !=";

pub(crate) const ARROW_BOTH: &str = "equivalent is written <->";

pub(crate) const LONG_ARROW: &str = "implies is written ->, and equivalent <->";

pub(crate) const PERCENT: &str =
    "there is no remainder; x is 1 modulo 4 where \\exists int k; x = 4*k + 1";

pub(crate) const DIVISION: &str =
    "there is no division; q is x divided by 4 where 4*q <= x & x <= 4*q + 3";

pub(crate) const POWER: &str = "there is no power; products have a side of numbers alone";

pub(crate) const POWER_OF_NUMBERS: &str =
    "there is no power; write the number itself, as 1024 for 2^10";

pub(crate) const HEXADECIMAL: &str = "numbers are written with decimal digits, as 255";

pub(crate) const DIGIT_GROUPS: &str = "a number has digits alone, as 1000";

pub(crate) const DECIMAL: &str = "numbers are integers; multiply both sides until they are";

pub(crate) const NOT_SIGN: &str = "not is written !";

pub(crate) const PRIME: &str =
    "a name has letters of ASCII, digits and _, and begins with no digit";

pub(crate) const HASH_COMMENT: &str = "a comment begins with //, or stands between /* and */";

pub(crate) const STRING: &str = "there are no strings";

pub(crate) const UNKNOWN_COMMAND: &str =
    "there is no {token}; the commands are \\forall \\exists \\if \\then \\else \\abs \\min \\max \\part, and the blocks \\problem \\universalConstants \\existentialConstants \\functions \\predicates \\interpolant";

pub(crate) const VARIABLES: &str =
    "there is no {token}; names that stand for any value are declared in \\universalConstants";

pub(crate) const OTHER_SIGN: &str = "this sign is written {name} here";

pub(crate) const OTHER_BYTE: &str =
    "this is none of the signs of the language; docs/LANGUAGE.md lists them";

pub(crate) const BYTE_ORDER_MARK: &str = "the file begins with a byte order mark; save it without";

pub(crate) const UTF_16: &str = "the file is written in UTF-16; save it as UTF-8";

pub(crate) const CHAIN: &str = "a relation has two sides; a chain is written as a < b & b < c";

pub(crate) const MISSING_SEMICOLON: &str = "a declaration ends with ;";

pub(crate) const TYPE_AGAIN: &str =
    "one type stands before all names of a declaration, which ends with ; or, inside the parentheses of a quantifier, begins anew after ;";

pub(crate) const DECLARATION_TYPE: &str = "a declaration begins with its type, as int {token};";

pub(crate) const UNKNOWN_TYPE: &str =
    "there is no type {token}; the types are int, nat and int[a, b], and a condition is a predicate without arguments";

pub(crate) const FUNCTION_INT: &str =
    "values and arguments of functions, and arguments of predicates, have the type int";

pub(crate) const TYPE_WORD: &str = "{token} is a type, and no name";

pub(crate) const TYPE_BOUNDS: &str = "a type with bounds is written int[2, 9], with two numbers";

pub(crate) const FUNCTION_TYPE: &str =
    "a function is declared with the type of its value, as int {token}(int);";

pub(crate) const PREDICATE_TYPE: &str = "a predicate has no type in front, as p(int);";

pub(crate) const ARGUMENT_TYPE: &str =
    "an argument is declared by its type, which is int; a name may follow";

pub(crate) const BINDER_TYPE: &str =
    "a quantifier gives the type of its names, as \\forall int {token};";

pub(crate) const BINDER_END: &str =
    "the names of a quantifier end with ; as in \\forall int {before};";

pub(crate) const QUANTIFIER_WORD: &str =
    "{before} is written with a backslash, as \\{before} int x;";

pub(crate) const WORD_OPERATOR: &str = "{name} is written {other}";

pub(crate) const REMAINDER_WORD: &str =
    "there is no {name}; x is 1 modulo 4 where \\exists int k; x = 4*k + 1, and q is x divided by 4 where 4*q <= x & x <= 4*q + 3";

pub(crate) const IF_WORD: &str =
    "a choice between two terms is written \\if (condition) \\then (term) \\else (term)";

pub(crate) const IF_PAREN: &str =
    "after {before} a ( stands, as in \\if (condition) \\then (term) \\else (term)";

pub(crate) const PART_BRACKET: &str = "a part is written \\part[name] and its formula";

pub(crate) const QUANTIFIER_FORM: &str =
    "a quantifier is written \\forall int x; or \\exists int x; and one formula after it";

pub(crate) const COMMA: &str =
    "formulas are joined by & (and) or | (or); a comma stands between arguments and between names";

pub(crate) const GROUP: &str = "a group stands in parentheses, as (x = 1)";

pub(crate) const ABSOLUTE: &str = "| is or; an absolute value is written \\abs(x)";

pub(crate) const FULL_STOP: &str = "no . stands after a formula";

pub(crate) const MEMBER: &str =
    "there are no sets; x is one of some values where 1 <= x & x <= 3, or where x = 1 | x = 4";

pub(crate) const DECLARATION_VALUE: &str =
    "a declaration gives no value; say it in \\problem, as {before} = 3 -> ..";

pub(crate) const ASSUMPTIONS: &str =
    "there is no {token}; what is assumed stands before -> in \\problem, as A & B -> C";

pub(crate) const INDEX: &str = "an element of an array is a value of a function, as a(i)";

pub(crate) const TIMES_MISSING: &str = "a product is written with *, as 2*x";

pub(crate) const SEMICOLON_IN_PROBLEM: &str = "the formula of \\problem ends without ;";

pub(crate) const OPERAND_MISSING: &str = "after {before} something has to stand";

pub(crate) const OPERAND_BEFORE: &str =
    "{token} cannot stand after {before}; what stands between them is missing";

pub(crate) const INTERPOLANT_SETS: &str =
    "the sets of \\interpolant are names of parts, as { a, b; c }";

pub(crate) const END_EXPECTED: &str =
    "a formula or a term has ended before {token}; a connective may be missing, or a parenthesis";

pub(crate) const OTHER: &str = "{token} cannot stand after {before}";

pub(crate) const FIRST: &str =
    "a file is a row of blocks, as \\problem { .. }; {token} begins none";

pub(crate) const LITERAL_TOO_LARGE: &str =
    "a number is at most 2^127 - 1, which is 170141183460469231731687303715884105727";

pub(crate) const DEEP_TOO_DEEP: &str =
    "this opens the 201st level of nesting; parentheses, !, quantified names, ->, <-> and * open levels, chains of & and | none";

pub(crate) const UNDECLARED_SCOPE: &str =
    "{token} is declared nowhere; a quantifier's body is one formula, put parentheses round it";

pub(crate) const UNDECLARED_TRUTH_WORD: &str =
    "{token} is declared nowhere; truth is written true and false";

pub(crate) const UNDECLARED_CASE: &str = "{token} is declared nowhere; {name} is, in line {line}";

pub(crate) const UNDECLARED_NEAR: &str =
    "{token} is declared nowhere; did you mean {name} of line {line}?";

pub(crate) const UNDECLARED_BACKSLASH: &str =
    "{token} is declared nowhere; \\{token} is written with a backslash";

pub(crate) const UNDECLARED_WORD_OPERATOR: &str =
    "{token} is declared nowhere; it is written {other}";

pub(crate) const UNDECLARED_REMAINDER_WORD: &str =
    "{token} is declared nowhere, and there is none built in; x is 1 modulo 4 where \\exists int k; x = 4*k + 1, and q is x divided by 4 where 4*q <= x & x <= 4*q + 3";

pub(crate) const UNDECLARED_APPLIED: &str =
    "{token} is declared nowhere; declare it in \\functions as int {token}(int); or in \\predicates as {token}(int);";

pub(crate) const UNDECLARED_OTHER: &str =
    "{token} is declared nowhere; declare it in \\universalConstants for any value, or bind it with \\forall int {token};";

pub(crate) const REDECLARED_AGAIN: &str =
    "{token} is declared in line {line}; constants, functions and predicates share one space of names";

pub(crate) const ARITY_CONSTANT: &str =
    "{token} is a constant, or bound by a quantifier, and takes no arguments";

pub(crate) const ARITY_COUNT: &str =
    "{token} is declared in line {line} for {name}, and used with {other}";

pub(crate) const KIND_PREDICATE: &str =
    "{token} is a predicate, which is true or false; a term has to stand here";

pub(crate) const KIND_PREDICATE_EQUAL: &str =
    "{token} is a predicate, and = compares terms; two formulas are compared with <->, and a comparison with true is the formula itself";

pub(crate) const KIND_FORMULAS_EQUAL: &str =
    "this is a formula, and = compares terms; two formulas are compared with <->";

pub(crate) const KIND_CHAIN: &str =
    "this is a formula, and a term has to stand here; a chain of relations is written as a < b & b < c";

pub(crate) const KIND_FORMULA: &str =
    "this is a formula, which is true or false; a term has to stand here";

pub(crate) const KIND_TERM: &str =
    "this is a term, which has a value; a formula has to stand here, as x != 0";

pub(crate) const NONLINEAR_PRODUCT: &str =
    "neither side of * is built of numbers alone, so this is not linear; where one side has few values, write a case for each";

pub(crate) const PARTS_NO_COMPONENT: &str =
    "a part is a top formula of the problem, assumed or concluded, as \\part[a] (..) & \\part[b] (..) -> \\part[c] (..); this one is inside another formula";

pub(crate) const PARTS_UNNAMED: &str =
    "in a file with an \\interpolant block each top formula of the problem is a part: put \\part[name] before this one";

pub(crate) const PARTS_UNKNOWN: &str = "no \\part[{token}] stands in the problem";

pub(crate) const PARTS_TWICE: &str =
    "this \\interpolant block has {token} already; a part is in one set";

pub(crate) const PARTS_MISSING: &str =
    "each part of the problem is in one set of the block; this block leaves out {name}";

pub(crate) const PARTS_EXISTENTIAL_UNNAMED: &str =
    "a file with an \\interpolant block has no \\existentialConstants: declare them in \\universalConstants; then each top formula of the problem is a part, as \\part[name] before this one";

pub(crate) const PARTS_EXISTENTIAL: &str =
    "a file with an \\interpolant block has no \\existentialConstants; declare them in \\universalConstants";

pub(crate) const MANY_SYMBOLS: &str =
    "this is the 1,001st symbol that the file declares, and 1,000 is the limit; bind names with \\forall";

pub(crate) const LARGE_FORMULA: &str =
    "written as one formula, the problem has more than 1,000,000 nodes or more than 2,000 levels; a <-> writes both its sides twice, and \\if, \\abs, \\min and \\max write the relation round them twice";

pub(crate) const IMPURE_APPLIED: &str =
    "`elim` and `least` take problems without predicates and functions, and this one uses {token}; `solve` takes it";

pub(crate) const OBJECTIVE_TERM: &str =
    "the second word of `least` is no linear term over the existential constants of the file, as a + 2*b; \\if, \\abs, \\min and \\max are none";
