// What is said of a refused script, one sentence a constant, by its slip. Names in braces stand for what the place shows.

pub(crate) const END: &str =
    "the file ends, and a list, a string or a symbol between bars is still open";

pub(crate) const END_LIST: &str =
    "the file ends, and the list ({name} of line {line} is still open";

pub(crate) const END_STRING: &str =
    "the file ends, and the string that begins in line {line} is still open";

pub(crate) const END_BAR: &str =
    "the file ends, and the symbol between bars that begins in line {line} is still open";

pub(crate) const CLOSE: &str = "no ( is open that this ) could close";

pub(crate) const BARE: &str = "a command stands in parentheses, as ({token})";

pub(crate) const COMMENT: &str = "a comment begins with ;";

pub(crate) const OUTSIDE: &str =
    "a script is a row of lists in parentheses, as (check-sat); this stands outside all of them, or begins no token";

pub(crate) const BYTE: &str = "this holds a byte that SMT-LIB does not allow there";

pub(crate) const BYTE_ORDER_MARK: &str = "the file begins with a byte order mark; save it without";

pub(crate) const UTF_16: &str = "the file is written in UTF-16; save it as UTF-8";

pub(crate) const DEEP: &str =
    "this opens the 201st level of nesting; define-fun gives inner terms a name";

pub(crate) const NUMERAL: &str =
    "a numeral in a term is at most 2^127 - 1, which is 170141183460469231731687303715884105727";

pub(crate) const UNDECLARED: &str = "{token} is declared nowhere before";

pub(crate) const OPERATOR: &str = "{token} is declared nowhere before; it is written {name}";

pub(crate) const NEGATIVE: &str =
    "{token} is a symbol here, and declared nowhere before; write (- {name})";

pub(crate) const ARRAY: &str =
    "{token} is declared nowhere before; an array is a function, and (select a i) is (a i) (docs/SMTLIB.md)";

pub(crate) const CHOICE: &str =
    "{token} is declared nowhere before; the {token} of x and y is (ite ({name} x y) x y)";

pub(crate) const NO_BLANK: &str =
    "{token} is declared nowhere before; blanks stand between the members of a list, and the operator stands first";

pub(crate) const NEAR: &str =
    "{token} is declared nowhere before; did you mean {name} of line {line}?";

pub(crate) const CASE: &str = "{token} is declared nowhere before; {name} is, in line {line}";

pub(crate) const LATER: &str = "{token} is declared in line {line}, after this";

pub(crate) const GONE: &str =
    "{token} is declared in line {line}, in a level that is left by pop, or before a reset";

pub(crate) const REDECLARED: &str =
    "{token} is declared or defined before, or is the name of an operator";

pub(crate) const AGAIN: &str = "{token} is declared or defined before, in line {line}";

pub(crate) const ARITY: &str = "{token} is used with a wrong number of arguments";

pub(crate) const COUNT: &str =
    "{token} is declared in line {line} for {name}, and used with {other}";

pub(crate) const OUTSIDE_NAME: &str =
    "the name of a function stands inside the parentheses: {name}";

pub(crate) const CHAIN: &str =
    "an operator stands here as an argument; a chain is written (< a b c)";

pub(crate) const INFIX: &str = "the operator stands first: {name}";

pub(crate) const DOUBLE: &str =
    "this list begins with another list; a term has one pair of parentheses, and its first member is an operator or a symbol";

pub(crate) const KIND: &str =
    "this has the wrong sort: a Bool stands where an Int has to, or an Int where a Bool has to";

pub(crate) const KIND_INT: &str = "this is an Int, and a Bool has to stand here, as a comparison";

pub(crate) const KIND_BOOL: &str = "this is a Bool, and an Int has to stand here, as (ite .. 1 0)";

pub(crate) const COLON: &str = "a sort stands after its name, without a colon, as (x Int)";

pub(crate) const NONLINEAR: &str =
    "neither side of this product is built of numerals alone, so it is not linear; where one side has few values, write a case for each";

pub(crate) const MANY: &str =
    "this is the 1,001st declared symbol, and 1,000 is the limit; defined functions are not counted";

pub(crate) const LARGE: &str =
    "written out, with let and define-fun, the assertions of all checks have more than 1,000,000 nodes, or one has more than 2,000 levels";

pub(crate) const DIVISION: &str =
    "div and mod take a numeral that is not 0, as (div x 4), and stand in no definition of sort Int; else q is x divided by 4 where (<= 0 (- x (* 4 q)) 3), and (- x (* 4 q)) is the remainder";

pub(crate) const DIVISIBLE: &str =
    "divisible is written ((_ divisible 4) x), with a numeral of at least 1";

pub(crate) const LEVELS: &str = "this push opens the 10,001st level, and 10,000 is the limit";

pub(crate) const LEVELS_LEFT: &str = "this pop leaves more levels than are open";

pub(crate) const LEAVE_OUT: &str = "{name} is not read; leave it out";

pub(crate) const OPTIMISE: &str =
    "{name} is not read; `princess least` gives least values for a .pri file";

pub(crate) const SORTS: &str = "there is no {name}; the sorts are Int and Bool";

pub(crate) const COMMAND: &str =
    "{name} is no command that is read here; leave it out, or see docs/SMTLIB.md, which lists the commands";

pub(crate) const COMMAND_NEAR: &str =
    "{name} is no command that is read here; did you mean {other}?";

pub(crate) const NAMELESS: &str = "a command begins with its name, as (check-sat)";

pub(crate) const HYPHEN: &str = "write ({other} ..)";

pub(crate) const HYPHEN_CHECK: &str = "write (check-sat)";

pub(crate) const ASSERT_INFIX: &str =
    "assert takes one term, and the operator stands first: (assert {name})";

pub(crate) const ASSERT_OPEN: &str =
    "assert takes one term, and the operator stands first inside its own parentheses, as (assert (> x 3))";

pub(crate) const FORM_ASSERT: &str =
    "assert takes one term; several are joined by and, as (assert (and (> x 3) (< x 9)))";

pub(crate) const FORM_CHECK_SAT: &str = "a check is written (check-sat), without more";

pub(crate) const FORM_ASSUMING: &str =
    "a check of assumptions is written (check-sat-assuming (a (< x 3)))";

pub(crate) const FORM_PUSH: &str = "a level is opened by (push 1); several by their number";

pub(crate) const FORM_POP: &str = "a level is left by (pop 1); several by their number";

pub(crate) const FORM_RESET: &str = "a new beginning is written ({name}), without more";

pub(crate) const FORM_ECHO: &str = "a string is told by (echo \"text\")";

pub(crate) const FORM_KEYWORD: &str = "{name} takes one keyword, as ({name} :name)";

pub(crate) const FORM_VALUE: &str = "values are asked for by (get-value (x (+ x 1)))";

pub(crate) const FORM_ALONE: &str = "this is written ({name}), without more";

pub(crate) const FORM_EXIT: &str = "the end is written (exit), without more";

pub(crate) const FORM_DECLARE_CONST: &str = "a constant is declared as (declare-const x Int)";

pub(crate) const FORM_DECLARE_FUN: &str =
    "a function is declared as (declare-fun f (Int Int) Int), a constant as (declare-fun c () Int)";

pub(crate) const FORM_DEFINE_FUN: &str =
    "a definition is written (define-fun f ((x Int) (y Int)) Int t), a constant's (define-fun c () Int t), and t does not use what it defines";

pub(crate) const FORM_DEFINE_CONST: &str =
    "a constant is defined as (define-const c Int t), and t does not use what it defines";

pub(crate) const FORM_DEFINE_SORT: &str =
    "a sort is defined as (define-sort S () Int), with a name that no sort in force has";

pub(crate) const FORM_DEFINE_REC: &str =
    "a recursive function is defined as (define-fun-rec f ((x Int)) Int t), with arguments of different names, none of them f";

pub(crate) const FORM_DEFINE_RECS: &str =
    "recursive functions are defined as (define-funs-rec ((f ((x Int)) Int) (g ((x Int)) Int)) (t u)), with a term for each";

pub(crate) const FORM: &str = "this {name} is not of its form; docs/SMTLIB.md has the forms";

pub(crate) const SORT_WORD: &str = "the sort is written {other}";

pub(crate) const SORT: &str =
    "this sort is not read here: constants and values of functions are Int or Bool, arguments and bound names are Int; an array is a function";

pub(crate) const LITERAL: &str = "there are no decimals, strings, keywords or # literals in terms";

pub(crate) const NOT_SIGN: &str =
    "not is written (not ..); a ! gives attributes to a term, as (! t :named n)";

pub(crate) const FORM_LET: &str = "a let is written (let ((x t) (y s)) r)";

pub(crate) const FORM_FORALL: &str = "a quantifier is written (forall ((x Int) (y Int)) t)";

pub(crate) const FORM_EXISTS: &str = "a quantifier is written (exists ((x Int) (y Int)) t)";

pub(crate) const LIST: &str =
    "the first member of a term in parentheses is an operator or a declared symbol";
