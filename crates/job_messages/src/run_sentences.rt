// What is said of searches without an answer, of refused proofs, of words and of files. Names in braces stand for what is known.

pub(crate) const STEPS_STEPS: &str =
    "the budget of {name} steps ended before an answer; --budget N gives up to 1,000,000,000. What helps more: fewer disjunctions, fewer quantified assumptions, fewer uses of one function or predicate, only the assumptions that are needed (docs/GUIDE.md, UNKNOWN)";

pub(crate) const STEPS_AT_ONCE: &str =
    "after {name} steps one rule asked for more than the {other} steps that were left of the budget, all at once. A rule asks for that where it multiplies long constraints out, or has a case for each value of a large coefficient or divisor. What helps: fewer quantifiers over one constraint, smaller coefficients and divisors (docs/GUIDE.md, UNKNOWN)";

pub(crate) const GREATEST_NUMBER: &str =
    "the greatest number of the file; the larger coefficients and divisors are, the more cases a rule has";

pub(crate) const RUN_TOOK: &str = "the canonical run took ";

pub(crate) const SEARCH_TOOK: &str = "the clause search took ";

pub(crate) const OVERFLOW_NUMBER: &str =
    "a number left the range from -(2^127 - 1) to 2^127 - 1, and no larger budget helps; smaller coefficients do, and fewer equations with large ones";

pub(crate) const BRANCH_LENGTH: &str =
    "a branch of the proof would have more than 2,000 nodes, and no larger budget helps; fewer names below one quantifier do, and only the assumptions that are needed";

pub(crate) const UNKNOWN_CHECK: &str =
    "a check has no answer: its budget of {name} steps ended (--budget N gives up to 1,000,000,000), a number left the range from -(2^127 - 1) to 2^127 - 1, or a branch of the proof grew past 2,000 nodes";

pub(crate) const INTERPOLANT_STEPS: &str =
    "not found: the budget of {name} steps ended; --budget N gives up to 1,000,000,000";

pub(crate) const INTERPOLANT_OVERFLOW: &str =
    "not found: a number left the range from -(2^127 - 1) to 2^127 - 1";

pub(crate) const INTERPOLANT_SYMBOLS: &str =
    "not found: each side has a predicate or a function that the other has not";

pub(crate) const INTERPOLANT_BRANCH: &str =
    "not found: a branch of its proof would have more than 2,000 nodes";

pub(crate) const INTERPOLANT_LARGE: &str =
    "not found: what is to be proved of it has more than 1,000,000 nodes or more than 2,000 levels";

pub(crate) const INTERPOLANT_PLAIN: &str =
    "none to look for: a component of the problem is true by itself, so the sides need not contradict each other";

pub(crate) const PRI: &str =
    "this is a .pri file, which `princess solve` reads; `smt` reads scripts of SMT-LIB";

pub(crate) const EMPTY_TYPE: &str =
    "this type has no values, since {name} is more than {other}; with such a universal constant every problem holds, with such an existential one none does";

pub(crate) const NO_CHECK: &str = "the script has no (check-sat), so it asks nothing";

pub(crate) const UNASKED_ASSERTION: &str =
    "no (check-sat) stands after this assertion, so nothing is asked of it";

pub(crate) const VACUITY_NO_ASSUMPTIONS: &str =
    "the problem is no implication, as A -> B, so it has no assumptions to ask about";

pub(crate) const VACUITY_INTENDED: &str =
    "the conclusion is false, so VALID itself says that the assumptions before this -> contradict one another";

pub(crate) const VACUITY_CONSISTENT: &str =
    "the assumptions before this -> do not contradict one another";

pub(crate) const VACUITY_CONTRADICTION: &str =
    "the assumptions before this -> contradict one another, so the problem holds whatever is concluded";

pub(crate) const VACUITY_AT_SOME: &str =
    "at some values of the existential constants the assumptions before this -> contradict one another, so there the problem holds whatever is concluded";

pub(crate) const VACUITY_UNKNOWN: &str =
    "whether the assumptions before this -> contradict one another was not found within the budget and the limits";

pub(crate) const UNUSED_ASSERTION: &str =
    "each check that is unsat is unsat without this assertion, too";

pub(crate) const PROOF_SYNTAX: &str =
    "no text of a proof goes on with this; docs/PROOFS.md has the grammar";

pub(crate) const PROOF_SYNTAX_END: &str =
    "the text of the proof ends too early; each of its lines ends with a line feed";

pub(crate) const PROOF_SYNTAX_BEGIN: &str =
    "this is no proof: one begins with princess-proof 1, 2 or 3, and `solve FILE --proof` prints one at VALID and INVALID";

pub(crate) const PROOF_DEEP: &str = "this node is on level 2,001, and 2,000 is the limit";

pub(crate) const PROOF_NODE: &str =
    "this is not what the rules give here for the problem in {name}";

pub(crate) const PROOF_CONCLUSION: &str =
    "the conclusion does not follow from the constraint of the proof, for the problem in {name}";

pub(crate) const PROOF_RANGE: &str =
    "a number leaves the range from -(2^127 - 1) to 2^127 - 1 in the check of this node";

pub(crate) const PROOF_COST: &str =
    "the check of this node charges more than the line charges of the proof says";

pub(crate) const PROOF_CLAUSE_LINE: &str =
    "this line does not have what it needs, so it makes nothing; docs/PROOFS.md has the table of lines";

pub(crate) const PROOF_CLAUSE_VALUES: &str =
    "a proof has one value for each existential constant of {name}";

pub(crate) const PROOF_CLAUSE_ROOT: &str =
    "this literal does not stand for the formula of {name} at these values";

pub(crate) const PROOF_CLAUSE_END: &str =
    "the proof ends here, and its last clause is not the empty one";

pub(crate) const PROOF_CLAUSE_RANGE: &str =
    "a number of this line leaves the range from -(2^127 - 1) to 2^127 - 1";

pub(crate) const PROOF_CLAUSE_COST: &str =
    "up to this line the check charges more than the line charges of the proof says";

pub(crate) const PROOF_CLAUSE_PREPARATION: &str =
    "the preparation of the formula charges more than the line charges of the proof says";

pub(crate) const WORDS_NONE: &str = "no command is given";

pub(crate) const WORDS_COMMAND: &str = "there is no command {name}";

pub(crate) const WORDS_COMMAND_NEAR: &str = "there is no command {name}; did you mean {other}?";

pub(crate) const WORDS_FILE_MISSING: &str = "{name} needs a file";

pub(crate) const WORDS_PROOF_MISSING: &str = "check needs two files: the problem and the proof";

pub(crate) const WORDS_TERM_MISSING: &str =
    "least needs a file and a term, as princess least FILE \"a + 2*b\"";

pub(crate) const WORDS_TERM_MANY: &str =
    "least takes a file and a term that is one word; put quotes round it, as princess least FILE \"a + 2*b\"";

pub(crate) const WORDS_TERM_DASH: &str =
    "there is no option {other} of least; before a term that begins with - stands the word --, as princess least FILE -- -a";

pub(crate) const WORDS_COUNT_MISSING: &str = "drill needs a count, from 1 to 1,000";

pub(crate) const WORDS_TOO_MANY: &str = "{name} takes fewer files";

pub(crate) const WORDS_QUIET: &str =
    "--quiet stands before the command, as princess --quiet {name} ..";

pub(crate) const WORDS_OPTION: &str = "there is no option {other} of {name}";

pub(crate) const WORDS_OPTION_NEAR: &str =
    "there is no option {other} of {name}; did you mean {token}?";

pub(crate) const WORDS_FIRST: &str = "the command comes first, and its options after it";

pub(crate) const WORDS_TWICE: &str = "{other} is given twice";

pub(crate) const WORDS_BOTH: &str =
    "--proof and --short ask for two forms of one proof; give one of them";

pub(crate) const WORDS_PROOF_FILE: &str =
    "--proof-to takes the name of a file, as in --proof-to FILE";

pub(crate) const WORDS_BUDGET: &str = "--budget takes a number from 1 to 1,000,000,000";

pub(crate) const WORDS_COUNT: &str = "drill takes a count from 1 to 1,000";

pub(crate) const WORDS_OTHER: &str = "these words name no job";

pub(crate) const WORDS_HELP: &str = "princess --help shows the commands and their options";

pub(crate) const PLACE_LOST: &str =
    "the place is byte {name}, counted from 0; the text is gone, so its line cannot be shown";

pub(crate) const PLACE_NODE: &str =
    "the place is node {name}; the text is gone, so its line cannot be shown";

pub(crate) const FILE_MISSING: &str = "there is no such file";

pub(crate) const FILE_FOLDER: &str = "this is a folder";

pub(crate) const FILE_FORBIDDEN: &str = "it may not be read";

pub(crate) const FILE_UNREAD: &str = "it could not be read";

pub(crate) const FILE_LONG: &str = "the file has more than {name} bytes, which is the limit";

pub(crate) const OUTPUT_FAILED: &str = "standard output took no more, so the answer is not whole";

pub(crate) const MEMORY_WANTING: &str = "there was not enough memory for an answer";

pub(crate) const WORDS_UNREAD_SYSTEM: &str =
    "the words of the command line could not be read from the system";
