// What the program says of itself.

/// What `princess --version` prints.
pub(crate) const VERSION: &str = "version: 0.9.0\n";

/// What `princess --help` prints.
pub(crate) const HELP: &str = "\
usage: princess solve FILE [--budget N] [--proof | --short] [--calculus] [--counterexample]
                                                             whether the problem of a file is valid
       princess check FILE PROOF                             whether a text proves something of the problem
       princess elim FILE [--budget N]                       the exact constraint of a problem of arithmetic
       princess find FILE [--budget N] [--proof]             values of the existential constants at which a problem holds
       princess least FILE TERM [--budget N]                 the least value of a term over all solutions
       princess smt FILE [--budget N]                        a script of SMT-LIB: sat, unsat or unknown for each check-sat
       princess smt - [--budget N]                           a dialogue: each command of the standard input is answered as it comes
       princess drill COUNT [--budget N]                     answers a made problem of COUNT parts, 1 to 1,000
       princess help | --help | -h | --version               this text; the version
       princess COMMAND --help                               this text
       princess solve --vacuous FILE ..                      also whether its assumptions contradict one another
       princess solve --proof-to PROOF FILE ..               the proof goes to a file of its own; of find too
       princess smt --unused FILE ..                         also which named assertions its checks do not need
       princess --quiet ..                                   nothing on standard error
       princess --stats ..                                   what the run did, on standard error
       princess --progress ..                                how far the run is, on standard error
       princess --json ..                                    one object in place of the text (docs/JSON.md)

N is from 1 to 1,000,000,000, and 50,000,000 where none is given. PROOF may be the whole output of `solve --proof`,
`solve --short` or `find --proof`. The word - as FILE or PROOF is the standard input; ./- is a file of that name.
--calculus asks for the canonical run alone, without the clause search that takes over where that run is long.
--counterexample shows values that refute a problem of arithmetic too, where it has no existential constants.

Status  Standard output                      Meaning
0       VALID ..                             holds; with existential constants: at SOME values, those of the line constraint
0       solution: ..                         find: the problem holds at these values of its existential constants
0       constraint: F                        elim: the problem holds exactly where F is true, which may be nowhere
0       CHECKED VALID .., CHECKED INVALID    check: the text proves what the line says
0       least: N, at: .. ; unbounded         least: the least value of TERM and where it is taken; or there is none
0       unsat, sat                           smt: a line for each check-sat, none of them unknown
1       INVALID                              does not hold, at no values of the existential constants; behind
                                             counterexample: values and a table at which it is false
2       UNKNOWN: steps|overflow|branch       no answer; standard error says what helps
2       .. unknown ..                        smt: some check has no answer
3       refused: NAME at N                   the file is refused; standard error has the line
4       refused proof: ..                    the text proves nothing of the problem
5       refused words                        the words name no job
6, 7    nothing; a part                      a file could not be read; standard output failed
8, 10   nothing                              memory was wanting; the words could not be read
9       refused: file too long               a problem has at most 1 MiB, a proof 64 MiB

Status 0 alone does not say that a problem is valid. A script that wants that compares the line:
    [ \"$(princess solve FILE)\" = VALID ]        no line behind it: no existential constants, no interpolants
    [ \"$(princess check FILE PROOF | head -n 1)\" = \"CHECKED VALID\" ]
PRINCESS_QUIET=1 in the environment is the same as --quiet.
";
