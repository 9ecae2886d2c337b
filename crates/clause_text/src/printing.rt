// The lines of a clause proof, written.

ghost use Rattle.clause_proof.specs.declared.line.Line.TheVariants as l;
ghost use Rattle.clause_text.specs.Literals.{factor_text, literal_text};
ghost use Rattle.clause_text.specs.Lines.{line_text};
ghost use Rattle.clause_text.specs.Shapes.{by};
ghost use Rattle.clause_text.specs.Words.{word_text};
ghost use Rattle.std.specs.Fmt.{decimal};
ghost use Rattle.std.specs.Prelude.{◌≡◌, ◌++◌, ◌∷◌, [], OnOk};
ghost use Rattle.clause_words.specs.Spelling.{integer_text};
ghost use Rattle.clause_words.specs.Terms.{term_text};
ghost use Rattle.clause_words.specs.Texts.{end_text, field_text, list_text, list_to_text};
ghost use Rattle.clause_words.specs.Tokens.{spelled};

use crate::line_word::{LineWord, word_text};
use crate::literals::{put_factor, put_literal};
use clause_proof::{Factor, Line, Literal};
use clause_words::{put_integer, put_number, put_term};
use linear_term::{Memory, Term};
use std::alloc::Global;

/// Puts a number after a blank.
#[tactic(auto, using(crate::proofs::Written::texts))]
fn number(alloc: Global, n: u32, out: &mut Vec<u8>) -> Result<(), Memory>
    ensures { OnOk result (out.new.items ≡ out.old.items ++ spelled (field_text decimal n)) }
{
    out.push(b' ')?;
    put_number(alloc, n, out)
}

/// Puts a literal after a blank.
#[tactic(auto, using(crate::proofs::Written::texts))]
fn literal(alloc: Global, l: Literal, out: &mut Vec<u8>) -> Result<(), Memory>
    ensures { OnOk result (out.new.items ≡ out.old.items ++ spelled (field_text literal_text l)) }
{
    out.push(b' ')?;
    put_literal(alloc, l, out)
}

/// Puts an integer after a blank.
#[tactic(auto, using(crate::proofs::Written::texts))]
fn integer(alloc: Global, k: i128, out: &mut Vec<u8>) -> Result<(), Memory>
    ensures { OnOk result (out.new.items ≡ out.old.items ++ spelled (field_text integer_text k)) }
{
    out.push(b' ')?;
    put_integer(alloc, k, out)
}

/// Puts a term after a blank.
#[tactic(auto, using(crate::proofs::Written::texts))]
fn term(alloc: Global, t: &Term, out: &mut Vec<u8>) -> Result<(), Memory>
    ensures { OnOk result (out.new.items ≡ out.old.items ++ spelled (field_text term_text t.now)) }
{
    out.push(b' ')?;
    put_term(alloc, t, out)
}

/// Puts the end of a line.
#[tactic(auto, using(crate::proofs::Written::texts))]
fn line_end(out: &mut Vec<u8>) -> Result<(), Memory>
    ensures { OnOk result (out.new.items ≡ out.old.items ++ 10 ∷ []) }
{
    out.push(b'\n')?;
    Ok(())
}

/// Puts numbers, each after a blank, and the end of the line.
#[tactic(auto, using(crate::proofs::Written::texts))]
fn numbers(alloc: Global, ns: &[u32], out: &mut Vec<u8>) -> Result<(), Memory>
    ensures { OnOk result (out.new.items ≡ out.old.items ++ spelled (list_text decimal ns.now)) }
{
    for n in ns {
        number(alloc, *n, out)?;
    }
    line_end(out)
}

/// Puts literals, each after a blank, and the end of the line.
#[tactic(auto, using(crate::proofs::Written::texts))]
fn literals(alloc: Global, ls: &[Literal], out: &mut Vec<u8>) -> Result<(), Memory>
    ensures { OnOk result (out.new.items ≡ out.old.items ++ spelled (list_text literal_text ls.now)) }
{
    for l in ls {
        literal(alloc, *l, out)?;
    }
    line_end(out)
}

/// Puts literals, each after a blank, and the word `by`.
#[tactic(auto, using(crate::proofs::Written::texts))]
fn literals_by(alloc: Global, ls: &[Literal], out: &mut Vec<u8>) -> Result<(), Memory>
    ensures { OnOk result (out.new.items ≡ out.old.items ++ spelled (list_to_text by literal_text ls.now)) }
{
    for l in ls {
        literal(alloc, *l, out)?;
    }
    out.extend_from_slice(b" by")?;
    Ok(())
}

/// Puts factors, each after a blank, and the end of the line.
#[tactic(auto, using(crate::proofs::Written::texts))]
fn factors(alloc: Global, xs: &[Factor], out: &mut Vec<u8>) -> Result<(), Memory>
    ensures { OnOk result (out.new.items ≡ out.old.items ++ spelled (list_text factor_text xs.now)) }
{
    for x in xs {
        out.push(b' ')?;
        put_factor(alloc, *x, out)?;
    }
    line_end(out)
}

/// Puts terms, each after a blank, and the end of the line.
#[tactic(auto, using(crate::proofs::Written::texts))]
fn terms(alloc: Global, ts: &[Term], out: &mut Vec<u8>) -> Result<(), Memory>
    ensures { OnOk result (out.new.items ≡ out.old.items ++ spelled (list_text term_text ts.now)) }
{
    for t in ts {
        term(alloc, t, out)?;
    }
    line_end(out)
}

/// Puts the word of a line.
#[tactic(auto, using(crate::proofs::Written::texts))]
fn word(word: LineWord, out: &mut Vec<u8>) -> Result<(), Memory>
    ensures { OnOk result (out.new.items ≡ out.old.items ++ word_text word) }
{
    out.extend_from_slice(word_text(word))?;
    Ok(())
}

#[tactic(auto, using(crate::proofs::Written::texts))]
fn open(alloc: Global, variable: u32, members: &[Literal], out: &mut Vec<u8>) -> Result<(), Memory>
    ensures { OnOk result (out.new.items ≡ out.old.items ++ spelled (line_text (l.Open variable members.now))) }
{
    word(LineWord::Open, out)?;
    number(alloc, variable, out)?;
    literals(alloc, members, out)
}

#[tactic(auto, using(crate::proofs::Written::texts))]
fn apply(alloc: Global, function: u32, args: &[Term], out: &mut Vec<u8>) -> Result<(), Memory>
    ensures { OnOk result (out.new.items ≡ out.old.items ++ spelled (line_text (l.Apply function args.now))) }
{
    word(LineWord::Apply, out)?;
    number(alloc, function, out)?;
    terms(alloc, args, out)
}

#[tactic(auto, using(crate::proofs::Written::texts))]
fn read(
    alloc: Global,
    variable: u32,
    applications: &[u32],
    made: Literal,
    out: &mut Vec<u8>,
) -> Result<(), Memory>
    ensures { OnOk result (out.new.items ≡ out.old.items ++ spelled (line_text (l.Read variable applications.now made))) }
{
    word(LineWord::Read, out)?;
    number(alloc, variable, out)?;
    literal(alloc, made, out)?;
    numbers(alloc, applications, out)
}

#[tactic(auto, using(crate::proofs::Written::texts))]
fn instance(
    alloc: Global,
    variable: u32,
    args: &[Term],
    made: Literal,
    out: &mut Vec<u8>,
) -> Result<(), Memory>
    ensures { OnOk result (out.new.items ≡ out.old.items ++ spelled (line_text (l.Instance variable args.now made))) }
{
    word(LineWord::Instance, out)?;
    number(alloc, variable, out)?;
    literal(alloc, made, out)?;
    terms(alloc, args, out)
}

#[tactic(auto, using(crate::proofs::Written::texts))]
fn inequality(alloc: Global, t: &Term, out: &mut Vec<u8>) -> Result<(), Memory>
    ensures { OnOk result (out.new.items ≡ out.old.items ++ spelled (line_text (l.Inequality t.now))) }
{
    word(LineWord::Geq, out)?;
    term(alloc, t, out)?;
    line_end(out)
}

#[tactic(auto, using(crate::proofs::Written::texts))]
fn equation(alloc: Global, t: &Term, out: &mut Vec<u8>) -> Result<(), Memory>
    ensures { OnOk result (out.new.items ≡ out.old.items ++ spelled (line_text (l.Equation t.now))) }
{
    word(LineWord::Eq, out)?;
    term(alloc, t, out)?;
    line_end(out)
}

#[tactic(auto, using(crate::proofs::Written::texts))]
fn predicate(alloc: Global, name: u32, args: &[Term], out: &mut Vec<u8>) -> Result<(), Memory>
    ensures { OnOk result (out.new.items ≡ out.old.items ++ spelled (line_text (l.Predicate name args.now))) }
{
    word(LineWord::Pred, out)?;
    number(alloc, name, out)?;
    terms(alloc, args, out)
}

#[tactic(auto, using(crate::proofs::Written::texts))]
fn split(
    alloc: Global,
    variable: u32,
    above: Literal,
    below: Literal,
    out: &mut Vec<u8>,
) -> Result<(), Memory>
    ensures { OnOk result (out.new.items ≡ out.old.items ++ spelled (line_text (l.Split variable above below))) }
{
    word(LineWord::Split, out)?;
    number(alloc, variable, out)?;
    literal(alloc, above, out)?;
    literal(alloc, below, out)?;
    line_end(out)
}

#[tactic(auto, using(crate::proofs::Written::texts))]
fn sum(alloc: Global, xs: &[Factor], out: &mut Vec<u8>) -> Result<(), Memory>
    ensures { OnOk result (out.new.items ≡ out.old.items ++ spelled (line_text (l.Sum xs.now))) }
{
    word(LineWord::Sum, out)?;
    factors(alloc, xs, out)
}

#[tactic(auto, using(crate::proofs::Written::texts))]
fn pair(
    alloc: Global,
    first: u32,
    second: u32,
    equations: &[Literal],
    made: Literal,
    out: &mut Vec<u8>,
) -> Result<(), Memory>
    ensures { OnOk result (out.new.items ≡ out.old.items ++ spelled (line_text (l.Pair first second equations.now made))) }
{
    word(LineWord::Pair, out)?;
    number(alloc, first, out)?;
    number(alloc, second, out)?;
    literal(alloc, made, out)?;
    literals(alloc, equations, out)
}

#[tactic(auto, using(crate::proofs::Written::texts))]
fn predicate_pair(
    alloc: Global,
    first: u32,
    second: u32,
    equations: &[Literal],
    out: &mut Vec<u8>,
) -> Result<(), Memory>
    ensures { OnOk result (out.new.items ≡ out.old.items ++ spelled (line_text (l.PredicatePair first second equations.now))) }
{
    word(LineWord::PredPair, out)?;
    number(alloc, first, out)?;
    number(alloc, second, out)?;
    literals(alloc, equations, out)
}

#[tactic(auto, using(crate::proofs::Written::texts))]
fn divide(
    alloc: Global,
    divisor: i128,
    t: &Term,
    least: Literal,
    most: Literal,
    out: &mut Vec<u8>,
) -> Result<(), Memory>
    ensures { OnOk result (out.new.items ≡ out.old.items ++ spelled (line_text (l.Divide divisor t.now least most))) }
{
    word(LineWord::Divide, out)?;
    integer(alloc, divisor, out)?;
    term(alloc, t, out)?;
    literal(alloc, least, out)?;
    literal(alloc, most, out)?;
    line_end(out)
}

#[tactic(auto, using(crate::proofs::Written::by_written))]
fn resolve(
    alloc: Global,
    clause: &[Literal],
    hints: &[u32],
    out: &mut Vec<u8>,
) -> Result<(), Memory>
    ensures { OnOk result (out.new.items ≡ out.old.items ++ spelled (line_text (l.Resolve clause.now hints.now))) }
{
    word(LineWord::Resolve, out)?;
    literals_by(alloc, clause, out)?;
    numbers(alloc, hints, out)
}

#[tactic(auto, using(crate::proofs::Written::texts))]
fn delete(alloc: Global, clauses: &[u32], out: &mut Vec<u8>) -> Result<(), Memory>
    ensures { OnOk result (out.new.items ≡ out.old.items ++ spelled (line_text (l.Delete clauses.now))) }
{
    word(LineWord::Delete, out)?;
    numbers(alloc, clauses, out)
}

/// Writes a line.
pub fn print_line(alloc: Global, line: &Line, out: &mut Vec<u8>) -> Result<(), Memory>
    ensures { OnOk result (out.new.items ≡ out.old.items ++ spelled (line_text line.now)) }
{
    match line {
        Line::Open(i, ms) => open(alloc, *i, ms.as_slice(), out),
        Line::Apply(f, ts) => apply(alloc, *f, ts.as_slice(), out),
        Line::Read(i, apps, m) => read(alloc, *i, apps.as_slice(), *m, out),
        Line::Instance(i, ts, m) => instance(alloc, *i, ts.as_slice(), *m, out),
        Line::Inequality(t) => inequality(alloc, t, out),
        Line::Equation(t) => equation(alloc, t, out),
        Line::Predicate(p, ts) => predicate(alloc, *p, ts.as_slice(), out),
        Line::Split(i, g, h) => split(alloc, *i, *g, *h, out),
        Line::Sum(xs) => sum(alloc, xs.as_slice(), out),
        Line::Pair(a, b, es, r) => pair(alloc, *a, *b, es.as_slice(), *r, out),
        Line::PredicatePair(i, j, es) => predicate_pair(alloc, *i, *j, es.as_slice(), out),
        Line::Divide(d, t, g, h) => divide(alloc, *d, t, *g, *h, out),
        Line::Resolve(c, hints) => resolve(alloc, c.as_slice(), hints.as_slice(), out),
        Line::Delete(hints) => delete(alloc, hints.as_slice(), out),
    }
}
