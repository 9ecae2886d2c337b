// The line `gives`, written.

ghost use Rattle.clause_set.specs.declared.literal.Literal.TheVariants as l;
ghost use Rattle.proof_constraint.specs.Text.{behind, clause_text, divisor_text, dnf_text, gives_text, literal_text, number_text, pair_text, pairs_text, sign_text, sum_text};
ghost use Rattle.proof_tokens.specs.Spellings.{spelled};
ghost use Rattle.proof_tokens.specs.declared.tokens.Token.TheVariants as t;
ghost use Rattle.std.specs.Prelude.{◌≡◌, ◌++◌, cond, codes, true, OnOk, Some};

use clause_set::Literal;
use linear_term::{Memory, Term};
use proof_tokens::put_number;
use sqlite_items::Items;
use std::alloc::Global;

/// Puts the sign before a part of a sum after a text.
fn put_sign(first: bool, minus: bool, out: &mut Vec<u8>) -> Result<(), Memory>
    ensures { OnOk result (out.new.items ≡ out.old.items ++ spelled (sign_text first minus)) }
{
    let sign = match (first, minus) {
        (true, true) => b" -".as_slice(),
        (true, false) => b" ".as_slice(),
        (false, true) => b" - ".as_slice(),
        (false, false) => b" + ".as_slice(),
    };
    out.extend_from_slice(sign)?;
    Ok(())
}

/// Puts a name with its coefficient after a text.
fn put_pair(alloc: Global, first: bool, pair: (u32, i128), out: &mut Vec<u8>) -> Result<(), Memory>
    ensures { OnOk result (out.new.items ≡ out.old.items ++ spelled (pair_text first pair)) }
{
    let size = pair.1.unsigned_abs();
    put_sign(first, pair.1 < 0, out)?;
    if size != 1 {
        put_number(alloc, b"", size, out)?;
        out.extend_from_slice(b"*")?;
    }
    put_number(alloc, b"c", u128::from(pair.0), out)
}

/// Puts a constant after a text.
fn put_constant(alloc: Global, first: bool, k: i128, out: &mut Vec<u8>) -> Result<(), Memory>
    ensures { OnOk result (out.new.items ≡ out.old.items ++ spelled (number_text first k)) }
{
    put_sign(first, k < 0, out)?;
    put_number(alloc, b"", k.unsigned_abs(), out)
}

/// Puts names with their coefficients after a text.
fn put_pairs(alloc: Global, pairs: &[(u32, i128)], out: &mut Vec<u8>) -> Result<(), Memory>
    ensures { OnOk result (out.new.items ≡ out.old.items ++ spelled (pairs_text true pairs.now)) }
{
    let mut first = true;
    for pair in pairs {
        put_pair(alloc, first, *pair, out)?;
        first = false;
    }
    Ok(())
}

/// Puts a linear term after a text.
#[tactic(auto, using(crate::proofs::Written::sum_alone, crate::proofs::Written::sum_more, crate::proofs::Written::sum_zero))]
fn put_sum(alloc: Global, sum: &Term, out: &mut Vec<u8>) -> Result<(), Memory>
    ensures { OnOk result (out.new.items ≡ out.old.items ++ spelled (sum_text sum.now)) }
{
    put_pairs(alloc, sum.pairs(), out)?;
    if sum.len() == 0 {
        return put_constant(alloc, true, sum.constant(), out);
    }
    if sum.constant() != 0 {
        return put_constant(alloc, false, sum.constant(), out);
    }
    Ok(())
}

/// Puts an equation after a text.
#[tactic(auto, using(crate::proofs::Written::equation_written))]
fn put_equation(alloc: Global, sum: &Term, out: &mut Vec<u8>) -> Result<(), Memory>
    ensures { OnOk result (out.new.items ≡ out.old.items ++ spelled (literal_text (l.Eq sum.now))) }
{
    put_sum(alloc, sum, out)?;
    out.extend_from_slice(b" = 0")?;
    Ok(())
}

/// Puts a bound after a text.
#[tactic(auto, using(crate::proofs::Written::bound_written))]
fn put_bound(alloc: Global, sum: &Term, out: &mut Vec<u8>) -> Result<(), Memory>
    ensures { OnOk result (out.new.items ≡ out.old.items ++ spelled (literal_text (l.Geq sum.now))) }
{
    put_sum(alloc, sum, out)?;
    out.extend_from_slice(b" >= 0")?;
    Ok(())
}

/// The word after a divisor.
fn divisor_word(negated: bool) -> &'static [u8]
    ensures { result.now ≡ cond negated (codes " notdivides") (codes " divides") }
{
    if negated {
        b" notdivides".as_slice()
    } else {
        b" divides".as_slice()
    }
}

/// Puts a divisor and its word after a text.
#[tactic(auto, using(crate::proofs::Written::divisor_written))]
fn put_divisor(alloc: Global, size: i128, negated: bool, out: &mut Vec<u8>) -> Result<(), Memory>
    ensures { OnOk result (out.new.items ≡ out.old.items ++ spelled (divisor_text (Some (record { size = size; negated = negated })))) }
{
    put_number(alloc, b" ", size.unsigned_abs(), out)?;
    out.extend_from_slice(divisor_word(negated))?;
    Ok(())
}

/// Puts a divisibility after a text.
#[tactic(auto, using(crate::proofs::Written::div_written))]
fn put_div(alloc: Global, size: i128, sum: &Term, out: &mut Vec<u8>) -> Result<(), Memory>
    ensures { OnOk result (out.new.items ≡ out.old.items ++ spelled (literal_text (l.Div size sum.now))) }
{
    put_divisor(alloc, size, false, out)?;
    put_sum(alloc, sum, out)
}

/// Puts the negation of a divisibility after a text.
#[tactic(auto, using(crate::proofs::Written::ndiv_written))]
fn put_ndiv(alloc: Global, size: i128, sum: &Term, out: &mut Vec<u8>) -> Result<(), Memory>
    ensures { OnOk result (out.new.items ≡ out.old.items ++ spelled (literal_text (l.NDiv size sum.now))) }
{
    put_divisor(alloc, size, true, out)?;
    put_sum(alloc, sum, out)
}

/// Puts a literal after a text.
fn put_literal(alloc: Global, literal: &Literal, out: &mut Vec<u8>) -> Result<(), Memory>
    ensures { OnOk result (out.new.items ≡ out.old.items ++ spelled (literal_text literal.now)) }
{
    match literal {
        Literal::Eq(sum) => put_equation(alloc, sum, out),
        Literal::Geq(sum) => put_bound(alloc, sum, out),
        Literal::Div(size, sum) => put_div(alloc, *size, sum, out),
        Literal::NDiv(size, sum) => put_ndiv(alloc, *size, sum, out),
    }
}

/// Puts literals, each after ` &`, after a text.
fn put_later_literals(alloc: Global, literals: &[Literal], out: &mut Vec<u8>) -> Result<(), Memory>
    ensures { OnOk result (out.new.items ≡ out.old.items ++ spelled (behind literal_text t.And literals.now)) }
{
    for literal in literals {
        out.extend_from_slice(b" &")?;
        put_literal(alloc, literal, out)?;
    }
    Ok(())
}

/// Puts a conjunction after a text.
#[tactic(auto, using(crate::proofs::Written::clause_whole))]
fn put_clause(alloc: Global, literals: &[Literal], out: &mut Vec<u8>) -> Result<(), Memory>
    ensures { OnOk result (out.new.items ≡ out.old.items ++ spelled (clause_text literals.now)) }
{
    let Some((first, more)) = literals.split_first() else {
        out.extend_from_slice(b" true")?;
        return Ok(());
    };
    put_literal(alloc, first, out)?;
    put_later_literals(alloc, more, out)
}

/// Puts conjunctions, each after ` |`, after a text.
fn put_later_clauses(
    alloc: Global,
    clauses: &[Items<Literal>],
    out: &mut Vec<u8>,
) -> Result<(), Memory>
    ensures { OnOk result (out.new.items ≡ out.old.items ++ spelled (behind clause_text t.Or clauses.now)) }
{
    for clause in clauses {
        out.extend_from_slice(b" |")?;
        put_clause(alloc, clause.as_slice(), out)?;
    }
    Ok(())
}

/// Puts a disjunction of conjunctions after a text.
#[tactic(auto, using(crate::proofs::Written::dnf_whole))]
fn put_clauses(alloc: Global, clauses: &[Items<Literal>], out: &mut Vec<u8>) -> Result<(), Memory>
    ensures { OnOk result (out.new.items ≡ out.old.items ++ spelled (dnf_text clauses.now)) }
{
    let Some((first, more)) = clauses.split_first() else {
        out.extend_from_slice(b" false")?;
        return Ok(());
    };
    put_clause(alloc, first.as_slice(), out)?;
    put_later_clauses(alloc, more, out)
}

/// Writes the line `gives` with these clauses.
#[tactic(auto, using(crate::proofs::Written::line_whole))]
pub fn write_given(
    alloc: Global,
    clauses: &[Items<Literal>],
    out: &mut Vec<u8>,
) -> Result<(), Memory>
    ensures { OnOk result (out.new.items ≡ out.old.items ++ spelled (gives_text clauses.now)) }
{
    out.extend_from_slice(b"gives")?;
    put_clauses(alloc, clauses, out)?;
    out.extend_from_slice(b"\n")?;
    Ok(())
}
