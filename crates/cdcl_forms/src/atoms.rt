// Canonical atoms: what a formula is with terms for its names. Of an atom and its negation one alone is a definition, so that
// an atom is one variable wherever it occurs.

use crate::terms::{List, Term, Terms};
use crate::tree::{Node, Tree};
use cdcl_fuel::{Fault, floor_div, sub};

/// What a variable stands for. The coefficients of an atom have no common divisor, and the first is positive.
#[derive(Clone, Copy)]
pub enum Definition {
    Always,
    AtLeastZero(Term),
    IsZero(Term),
    Predicate(u32, List),
    /// A formula of the root with a term for each of its names.
    Closure(u32, List),
}

/// A definition, or its negation.
#[derive(Clone, Copy)]
pub struct Signed {
    pub definition: Definition,
    pub positive: bool,
}

/// What the truth of a literal says of a term: that it is 0, or at least 0.
#[derive(Clone, Copy)]
pub struct Fact {
    pub term: Term,
    pub is_equation: bool,
}

pub(crate) fn constant(truth: bool) -> Signed {
    Signed {
        definition: Definition::Always,
        positive: truth,
    }
}

/// -t - 1.
fn other_side(terms: &mut Terms, t: Term) -> Result<Term, Fault> {
    let t = terms.minus(t)?;
    Ok(Term {
        linear: t.linear,
        constant: sub(t.constant, 1)?,
    })
}

/// The literal of t >= 0.
pub(crate) fn inequality(terms: &mut Terms, t: Term) -> Result<Signed, Fault> {
    if t.linear == 0 {
        return Ok(constant(t.constant >= 0));
    }
    let by = terms.divisor(t.linear)?;
    let t = Term {
        linear: terms.primitive(t.linear)?,
        constant: floor_div(t.constant, by)?,
    };
    if terms.leads_positive(t.linear)? {
        return Ok(Signed {
            definition: Definition::AtLeastZero(t),
            positive: true,
        });
    }
    Ok(Signed {
        definition: Definition::AtLeastZero(other_side(terms, t)?),
        positive: false,
    })
}

/// The literal of t = 0.
pub(crate) fn equation(terms: &mut Terms, t: Term) -> Result<Signed, Fault> {
    if t.linear == 0 {
        return Ok(constant(t.constant == 0));
    }
    let by = terms.divisor(t.linear)?;
    if t.constant.checked_rem(by).ok_or(Fault::Overflow)? != 0 {
        return Ok(constant(false));
    }
    let t = Term {
        linear: terms.primitive(t.linear)?,
        constant: t.constant.checked_div(by).ok_or(Fault::Overflow)?,
    };
    let t = if terms.leads_positive(t.linear)? {
        t
    } else {
        terms.minus(t)?
    };
    Ok(Signed {
        definition: Definition::IsZero(t),
        positive: true,
    })
}

pub(crate) fn other(x: Signed) -> Signed {
    Signed {
        definition: x.definition,
        positive: !x.positive,
    }
}

/// What a conjunction or a disjunction of one formula stands for.
fn inner(tree: &Tree, node: u32) -> Result<u32, Fault> {
    let mut node = node;
    for _ in 0..u64::MAX {
        match tree.node(node)? {
            Node::And(span) | Node::Or(span) if span.count == 1 => node = tree.member(span, 0)?,
            _ => return Ok(node),
        }
    }
    Err(Fault::Broken)
}

/// The literal of a formula with the terms of a list for its names.
pub(crate) fn literal_of(
    terms: &mut Terms,
    tree: &Tree,
    node: u32,
    list: List,
) -> Result<Signed, Fault> {
    let node = inner(tree, node)?;
    match tree.node(node)? {
        Node::Equation(t) => {
            let t = terms.put_in(t, list)?;
            equation(terms, t)
        }
        Node::Disequation(t) => {
            let t = terms.put_in(t, list)?;
            Ok(other(equation(terms, t)?))
        }
        Node::Inequality(t) => {
            let t = terms.put_in(t, list)?;
            inequality(terms, t)
        }
        Node::Predicate(p, ts) => Ok(Signed {
            definition: Definition::Predicate(p, terms.put_in_all(ts, list)?),
            positive: true,
        }),
        Node::NotPredicate(p, ts) => Ok(Signed {
            definition: Definition::Predicate(p, terms.put_in_all(ts, list)?),
            positive: false,
        }),
        Node::And(span) if span.count == 0 => Ok(constant(true)),
        Node::Or(span) if span.count == 0 => Ok(constant(false)),
        _ => Ok(Signed {
            definition: Definition::Closure(node, list),
            positive: true,
        }),
    }
}

/// What a definition that is true, or one that is false, says of a term; None where it says nothing linear.
pub(crate) fn fact_of(
    terms: &mut Terms,
    definition: Definition,
    truth: bool,
) -> Result<Option<Fact>, Fault> {
    match definition {
        Definition::AtLeastZero(t) => {
            let term = if truth { t } else { other_side(terms, t)? };
            Ok(Some(Fact {
                term,
                is_equation: false,
            }))
        }
        Definition::IsZero(term) if truth => Ok(Some(Fact {
            term,
            is_equation: true,
        })),
        _ => Ok(None),
    }
}
