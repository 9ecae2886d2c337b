// Formulas of the calculus, with what is always true or false folded away.

use cdcl_fuel::Fault;
use formula::{Core, Shared};
use linear_term::{Term, TermFault, in_range};
use sqlite_items::Items;
use std::alloc::Global;

pub(crate) fn fault_of(fault: TermFault) -> Fault {
    match fault {
        TermFault::Overflow(_) => Fault::Overflow,
        TermFault::Memory => Fault::Memory,
    }
}

pub(crate) fn constant(alloc: Global, truth: bool) -> Core {
    let none = Items::new(alloc);
    if truth {
        Core::And(none)
    } else {
        Core::Or(none)
    }
}

pub(crate) fn is_true(f: &Core) -> bool {
    match f {
        Core::And(members) => members.is_empty(),
        _ => false,
    }
}

pub(crate) fn is_false(f: &Core) -> bool {
    match f {
        Core::Or(members) => members.is_empty(),
        _ => false,
    }
}

pub(crate) fn is_constant(f: &Core) -> bool {
    is_true(f) || is_false(f)
}

/// The only member of a list, or the list's conjunction or disjunction.
fn joined(members: Items<Core>, is_and: bool) -> Core {
    let mut members = members;
    if members.len() == 1
        && let Some(only) = members.pop()
    {
        return only;
    }
    if is_and {
        Core::And(members)
    } else {
        Core::Or(members)
    }
}

/// A list of members of which none is constant, and whether one decided all.
#[derive(Drop)]
pub(crate) struct Members {
    alloc: Global,
    members: Items<Core>,
    is_and: bool,
    pub(crate) decided: bool,
}

impl Members {
    pub(crate) fn new(alloc: Global, is_and: bool) -> Members {
        Members {
            alloc,
            members: Items::new(alloc),
            is_and,
            decided: false,
        }
    }

    pub(crate) fn push(&mut self, f: Core) -> Result<(), Fault> {
        let decisive = if self.is_and {
            is_false(&f)
        } else {
            is_true(&f)
        };
        if decisive {
            self.decided = true;
        } else if !is_constant(&f) {
            self.members.push(f)?;
        }
        Ok(())
    }

    pub(crate) fn finish(self) -> Core {
        if self.decided {
            return constant(self.alloc, !self.is_and);
        }
        joined(self.members, self.is_and)
    }
}

pub(crate) fn equation(alloc: Global, t: Term) -> Core {
    if t.len() == 0 {
        constant(alloc, t.constant() == 0)
    } else {
        Core::Eq(t)
    }
}

pub(crate) fn disequation(alloc: Global, t: Term) -> Core {
    if t.len() == 0 {
        constant(alloc, t.constant() != 0)
    } else {
        Core::Neq(t)
    }
}

pub(crate) fn inequality(alloc: Global, t: Term) -> Core {
    if t.len() == 0 {
        constant(alloc, t.constant() >= 0)
    } else {
        Core::Geq(t)
    }
}

/// For-all or for-some of a body, which is left alone where the body is constant.
pub(crate) fn quantified(alloc: Global, body: Core, is_forall: bool) -> Result<Core, Fault> {
    if is_constant(&body) {
        return Ok(body);
    }
    let body = Shared::new(alloc, body)?;
    Ok(if is_forall {
        Core::Forall(body)
    } else {
        Core::Exists(body)
    })
}

pub(crate) fn number(alloc: Global, k: i128) -> Result<Term, Fault> {
    if in_range(k) {
        Ok(Term::number(alloc, k))
    } else {
        Err(Fault::Overflow)
    }
}

/// s + n t.
pub(crate) fn plus(s: &Term, n: i128, t: &Term) -> Result<Term, Fault> {
    if !in_range(n) {
        return Err(Fault::Overflow);
    }
    Term::combine(1, s, n, t).map_err(fault_of)
}

/// t - k.
pub(crate) fn minus(alloc: Global, t: &Term, k: i128) -> Result<Term, Fault> {
    plus(t, -1, &number(alloc, k)?)
}
