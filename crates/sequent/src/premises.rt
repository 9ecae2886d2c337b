// The premises of a rule.

ghost use Rattle.std.specs.Prelude.{◌≡◌, ◌≤◌, ◌<◌, ◌^◌, ◌+◌, length, IfOk, Some, ◌++◌, take, drop};
ghost use Rattle.std.specs.List.{slice_get, remove, AllByRecursion};
ghost use Rattle.sequent.specs.Rules as calculus;
ghost use Rattle.formula.specs.Tree.{form};
ghost use Rattle.sequent.specs.Views.{member_of, members_of, sequent_of, HasRoom};

use crate::added::append;
use crate::branches::{branch, count_after, width_of};
use crate::member::{Member, Pick, Sequent};
use linear_term::Memory;
use sqlite_items::Items;
use std::alloc::Global;

/// The members once more, but for the one at this place.
fn others(alloc: Global, members: &[Member], at: usize) -> Result<Items<Member>, Memory>
    requires { at < length members.now }
    ensures { IfOk result (λ ms. ms ≡ remove members.now at) }
{
    let mut out = Items::new(alloc);
    for i in 0..at {
        out.push(members[i].copy(alloc)?)?;
    }
    for i in at + 1..members.len() {
        out.push(members[i].copy(alloc)?)?;
    }
    Ok(out)
}

fn place(p: Pick) -> Option<u32>
    ensures { result ≡ calculus.place p }
{
    match p {
        Pick::Trivial(i) => Some(i),
        Pick::Alpha(i) => Some(i),
        Pick::Delta(i) => Some(i),
        Pick::Beta(i) => Some(i),
        Pick::Gamma(i) => Some(i),
        Pick::Close => None,
    }
}

/// The number of premises.
#[tactic(auto, using(crate::proofs::Premising::premising))]
pub fn width(s: &Sequent, p: Pick) -> u32
    requires { length (calculus.premises_of (sequent_of s.now) p) < 2 ^ 32 }
    ensures { result ≡ length (calculus.premises_of (sequent_of s.now) p) }
{
    match place(p) {
        None => 0,
        Some(at) => match s.members.get(at as usize) {
            None => 0,
            Some(m) => width_of(m, s.count),
        },
    }
}

/// Premise number i.
#[tactic(auto, using(crate::proofs::Premising::premising))]
pub fn premise(alloc: Global, s: &Sequent, p: Pick, i: u32) -> Result<Sequent, Memory>
    requires room { HasRoom s.now }
    requires within { i < length (calculus.premises_of (sequent_of s.now) p) }
    ensures { IfOk result (λ t. slice_get (calculus.premises_of (sequent_of s.now) p) i ≡ Some (sequent_of t)) }
{
    match place(p) {
        None => Err(Memory),
        Some(at) => match s.members.get(at as usize) {
            None => Err(Memory),
            Some(m) => {
                let new = branch(alloc, m, s.count, i)?;
                let mut members = others(alloc, s.members.as_slice(), at as usize)?;
                append(&mut members, new)?;
                Ok(Sequent {
                    members,
                    count: count_after(&m.formula, s.count),
                })
            }
        },
    }
}
