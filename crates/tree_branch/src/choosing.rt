// Which rule comes first: one pass over the members, without memory. Members from the front that fit no rule are passed once for all
// nodes below, since a rule takes its principal from after them and adds its new members at the end.

ghost use Rattle.backlist.specs.Links.{first_place};
ghost use Rattle.tree_branch.specs.Passed.{IsPassed, nothing};
ghost use Rattle.tree_branch.specs.Standing.{IsPrincipal, rule_of, standing};
ghost use Rattle.sequent.specs.Rules.{picked};
ghost use Rattle.std.specs.Prelude.{◌≡◌, ◌≤◌, ◌<◌, ◌^◌, IfSome, length, ℕ};

use crate::branch::Branch;
use crate::principal::{Principal, better};
use backlist::Pos;
use sequent::fits;

/// Members from the front of a branch that fit no rule at a limit: how many, and where the last of them lies.
#[derive(Drop)]
pub struct Passed {
    pub(crate) count: u32,
    pub(crate) last: Option<Pos>,
}

impl Passed {
    /// No member.
    pub fn new() -> Passed
        ensures { result ≡ nothing }
    {
        Passed {
            count: 0,
            last: None,
        }
    }
}

impl Branch {
    /// Where the member after those that were passed lies.
    fn behind(&self, passed: &Passed) -> Option<Pos>
        requires { (limit : ℕ) × IsPassed limit self.now passed.now }
        ensures { (limit : ℕ) (w : IsPassed limit self.now passed.now) → result ≡ first_place w.rest }
    {
        match passed.last {
            Some(p) => self.list.next(p),
            None => self.list.first(),
        }
    }

    /// Passes the members after those that were passed, up to the first one that fits a rule.
    pub fn pass(&self, limit: u32, passed: &Passed) -> Passed
        requires few { length (standing self.now).members < 2 ^ 32 }
        requires passed { IsPassed limit self.now passed.now }
        ensures { IsPassed limit self.now result }
    {
        let mut now = Passed {
            count: passed.count,
            last: passed.last,
        };
        let mut at = self.behind(passed);
        while let Some(p) = at {
            if fits(self.list.get(p), limit).is_some() {
                return now;
            }
            now = Passed {
                count: now.count + 1,
                last: at,
            };
            at = self.list.next(p);
        }
        now
    }

    /// The principal of the first rule that some member fits, the first such member, which is after those that were passed; none
    /// where the branch is to be closed.
    pub fn principal(&self, limit: u32, passed: &Passed) -> Option<Principal>
        requires few { length (standing self.now).members < 2 ^ 32 }
        requires passed { IsPassed limit self.now passed.now }
        ensures rule { rule_of result ≡ picked limit (standing self.now).members }
        ensures principal { IfSome result (λ p. IsPrincipal self.now p) }
        ensures behind { IfSome result (λ p. passed.now.count ≤ p.index) }
    {
        let mut best = None;
        let mut at = self.behind(passed);
        for i in passed.count as usize..self.list.len() {
            if let Some(p) = at {
                best = better(best, fits(self.list.get(p), limit), i as u32, p);
                at = self.list.next(p);
            }
        }
        best
    }
}
