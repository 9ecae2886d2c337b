// What the walk over commands asks of a reader of terms.

ghost use Rattle.smt_commands.specs.Faults.{body_faults};
ghost use Rattle.smt_commands.specs.Least.{least_from};
ghost use Rattle.smt_commands.specs.declared.refusal.ScriptRefusal.{ScriptRefusal};
ghost use Rattle.smt_terms.specs.declared.operator.Sort.{Sort};
ghost use Rattle.smt_commands.specs.declared.table.Entry.{Entry};
ghost use Rattle.smt_lists.specs.Expressions.{Expr, expr};
ghost use Rattle.std.specs.Prelude.{◌≡◌, ℕ, Bool, List, [], Option, Some, IfOk, map};

use linear_term::Memory;
use smt_commands::{ScriptRefusal, Table};
use smt_lists::Sexp;
use smt_terms::Sort;
use std::alloc::Global;

/// What a term is to define: the offset of the definition's `(`, its symbol and its arguments, and its sort, where that is one.
#[derive(Clone, Copy)]
pub struct Head<'a> {
    pub at: u64,
    pub text: &'a [u8],
    pub arguments: &'a [Sexp],
    pub sort: Option<Sort>,
}

/// A reader of terms: the faults of a term where a sort is needed, or any, after the symbols of a table, with the arguments of
/// a definition bound around it; and whether a symbol occurs in a term where nothing binds it.
pub trait Terms {
    ghost faults: { List Entry → List Expr → Option Sort → Expr → List ScriptRefusal };

    ghost occurs: { List ℕ → List Expr → Expr → Bool };

    /// The first of a fault and those of a term of which this sort is needed.
    fn with_faults(
        &self,
        alloc: Global,
        found: Option<ScriptRefusal>,
        table: &Table,
        sort: Sort,
        e: &Sexp,
    ) -> Result<Option<ScriptRefusal>, Memory>
        ensures { IfOk result (λ f. f ≡ least_from found (faults table.now.entries [] (Some sort) (expr e.now))) };

    /// The first of a fault and those of the term of a definition.
    fn with_body_faults(
        &self,
        alloc: Global,
        found: Option<ScriptRefusal>,
        table: &Table,
        head: Head<'_>,
        e: &Sexp,
    ) -> Result<Option<ScriptRefusal>, Memory>
        ensures { IfOk result (λ f. f ≡ least_from found (body_faults (record { faults = faults; uses = occurs }) table.now.entries head.entry.at head.entry.text.now
            (map expr head.entry.arguments.now) head.entry.sort (expr e.now))) };
}
