// The names that stand for those of a formula.

ghost use Rattle.std.specs.Prelude.{◌≡◌, ◌<◌, ◌^◌, IfOk, ◌∷◌, [], ◌++◌};
ghost use Rattle.form_encoding.specs.Encoding as encoding;
ghost use Rattle.form_encoding.specs.Root.{names_from};

use linear_term::{Memory, Term};
use sqlite_items::Items;
use std::alloc::Global;

/// The name that stands for the x-th name; a name that nothing binds is the number 0.
pub fn named(alloc: Global, at: &[u32], x: u32) -> Term
    ensures { result ≡ encoding.named at.now x }
{
    match at.get(x as usize) {
        Some(y) => Term::name(alloc, *y),
        None => Term::number(alloc, 0),
    }
}

/// The names with one more.
pub fn with_name(alloc: Global, names: &[u32], n: u32) -> Result<Items<u32>, Memory>
    ensures { IfOk result (λ all. all ≡ names.now ++ n ∷ []) }
{
    let mut all = Items::from_slice(alloc, names)?;
    all.push(n)?;
    Ok(all)
}

/// The first n names, each for itself.
pub fn own_names(alloc: Global, n: u32) -> Result<Items<u32>, Memory>
    ensures { IfOk result (λ all. all ≡ names_from 0 n) }
{
    let mut all = Items::new(alloc);
    for x in 0..n {
        all.push(x)?;
    }
    Ok(all)
}
