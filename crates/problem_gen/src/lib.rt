// Large valid problems, made from a number: what `drill` proves.
#![tactic(auto)]

ghost use Rattle.base_limits.specs.Limits.{most_count};
ghost use Rattle.problem_gen.specs.Drills.{conjunct_text, drill_text};
ghost use Rattle.std.specs.Fmt.{decimal};
ghost use Rattle.std.specs.Prelude.{◌≡◌, ◌++◌, ◌<◌, ◌≤◌, ◌^◌, length, IfOk, OnOk};

use linear_term::Memory;
use std::alloc::Global;

/// The text of a problem of n conjuncts, n at least 1 and at most 1,000, each of which says that a predicate that goes on
/// from x to x + 2 comes from i to i + 4. It is valid.
#[tactic(auto, using(crate::proofs::Sizes::drill_size))]
pub fn drill(alloc: Global, n: u32) -> Result<Vec<u8>, Memory>
    requires { n ≤ most_count }
    ensures text { IfOk result (λ text. text.items ≡ drill_text n) }
    ensures short { IfOk result (λ text. length text.items < 2 ^ 32) }
{
    let mut text = Vec::from_slice(alloc, b"\\predicates { p(int); }\n\\problem {\n")?;
    for i in 0..n {
        if i != 0 {
            text.extend_from_slice(b" &\n")?;
        }
        put_conjunct(alloc, i, &mut text)?;
    }
    text.extend_from_slice(b"\n}\n")?;
    Ok(text)
}

/// One conjunct, after a text.
fn put_conjunct(alloc: Global, i: u32, text: &mut Vec<u8>) -> Result<(), Memory>
    requires { i ≤ most_count }
    ensures { OnOk result (text.new.items ≡ text.old.items ++ conjunct_text i) }
{
    put_number(alloc, b"(p(", i, text)?;
    put_number(
        alloc,
        b") & \\forall int x; (p(x) -> p(x + 2)) -> p(",
        i + 4,
        text,
    )?;
    text.extend_from_slice(b"))")?;
    Ok(())
}

/// A label and a number, after a text.
fn put_number(alloc: Global, label: &[u8], n: u32, text: &mut Vec<u8>) -> Result<(), Memory>
    ensures { OnOk result (text.new.items ≡ text.old.items ++ (label.now ++ decimal n)) }
{
    let number = n.to_string(alloc)?;
    text.extend_from_slice(label)?;
    text.extend_from_slice(number.as_bytes())?;
    Ok(())
}
