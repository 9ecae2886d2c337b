// The numbers of bound variables: those with which no symbol of the problem is named, from the least on.

ghost use Rattle.std.specs.Prelude.{◌≡◌, ◌<◌, ◌^◌, IfOk, length};
ghost use Rattle.itp_printer.specs.Numbers.{AreNumbers};
ghost use Rattle.itp_printer.specs.Variables.{next_number, variable_name};

use crate::pieces::put_variable;
use linear_term::Memory;
use pri_printer::is_taken;
use pri_typing::Problem;
use std::alloc::Global;

fn variable_text(alloc: Global, n: u128) -> Result<Vec<u8>, Memory>
    ensures { IfOk result (λ v. v.items ≡ variable_name n) }
{
    let mut text = Vec::new(alloc);
    put_variable(alloc, n, &mut text)?;
    Ok(text)
}

/// The least number from this one on with which no symbol is named.
pub(crate) fn next_free(alloc: Global, p: &Problem, from: u128) -> Result<u128, Memory>
    requires { from < 2 ^ 100 }
    ensures { IfOk result (λ n. n ≡ next_number p.now from) }
{
    for k in 0..1000u128 {
        let n = from + k;
        let text = variable_text(alloc, n)?;
        if !is_taken(p, &text) {
            return Ok(n);
        }
    }
    Ok(from + 1000)
}

/// The numbers of the first k variables, the outermost first.
pub(crate) fn variable_numbers(alloc: Global, p: &Problem, k: u32) -> Result<Vec<u128>, Memory>
    ensures numbers { IfOk result (λ v. AreNumbers p.now v.items) }
    ensures many { IfOk result (λ v. length v.items ≡ k) }
{
    let mut numbers = Vec::new(alloc);
    let mut from = 0u128;
    for i in 0..k {
        let _place = i;
        let number = next_free(alloc, p, from)?;
        numbers.push(number)?;
        from = number + 1;
    }
    Ok(numbers)
}
