// The values of the existential constants of a problem.

ghost use Rattle.std.specs.Prelude.{◌≡◌, ◌++◌, codes, IfOk, length, OnOk};
ghost use Rattle.std.specs.Fmt.{signed_decimal};
ghost use Rattle.pri_printer.specs.Printed.{solution_text};
ghost use Rattle.pri_printer.specs.Text.{behind_each, listed_text, value_text, value_texts};

use linear_term::Memory;
use pri_typing::Problem;
use sqlite_items::Items;
use std::alloc::Global;

/// Puts `x = 1` after a text.
pub fn put_value(alloc: Global, name: &[u8], value: &i128, out: &mut Vec<u8>) -> Result<(), Memory>
    ensures { OnOk result (out.new.items ≡ out.old.items ++ value_text name.now value.now) }
{
    out.extend_from_slice(name)?;
    out.extend_from_slice(b" = ")?;
    let digits = value.to_string(alloc)?;
    out.extend_from_slice(digits.as_bytes())?;
    Ok(())
}

/// Puts the later values after a text.
fn put_values(
    alloc: Global,
    names: &[Items<u8>],
    values: &[i128],
    out: &mut Vec<u8>,
) -> Result<(), Memory>
    requires { length names.now ≡ length values.now }
    ensures { OnOk result (out.new.items ≡ out.old.items ++ behind_each (codes ", ") (value_texts names.now values.now)) }
{
    for i in 0..names.len() {
        out.extend_from_slice(b", ")?;
        put_value(alloc, names[i].as_slice(), &values[i], out)?;
    }
    Ok(())
}

/// Puts names with their values after a text.
fn put_listed(
    alloc: Global,
    names: &[Items<u8>],
    values: &[i128],
    out: &mut Vec<u8>,
) -> Result<(), Memory>
    requires { length names.now ≡ length values.now }
    ensures { OnOk result (out.new.items ≡ out.old.items ++ listed_text (value_texts names.now values.now)) }
{
    let Some((name, more_names)) = names.split_first() else {
        return Ok(());
    };
    let Some((value, more_values)) = values.split_first() else {
        return Ok(());
    };
    put_value(alloc, name.as_slice(), value, out)?;
    put_values(alloc, more_names, more_values, out)
}

/// The values of the existential constants in the order of their declarations, as `x = 1, y = -2`; nothing where there
/// are none. The one error is running out of memory.
pub fn print_solution(alloc: Global, p: &Problem, values: &[i128]) -> Result<Vec<u8>, Memory>
    requires { length values.now ≡ length p.now.existentials }
    ensures { IfOk result (λ v. v.items ≡ solution_text p.now values.now) }
{
    let mut out = Vec::new(alloc);
    put_listed(alloc, p.existentials.as_slice(), values, &mut out)?;
    Ok(out)
}
