// Values of constants, as the lines `solution:` and `at:` have them.

use crate::object::Object;
use linear_term::Memory;
use message_lines::cut;

/// Writes an object with a member for each constant of a line as `a = 1, b = -2`: its value in decimal digits.
pub(crate) fn write_values(object: &mut Object, line: &[u8]) -> Result<(), Memory> {
    object.open()?;
    let mut rest = Some(line);
    for _ in 0..line.len() {
        let Some(values) = rest else {
            break;
        };
        let (value, behind) = cut(values, b',');
        write_value(object, value)?;
        rest = behind;
    }
    object.close()
}

/// Writes a member for a constant and its value, as `a = 1`.
pub(crate) fn write_value(object: &mut Object, text: &[u8]) -> Result<(), Memory> {
    let (name, value) = cut(text, b'=');
    object.key_of(name.trim_ascii())?;
    object.text(value.unwrap_or(&[]).trim_ascii())
}
