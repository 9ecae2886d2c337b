// The lines of a counterexample: values of constants, and rows of predicates and functions.

use crate::object::Object;
use crate::text::first_line;
use crate::values::write_value;
use linear_term::Memory;
use message_lines::cut;

/// Writes a member for the lines after `counterexample:`, if an answer has them.
pub(crate) fn write_counterexample(object: &mut Object, answer: &[u8]) -> Result<(), Memory> {
    let Some(lines) = counterexample(answer) else {
        return Ok(());
    };
    object.key("counterexample")?;
    object.open()?;
    object.key("constants")?;
    object.open()?;
    write_lines(object, lines, Part::Constants)?;
    object.close()?;
    object.key("rows")?;
    object.open_list()?;
    write_lines(object, lines, Part::Rows)?;
    object.close_list()?;
    object.close()
}

/// What stands after the line `counterexample:`.
fn counterexample(answer: &[u8]) -> Option<&[u8]> {
    let mut rest = answer;
    for _ in 0..answer.len() {
        let (line, behind) = first_line(rest);
        if line == b"counterexample:".as_slice() {
            return Some(behind);
        }
        rest = behind;
    }
    None
}

/// The two parts of a counterexample.
#[derive(Clone, Copy, PartialEq, Eq)]
enum Part {
    Constants,
    Rows,
}

/// The part to which a line belongs: a value of something without arguments is one of a constant.
fn part_of(line: &[u8]) -> Part {
    if line.contains(&b'=') && !line.contains(&b'(') {
        Part::Constants
    } else {
        Part::Rows
    }
}

/// Writes the lines of one part.
fn write_lines(object: &mut Object, lines: &[u8], part: Part) -> Result<(), Memory> {
    let mut rest = lines;
    for _ in 0..lines.len() {
        let (line, behind) = first_line(rest);
        if !line.is_empty() && part_of(line) == part {
            match part {
                Part::Constants => write_value(object, line)?,
                Part::Rows => write_row(object, line)?,
            }
        }
        rest = behind;
    }
    Ok(())
}

/// Writes a row, as `p(3)`, `!p(3)` or `f(0, 1) = 2`.
fn write_row(object: &mut Object, line: &[u8]) -> Result<(), Memory> {
    let (applied, value) = cut(line, b'=');
    let is_false = applied.starts_with(b"!");
    let applied = applied.strip_prefix(b"!").unwrap_or(applied).trim_ascii();
    let (symbol, arguments) = cut(applied, b'(');
    object.open()?;
    object.text_member("symbol", symbol)?;
    object.key("arguments")?;
    write_arguments(object, arguments.unwrap_or(&[]))?;
    object.key("value")?;
    match value {
        Some(value) => object.text(value.trim_ascii())?,
        None => object.truth(!is_false)?,
    }
    object.close()
}

/// Writes the arguments of a row, as `0, 1)`.
fn write_arguments(object: &mut Object, arguments: &[u8]) -> Result<(), Memory> {
    object.open_list()?;
    let mut rest = arguments.strip_suffix(b")").unwrap_or(arguments);
    for _ in 0..arguments.len() {
        if rest.is_empty() {
            break;
        }
        let (argument, behind) = cut(rest, b',');
        object.text(argument.trim_ascii())?;
        rest = behind.unwrap_or(&[]);
    }
    object.close_list()
}
