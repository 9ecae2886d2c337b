// Where an input is cut into pieces: after each outermost list. What comes is looked at byte by byte, and no byte twice.

ghost use Rattle.job_dialogue.specs.Pieces.{depth_on, ends_piece, first_scan, last_piece, region_on, scan_on};
ghost use Rattle.std.specs.Prelude.{◌≡◌, ◌∷◌, [], IfOk, if◌then◌else◌};

use linear_term::Memory;
use smt_tokens::lexemes;
use std::alloc::Global;

/// What a byte belongs to.
#[derive(Clone, Copy, Debug, PartialEq, Eq)]
pub enum Region {
    /// Lists, with what stands in them and between them.
    Lists,
    /// A comment.
    Comment,
    /// A string.
    Quotes,
    /// A symbol between bars.
    Bars,
}

/// What the next byte belongs to, and how many lists are open before it.
#[derive(Clone, Copy, Debug, PartialEq, Eq)]
pub struct Scan {
    pub region: Region,
    pub depth: u64,
}

/// Where an input begins.
pub(crate) fn first_scan() -> Scan
    ensures { result ≡ first_scan }
{
    Scan {
        region: Region::Lists,
        depth: 0,
    }
}

/// Whether a byte ends a piece: it closes an outermost list, or closes nothing.
pub(crate) fn ends_piece(scan: Scan, byte: u8) -> bool
    ensures { result ≡ ends_piece scan byte }
{
    match scan.region {
        Region::Lists => byte == b')' && scan.depth <= 1,
        Region::Comment | Region::Quotes | Region::Bars => false,
    }
}

/// What is so after a byte.
pub(crate) fn scan_on(scan: Scan, byte: u8) -> Result<Scan, Memory>
    ensures { IfOk result (λ next. next ≡ scan_on scan byte) }
{
    Ok(Scan {
        region: region_on(scan.region, byte),
        depth: depth_on(scan.region, scan.depth, byte)?,
    })
}

/// What the byte after this one belongs to.
fn region_on(region: Region, byte: u8) -> Region
    ensures { result ≡ region_on region byte }
{
    match region {
        Region::Lists => {
            if byte == b';' {
                return Region::Comment;
            }
            if byte == b'"' {
                return Region::Quotes;
            }
            if byte == b'|' {
                return Region::Bars;
            }
            Region::Lists
        }
        Region::Comment => {
            if byte == b'\n' || byte == b'\r' {
                Region::Lists
            } else {
                region
            }
        }
        Region::Quotes => { if byte == b'"' { Region::Lists } else { region } }
        Region::Bars => { if byte == b'|' { Region::Lists } else { region } }
    }
}

/// How many lists are open after a byte.
fn depth_on(region: Region, depth: u64, byte: u8) -> Result<u64, Memory>
    ensures { IfOk result (λ n. n ≡ depth_on region depth byte) }
{
    match region {
        Region::Lists => {
            if byte == b'(' {
                return depth.checked_add(1).ok_or(Memory);
            }
            if byte == b')' {
                return Ok(depth.saturating_sub(1));
            }
            Ok(depth)
        }
        Region::Comment | Region::Quotes | Region::Bars => Ok(depth),
    }
}

/// Whether a token stands in these bytes, and not only blanks and comments.
pub(crate) fn has_token(alloc: Global, bytes: &[u8]) -> Result<bool, Memory>
    ensures { IfOk result (λ is. (if is then bytes.now ∷ [] else []) ≡ last_piece bytes.now) }
{
    let tokens = lexemes(alloc, bytes)?;
    match tokens.as_slice().first() {
        Some(_) => Ok(true),
        None => Ok(false),
    }
}
