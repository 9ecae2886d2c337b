// The bound names in sight where a body stands, in layers. A list holds the layers, and each one names the layer around it, so no
// function goes down a chain of layers by calling itself.

ghost use Rattle.std.specs.Prelude.{◌≡◌, ◌+◌, ◌≤◌, IfOk, MatchOption, get_or, length};
ghost use Rattle.smt_names.specs.Saying.{nothing};
ghost use Rattle.smt_writing.specs.Layers.{AreLayered, Extends, IsLayerOf, first_number, heights_at, heights_behind, names_at, names_behind, own_count};

use linear_term::Memory;
use smt_names::Body;

/// Some bound names.
#[derive(Clone, Copy)]
pub enum Names<'a> {
    /// This many variables, of which the first is the name of the second number.
    Variables(u32, u32),
    /// Each of these bodies, over these defined functions. A body may use the names before its own.
    Bound(&'a [Body], &'a [Body]),
    /// The arguments of a call, over these defined functions. The names around the call are in sight of the arguments alone.
    Arguments(&'a [Body], &'a [Body]),
}

/// Some bound names, and where they stand.
#[derive(Clone, Copy)]
pub struct Layer<'a> {
    pub names: Names<'a>,
    /// The number of the first name.
    pub start: usize,
    /// The layer around them: how many layers there are up to it; 0 where there is none.
    pub outer: usize,
}

/// How many names there are.
fn count_names(names: &Names<'_>) -> usize
    ensures { result ≡ own_count names.now }
{
    match names {
        Names::Variables(count, _) => *count as usize,
        Names::Bound(bodies, _) => bodies.len(),
        Names::Arguments(arguments, _) => arguments.len(),
    }
}

fn added(some: usize, more: usize) -> Result<usize, Memory>
    ensures { IfOk result (λ n. n ≡ some + more) }
{
    some.checked_add(more).ok_or(Memory)
}

/// How many bound names are in sight in the layer up to which there are this many layers.
fn count(layers: &[Layer<'_>], place: usize) -> Result<usize, Memory>
    requires layered { AreLayered layers.now }
    requires within { place ≤ length layers.now }
    ensures { IfOk result (λ n. n ≡ length (names_at layers.now place)) }
{
    if place == 0 {
        return Ok(0);
    }
    let layer = &layers[place - 1];
    added(layer.start, count_names(&layer.names))
}

/// The number of the first of these names, after those in sight in the layer up to which there are this many layers.
fn start_of(layers: &[Layer<'_>], outer: usize, names: &Names<'_>) -> Result<usize, Memory>
    requires layered { AreLayered layers.now }
    requires within { outer ≤ length layers.now }
    ensures { IfOk result (λ n. n ≡ first_number names.now (length (names_at layers.now outer))) }
{
    match names {
        Names::Arguments(_, _) => Ok(0),
        Names::Variables(_, _) | Names::Bound(_, _) => count(layers, outer),
    }
}

/// Puts one more layer after those there are. These names stand in the layer up to which there are `outer` layers. The answer is how
/// many layers there are then.
pub(crate) fn push<'a>(
    layers: &mut Vec<Layer<'a>>,
    outer: usize,
    names: Names<'a>,
) -> Result<usize, Memory>
    requires layered { AreLayered layers.old.items }
    requires within { outer ≤ length layers.old.items }
    ensures layered { IfOk result (λ n. AreLayered layers.new.items) }
    ensures extends { IfOk result (λ n. Extends layers.old.items layers.new.items) }
    ensures last { IfOk result (λ n. n ≡ length layers.new.items) }
    ensures said { IfOk result (λ n. names_at layers.new.items n ≡ names_behind (names_at layers.old.items outer) names.entry) }
    ensures height { IfOk result (λ n. heights_at layers.new.items n ≡ heights_behind (heights_at layers.old.items outer) names.entry) }
{
    let start = start_of(layers.as_slice(), outer, &names)?;
    layers.push(Layer {
        names,
        start,
        outer,
    })?;
    Ok(layers.len())
}

/// The layer that has the name of a number, of those in sight in a layer.
pub(crate) fn layer_of<'a>(layers: &[Layer<'a>], place: usize, k: usize) -> Option<Layer<'a>>
    requires layered { AreLayered layers.now }
    requires within { place ≤ length layers.now }
    ensures { MatchOption result (get_or (names_at layers.now place) k nothing ≡ nothing) (IsLayerOf layers.now place k) }
{
    let mut at = place;
    while at > 0 {
        let layer = layers[at - 1];
        if layer.start <= k {
            return Some(layer);
        }
        at = layer.outer;
    }
    None
}
