// The order of refusals: by offset, and at one offset by number.

ghost use Rattle.std.specs.Prelude.{◌≡◌, IsTrue, ◌↔◌};
ghost use Rattle.pri_typing.specs.Faults.{earlier, is_before, number_of, place_of};

use crate::problem::TypeRefusal;

/// The offset of a refusal; 0 for lack of memory, which has none.
pub fn place(refusal: TypeRefusal) -> u64
    ensures { result ≡ place_of refusal }
{
    match refusal {
        TypeRefusal::Undeclared(at) => at,
        TypeRefusal::Redeclared(at) => at,
        TypeRefusal::Arity(at) => at,
        TypeRefusal::Kind(at) => at,
        TypeRefusal::NonLinear(at) => at,
        TypeRefusal::Parts(at) => at,
        TypeRefusal::Many(at) => at,
        TypeRefusal::Memory => 0,
    }
}

/// The number of a refusal, by which those at one offset are ordered.
pub fn number(refusal: TypeRefusal) -> u32
    ensures { result ≡ number_of refusal }
{
    match refusal {
        TypeRefusal::Undeclared(_) => 4,
        TypeRefusal::Redeclared(_) => 5,
        TypeRefusal::Arity(_) => 6,
        TypeRefusal::Kind(_) => 7,
        TypeRefusal::NonLinear(_) => 8,
        TypeRefusal::Parts(_) => 9,
        TypeRefusal::Many(_) => 10,
        TypeRefusal::Memory => 11,
    }
}

fn comes_before(a: TypeRefusal, b: TypeRefusal) -> bool
    ensures { result ≡ is_before a b }
{
    place(a) < place(b) || place(a) == place(b) && number(a) < number(b)
}

/// The earlier of two faults, where there are two.
pub fn earlier_of(a: Option<TypeRefusal>, b: Option<TypeRefusal>) -> Option<TypeRefusal>
    ensures { result ≡ earlier a b }
{
    match (a, b) {
        (Some(x), Some(y)) => Some(if comes_before(y, x) { y } else { x }),
        (Some(x), None) => Some(x),
        (None, y) => y,
    }
}
