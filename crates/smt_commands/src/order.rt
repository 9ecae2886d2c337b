// The order of refusals: by offset, and at one offset by number.

ghost use Rattle.smt_commands.specs.Least.{is_before, number_of, place_in, sooner};
ghost use Rattle.std.specs.Prelude.{◌≡◌};

use crate::refusal::ScriptRefusal;

/// Of two faults, where there are two, the second where it comes before the first, else the first.
pub fn sooner(found: Option<ScriptRefusal>, e: ScriptRefusal) -> ScriptRefusal
    ensures exact { result ≡ sooner found e }
{
    match found {
        None => e,
        Some(first) => { if is_before(e, first) { e } else { first } }
    }
}

/// A lesser offset, or the same and a lesser number.
fn is_before(a: ScriptRefusal, b: ScriptRefusal) -> bool
    ensures exact { result ≡ is_before a b }
{
    place_in(a) < place_in(b) || place_in(a) == place_in(b) && number(a) < number(b)
}

/// The offset of a fault.
pub fn place_in(e: ScriptRefusal) -> u64
    ensures exact { result ≡ place_in e }
{
    match e {
        ScriptRefusal::Syntax(at)
        | ScriptRefusal::Literal(at)
        | ScriptRefusal::Deep(at)
        | ScriptRefusal::Undeclared(at)
        | ScriptRefusal::Redeclared(at)
        | ScriptRefusal::Arity(at)
        | ScriptRefusal::Kind(at)
        | ScriptRefusal::NonLinear(at)
        | ScriptRefusal::Many(at)
        | ScriptRefusal::Profile(at) => at,
        ScriptRefusal::Large | ScriptRefusal::Memory => 0,
    }
}

/// The number of a fault.
fn number(e: ScriptRefusal) -> u8
    ensures exact { result ≡ number_of e }
{
    match e {
        ScriptRefusal::Memory => 0,
        ScriptRefusal::Syntax(_) => 1,
        ScriptRefusal::Literal(_) => 2,
        ScriptRefusal::Deep(_) => 3,
        ScriptRefusal::Undeclared(_) => 4,
        ScriptRefusal::Redeclared(_) => 5,
        ScriptRefusal::Arity(_) => 6,
        ScriptRefusal::Kind(_) => 7,
        ScriptRefusal::NonLinear(_) => 8,
        ScriptRefusal::Many(_) => 10,
        ScriptRefusal::Large => 11,
        ScriptRefusal::Profile(_) => 15,
    }
}
