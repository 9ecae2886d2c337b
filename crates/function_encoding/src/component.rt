// A component of a formula.

use formula::Typed;

/// A component, with its sign: true for plus.
#[derive(Clone, Copy)]
pub struct Component<'a> {
    pub plus: bool,
    pub what: &'a Typed,
}
