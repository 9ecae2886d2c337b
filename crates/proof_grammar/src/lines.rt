// What a text of lines is made of.

use base_budget::ElimLog;
use clause_set::Literal;
use proof_tree::Conclusion;
use sequent::Pick;
use sqlite_items::Items;

/// A line of a proof's text.
#[derive(Drop)]
pub enum TextLine {
    /// The format.
    Head(u128),
    /// How many parts the text has.
    Parts(u32),
    /// A part: entries that logs may use.
    Part(ElimLog),
    /// How many charges the proof may cost.
    Charges(u128),
    /// The rule of a node, with the number of its premises.
    Row(Pick, u32),
    Log(ElimLog),
    /// The log of a node, whose entries are those of the part with this number.
    LogOf(u32),
    /// The constraint of a node.
    Gives(Items<Items<Literal>>),
    End(Conclusion),
    /// The conclusion that no values solve the problem; the entries of its log are those of the part with this number.
    EndOf(u32),
}

/// What a text still owes: a line that has to come. Where a line after it may use a part, it says how many parts there are.
#[derive(Clone, Copy)]
pub enum Owed {
    Head,
    /// How many parts there are.
    Parts,
    Part,
    /// The charges, in a text of this many parts.
    Charges(usize),
    /// The lines of a node on this level, in a text of this many parts; the root is on level 1.
    Node(u32, usize),
    /// The log of a node, in a text of this many parts.
    Log(usize),
    Gives,
    /// The conclusion, in a text of this many parts.
    End(usize),
}
