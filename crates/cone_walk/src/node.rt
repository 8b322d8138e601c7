//! Nodes of a cone, in a file of their own, since definitions of the cone cite them.

use sat_form::Lit;

/// A node of a cone.
#[derive(Clone, Copy, Debug, PartialEq, Eq)]
pub enum ConeNode {
    /// A bit of a variable of the goal: the variable's number, and the bit's, 0 for a truth.
    Input(u8, u8),
    /// The conjunction of two literals, the left fanin first.
    Gate(Lit, Lit),
}
