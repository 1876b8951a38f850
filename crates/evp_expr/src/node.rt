//! The nodes of an expression's tree.
ghost use Rattle.std.specs.Prelude.{◌≡◌, ℕ, IfOk};
ghost use Rattle.evp_expr.specs.Nodes.{mark_of};

use crate::operator::{Operator, Sign};
use crate::quoted_text::QuotedText;
use evp_base::{Memory, Name};
use std::alloc::Global;

/// A node of an expression's tree, by its kind. In the list of a tree's nodes each node stands
/// behind those of its parts, and the parts stand from left to right. `Open` and `Shortcut` stand
/// before the right part of the node that they tell of.
#[derive(Debug, Drop)]
pub enum Node {
    /// A number from 0 to 2^127 - 1.
    Number(i128),
    /// The first name of a path, and its place.
    Name(u32, Name),
    /// A field of the path before it: the name's place, and the name.
    Field(u32, Name),
    /// The `[` at this place: the path before it has its index behind, up to the `Index`.
    Open(u32),
    /// An element of a path by an index, which are its two parts. The place is that of the `[`.
    Index(u32),
    /// The length of the path before it.
    Length,
    /// Whether the path before it has these bytes.
    Same(QuotedText),
    /// An operator before its operand, and the operator's place.
    Signed(u32, Sign),
    /// `&&` or `||` behind its left operand, and how many nodes its right operand has. They stand
    /// behind this node, and the operator's own node behind them.
    Shortcut(Operator, usize),
    /// An operator between its operands, and the operator's place.
    Joined(u32, Operator),
}

impl Node {
    /// An equal node.
    pub fn copy(&self, alloc: Global) -> Result<Node, Memory>
        ensures { IfOk result (λ copied. copied ≡ self.now) }
    {
        Ok(match self {
            Node::Number(number) => Node::Number(*number),
            Node::Name(at, name) => Node::Name(*at, *name),
            Node::Field(at, name) => Node::Field(*at, *name),
            Node::Open(at) => Node::Open(*at),
            Node::Index(at) => Node::Index(*at),
            Node::Length => Node::Length,
            Node::Same(text) => Node::Same(text.copy(alloc)?),
            Node::Signed(at, sign) => Node::Signed(*at, *sign),
            Node::Shortcut(operator, count) => Node::Shortcut(*operator, *count),
            Node::Joined(at, operator) => Node::Joined(*at, *operator),
        })
    }

    /// What tells of the right part of this node, which has so many nodes.
    pub(crate) fn mark(&self, count: usize) -> Option<Node>
        ensures { result ≡ mark_of self.now count }
    {
        match self {
            Node::Index(at) => Some(Node::Open(*at)),
            Node::Joined(_, Operator::Or) => Some(Node::Shortcut(Operator::Or, count)),
            Node::Joined(_, Operator::And) => Some(Node::Shortcut(Operator::And, count)),
            _ => None,
        }
    }
}
