//! Expressions that have been read.

ghost use Rattle.std.specs.Prelude.{◌≡◌, IfOk};

use crate::node::Node;
use evp_base::Memory;
use std::alloc::Global;
use std::marker::Model;

/// An expression. Contracts see its tree, with the places of its names, of each `[` and of its
/// operators.
#[derive(Debug, Drop)]
pub struct Expr {
    nodes: Vec<Node>,
}

impl Model for Expr {
    ghost use Rattle.std.specs.Prelude.{◌≡◌};
    ghost use Rattle.evp_expr.specs.Nodes.{tree_of, tree_code, nodes_of};
    ghost use Rattle.evp_expr.specs.Sound.{IsSound};
    ghost use Rattle.evp_expr.specs.Tree.{Tree};

    ghost Value = { Tree };

    ghost coded = { tree_code };

    ghost view = { λ e. tree_of e.nodes.items };

    ghost invariant = { λ e. (e.nodes.items ≡ nodes_of (tree_of e.nodes.items))
        × IsSound (tree_of e.nodes.items) };
}

impl Expr {
    ghost use Rattle.std.specs.Prelude.{◌≡◌, IfOk};
    ghost use Rattle.evp_expr.specs.Nodes.{nodes_of, tree_of};
    ghost use Rattle.evp_expr.specs.Sound.{IsSound};

    /// The expression of these nodes, which are those of a tree.
    pub(crate) fn new(nodes: Vec<Node>) -> Expr
        requires nodes { nodes.items ≡ nodes_of (tree_of nodes.items) }
        requires sound { IsSound (tree_of nodes.items) }
        ensures { result ≡ tree_of nodes.items }
    {
        Expr { nodes }
    }

    /// The nodes of the tree, each behind those of its parts, which stand from left to right.
    pub fn nodes(&self) -> &[Node]
        ensures nodes { result.now ≡ nodes_of self.now }
        ensures sound { IsSound self.now }
    {
        self.nodes.as_slice()
    }

    /// An equal expression.
    pub fn copy(&self, alloc: Global) -> Result<Expr, Memory>
        ensures { IfOk result (λ copied. copied ≡ self.now) }
    {
        let kept = &self.nodes;
        let nodes = copied_nodes(alloc, kept.as_slice())?;
        Ok(Expr { nodes })
    }
}

// The same nodes.
fn copied_nodes(alloc: Global, nodes: &[Node]) -> Result<Vec<Node>, Memory>
    ensures { IfOk result (λ copied. copied.items ≡ nodes.now) }
{
    let mut copied = Vec::with_capacity(alloc, nodes.len())?;
    for node in nodes {
        copied.push(node.copy(alloc)?)?;
    }
    Ok(copied)
}
