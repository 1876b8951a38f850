//! The trees that stand ready while a text is read.
ghost use Rattle.std.specs.Prelude.{◌≡◌, [], ◌∷◌, ◌++◌, OnOk, length, reverse};
ghost use Rattle.evp_expr.specs.Nodes.{grow, grown, nodes_of_all, starts_of, CanGrow, HasStart};
ghost use Rattle.evp_expr.specs.Nodes.{PutsJoining};

use crate::expr::Expr;
use crate::fault::ExprFault;
use crate::node::Node;
use std::alloc::{AllocError, Global};
use std::marker::Model;

/// The trees ready, kept as their nodes. Contracts see their list, the last first.
#[derive(Drop)]
pub struct Trees {
    nodes: Vec<Node>,
    // where the nodes of each tree begin
    starts: Vec<usize>,
}

impl Model for Trees {
    ghost use Rattle.std.specs.Prelude.{◌≡◌, List, [], reverse};
    ghost use Rattle.std.specs.Coded.{coded_list};
    ghost use Rattle.evp_expr.specs.Tree.{Tree};
    ghost use Rattle.evp_expr.specs.Nodes.{tree_code, grown, nodes_of_all, starts_of};

    ghost Value = { List Tree };

    ghost coded = { coded_list tree_code };

    ghost view = { λ t. grown t.nodes.items [] };

    ghost invariant = { λ t. (t.nodes.items ≡ nodes_of_all (grown t.nodes.items []))
        × (reverse t.starts.items ≡ starts_of (grown t.nodes.items [])) };
}

impl Trees {
    ghost use Rattle.std.specs.Prelude.{◌≡◌, [], ◌∷◌, OnOk};
    ghost use Rattle.evp_expr.specs.Nodes.{grow, last_tree, CanGrow};
    ghost use Rattle.evp_expr.specs.Sound.{IsSound};
    ghost use Rattle.evp_expr.specs.Opening.{MemoryAlone};

    /// No trees.
    pub fn new(alloc: Global) -> Trees
        ensures { result ≡ [] }
    {
        Trees {
            nodes: Vec::new(alloc),
            starts: Vec::new(alloc),
        }
    }

    /// Adds a node over the trees that are its parts. Without memory no tree stays.
    pub fn push(&mut self, node: Node) -> Result<(), ExprFault>
        requires { CanGrow node self.old }
        ensures pushed { OnOk result (self.new ≡ grow node self.old) }
        ensures fault { MemoryAlone result }
    {
        match put(&mut self.nodes, &mut self.starts, node) {
            Ok(()) => Ok(()),
            Err(_) => {
                self.nodes.clear();
                self.starts.clear();
                Err(ExprFault::Memory)
            }
        }
    }

    /// The expression of the only tree.
    pub fn into_expr(self) -> Expr
        requires alone { self ≡ last_tree self ∷ [] }
        requires sound { IsSound (last_tree self) }
        ensures { result ≡ last_tree self }
    {
        Expr::new(self.nodes)
    }
}

// Puts a node behind those of its parts.
fn put(nodes: &mut Vec<Node>, starts: &mut Vec<usize>, node: Node) -> Result<(), AllocError>
    requires can { CanGrow node (grown nodes.old.items []) }
    requires nodes { nodes.old.items ≡ nodes_of_all (grown nodes.old.items []) }
    requires starts { reverse starts.old.items ≡ starts_of (grown nodes.old.items []) }
    ensures nodes { OnOk result
        (nodes.new.items ≡ nodes_of_all (grow node (grown nodes.old.items []))) }
    ensures starts { OnOk result
        (reverse starts.new.items ≡ starts_of (grow node (grown nodes.old.items []))) }
{
    match &node {
        Node::Number(_) | Node::Name(_, _) => put_leaf(nodes, starts, node),
        Node::Index(_) | Node::Joined(_, _) => put_joining(nodes, starts, node),
        _ => {
            nodes.push(node)?;
            Ok(())
        }
    }
}

// Puts a node without parts.
fn put_leaf(nodes: &mut Vec<Node>, starts: &mut Vec<usize>, node: Node) -> Result<(), AllocError>
    ensures nodes { OnOk result (nodes.new.items ≡ nodes.old.items ++ node ∷ []) }
    ensures starts { OnOk result
        (reverse starts.new.items ≡ length nodes.old.items ∷ reverse starts.old.items) }
{
    starts.push(nodes.len())?;
    nodes.push(node)?;
    Ok(())
}

// Puts a node behind its two parts, and what tells of the right part before that part.
fn put_joining(nodes: &mut Vec<Node>, starts: &mut Vec<usize>, node: Node) -> Result<(), AllocError>
    requires { HasStart (length nodes.old.items) (reverse starts.old.items) }
    ensures { OnOk result (PutsJoining node nodes.old.items nodes.new.items
        (reverse starts.old.items) (reverse starts.new.items)) }
{
    let Some(start) = starts.pop() else {
        return Ok(());
    };
    if let Some(mark) = node.mark(nodes.len() - start) {
        nodes.insert(start, mark)?;
    }
    nodes.push(node)?;
    Ok(())
}
