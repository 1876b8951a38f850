//! The expression language: the tree of an expression's text, or its first fault.
#![tactic(auto)]

mod expr;
mod fault;
mod frames;
mod lexer;
mod node;
mod operator;
mod parser;
mod parsing;
mod quoted_text;
mod state;
mod theorems;
mod token;
mod trees;

pub use expr::Expr;
pub use fault::ExprFault;
pub use node::Node;
pub use operator::{Operator, Sign};
pub use parsing::parse;
pub use quoted_text::QuotedText;
pub use theorems::{
    each_text_is_answered, one_fault, one_tree, reads_back, tree_or_fault, trees_are_sound,
};
