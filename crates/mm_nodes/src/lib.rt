//! Strings of symbols as nodes. A *body* is a symbol or a node, and a *node* is a list of bodies,
//! each a symbol or an earlier node. So a string that has another as a part takes one body for it,
//! however long the part is. This layer knows nothing of databases: a symbol is a number below
//! 2^31. It promises what string a body stands for, and that two bodies are found to be equal
//! exactly if their strings are.
//!
//! A caller makes a [`Nodes`] once, makes bodies of others with [`Nodes::make`], compares them with
//! [`Nodes::is_equal`], reads their symbols with [`Nodes::append_symbols`] and the bodies of a node
//! with [`Nodes::bodies`], and gives up the last nodes with [`Nodes::truncate`]. Which symbols a
//! string has, in whatever order, it asks with [`Nodes::list_symbols`]. No call is recursive,
//! however deep nodes are nested. Two strings are compared by a walk over both; long ones before
//! that by their parts, of which there can be far fewer than symbols.
#![tactic(auto)]

mod body;
mod body_list;
mod copy;
mod facts;
mod heads;
mod nodes;
mod reached;
mod walk;

pub use body::Body;
pub use heads::Segment;
pub use nodes::Nodes;
