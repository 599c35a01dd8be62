//! The parts of a string.

ghost use Rattle.std.specs.Prelude.{◌≡◌, ◌<◌, ◌+◌, ℕ, IfSome, IfNone, nat_lt};
ghost use Rattle.mm_nodes.specs.Strings.{first_node, no_body};

use std::marker::Model;

/// This number and greater ones stand for nodes, and smaller ones for symbols.
const FIRST_NODE: u32 = 2_147_483_648;

/// A part of a string in four bytes: the number of a symbol, or 2^31 and the index of a node.
/// Proofs have millions of them.
#[derive(Clone, Copy, PartialEq, Eq)]
pub struct Body(u32);

impl Model for Body {
    ghost Value = { ℕ };

    ghost view = { λ b. b.0 };

    ghost inverse = { λ n. record { 0 = n } };
}

impl Body {
    /// The symbol with the given number.
    #[inline(always)]
    pub fn symbol(number: u32) -> Body
        ensures { result ≡ number }
    {
        Body(number)
    }

    /// The string without symbols. There are never so many nodes that it is one of them.
    #[inline(always)]
    pub fn none() -> Body
        ensures { result ≡ no_body }
    {
        Body(4_294_967_295)
    }

    /// The node with the given index.
    #[inline(always)]
    pub fn node(index: u32) -> Body
        requires { index < first_node }
        ensures { result ≡ first_node + index }
    {
        Body(FIRST_NODE + index)
    }

    /// Whether it is a symbol.
    #[inline(always)]
    pub fn is_symbol(self) -> bool
        ensures { result ≡ nat_lt self first_node }
    {
        self.number() < FIRST_NODE
    }

    /// The index of the node; `None` for a symbol.
    #[inline(always)]
    pub fn index(self) -> Option<usize>
        ensures is_node { IfSome result (λ i. self ≡ first_node + i) }
        ensures is_symbol { IfNone result (self < first_node) }
    {
        if self.0 < FIRST_NODE {
            None
        } else {
            Some((self.0 - FIRST_NODE) as usize)
        }
    }

    /// Its number.
    #[inline(always)]
    pub fn number(self) -> u32
        ensures { result ≡ self }
    {
        self.0
    }
}
