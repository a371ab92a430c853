ghost use Rattle.std.specs.Prelude.{◌≡◌, [], length};
ghost use Rattle.terms.specs.Script.{first_at};
ghost use Rattle.terms.specs.Table.{terms_in, node_at, Begun};

use crate::term::Term;
use arrayvec::ArrayVec;

// A term and the first label of its span.
#[derive(Clone, Copy, Default)]
pub(crate) struct Node {
    pub(crate) term: Term,
    pub(crate) first: u8,
}

// The terms in the order of their labels, which begin at 1, and how many symbols they may name.
#[derive(Drop)]
pub(crate) struct Table {
    pub(crate) nodes: ArrayVec<Node, 255>,
    pub(crate) symbols: u8,
    ghost begun: { Begun nodes.items },
}

impl Table {
    // No terms yet.
    pub(crate) fn new(symbols: u8) -> Table
        ensures { (result.nodes.items ≡ []) × (result.symbols ≡ symbols) }
    {
        Table {
            nodes: ArrayVec::new(),
            symbols,
        }
    }

    // The label of the last term; 0 where there is none.
    pub(crate) fn last(&self) -> u8
        ensures { result ≡ length self.now.nodes.items }
    {
        self.nodes.len() as u8
    }

    // The term with this label and its first label, if there is one. At 0 the index wraps to one that no node has.
    pub(crate) fn node(&self, label: u8) -> Option<Node>
        ensures { result ≡ node_at self.now.nodes.items label }
    {
        self.nodes.get(usize::from(label).wrapping_sub(1)).copied()
    }

    // The first label of a term's span; 0 where no term is.
    pub(crate) fn first(&self, label: u8) -> u8
        ensures { result ≡ first_at (terms_in self.now.nodes.items) label }
    {
        self.node(label).map_or(0, |node| node.first)
    }
}
