ghost use Rattle.std.specs.Prelude.{◌≡◌};
ghost use Rattle.mono_tree.specs.computed.CountedSizes.{joined, grown, is_too_large};

use mono_syntax::{GREATEST_DEPTH, MOST_NODES};

/// The nodes and the depth of a type, each counted up to one more than a type may have.
#[derive(Clone, Copy, Debug, PartialEq, Eq)]
pub struct Size {
    pub nodes: u32,
    pub depth: u32,
}

impl Size {
    /// A type without parts.
    pub const LEAF: Size = Size { nodes: 1, depth: 1 };

    /// No part yet.
    pub const NOTHING: Size = Size { nodes: 0, depth: 0 };

    /// These parts and one more.
    pub fn joined(self, part: Size) -> Size
        ensures { result ≡ joined self part }
    {
        Size {
            nodes: self.nodes.saturating_add(part.nodes).min(MOST_NODES + 1),
            depth: self.depth.max(part.depth),
        }
    }

    /// The whole of these parts.
    pub fn grown(self) -> Size
        ensures { result ≡ grown self }
    {
        Size {
            nodes: self.nodes.saturating_add(1).min(MOST_NODES + 1),
            depth: self.depth.saturating_add(1).min(GREATEST_DEPTH + 1),
        }
    }

    /// Whether the size is over the limits.
    pub fn is_too_large(self) -> bool
        ensures { result ≡ is_too_large self }
    {
        MOST_NODES < self.nodes || GREATEST_DEPTH < self.depth
    }
}
