use base_kinds::{Shape, Text, Texts};

/// What a line of a schema says.
#[derive(Drop)]
pub(crate) enum Line {
    /// An empty line, or one that begins with `#`.
    Skipped,
    /// `module NAME`: the module of the nodes that follow.
    Module(Text),
    /// A node with these names from the root to it.
    Node(Texts, Declared),
}

/// A node as its line declares it.
#[derive(Drop)]
pub(crate) enum Declared {
    Container,
    /// The names of the keys, and how many entries it may have.
    List(Texts, Option<u32>),
    /// The shape, whether it is mandatory, and the names of the leaf that it refers to.
    Leaf(Shape, bool, Option<Texts>),
    /// The shape, and how many values it may have.
    LeafList(Shape, Option<u32>),
}
