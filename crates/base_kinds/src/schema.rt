use base_lists::Texts;

/// The type of a leaf, or of the values of a leaf-list (RFC 7950 4.2.4 and 9, narrowed to this project's profile).
#[derive(Drop)]
pub enum Shape {
    /// boolean (9.5)
    Bool,
    /// int8 to int64 (9.2): signed numbers of 8, 16, 32 or 64 bits.
    Int(u8),
    /// uint8 to uint64 (9.2): unsigned numbers of 8, 16, 32 or 64 bits.
    Uint(u8),
    /// decimal64 (9.3) with so many fraction-digits, 1 to 18.
    Dec(u8),
    /// string (9.4)
    Text,
    /// binary (9.8)
    Bin,
    /// enumeration (9.6): one of these texts.
    Enum(Texts),
}

/// What a data node of a schema is (RFC 7950 4.2.2).
#[derive(Clone, Copy, PartialEq, Eq)]
pub enum Sort {
    Container,
    List,
    Leaf,
    LeafList,
}
