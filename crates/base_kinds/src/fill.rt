/// How the octets that were written since the last sync read after a stop: as at that sync, as they were written,
/// or as this octet.
#[derive(Clone, Copy, Debug, PartialEq, Eq)]
pub enum Fill {
    Old,
    New,
    Octet(u8),
}
