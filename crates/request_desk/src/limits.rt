// The bounds of replies and of names, as specs/Limits.antt has them.

/// The octets that a Set's reply may have without its timestamp, which is counted as ten.
pub(crate) const MOST_FRONT_OCTETS: usize = 4_194_294;

/// The octets that the reply to a Get may have.
pub(crate) const MOST_REPLY_OCTETS: usize = 4_194_304;

/// The octets that the target's name may have in the prefix of a Get.
pub(crate) const MOST_TARGET_OCTETS: usize = 1_024;
