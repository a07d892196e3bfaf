// The numbers of the fields, as specs/Numbers.antt has them.

pub(crate) const EXTENSION_REGISTERED_EXT: u32 = 1;

pub(crate) const EXTENSION_MASTER_ARBITRATION: u32 = 2;

pub(crate) const EXTENSION_HISTORY: u32 = 3;

pub(crate) const EXTENSION_COMMIT: u32 = 4;

pub(crate) const EXTENSION_DEPTH: u32 = 5;

pub(crate) const EXTENSION_CONFIG_SUBSCRIPTION: u32 = 6;

pub(crate) const COMMIT_ID: u32 = 1;

pub(crate) const COMMIT_COMMIT: u32 = 2;

pub(crate) const COMMIT_CONFIRM: u32 = 3;

pub(crate) const COMMIT_CANCEL: u32 = 4;

pub(crate) const COMMIT_SET_ROLLBACK_DURATION: u32 = 5;

pub(crate) const ROLLBACK_DURATION: u32 = 1;

pub(crate) const DURATION_SECONDS: u32 = 1;

pub(crate) const DURATION_NANOS: u32 = 2;
