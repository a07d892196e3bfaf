// The numbers of the fields, as specs/Numbers.antt has them.

pub(crate) const SUB_SUBSCRIBE: u32 = 1;

pub(crate) const SUB_POLL: u32 = 3;

pub(crate) const SUB_EXTENSION: u32 = 5;

pub(crate) const LIST_PREFIX: u32 = 1;

pub(crate) const LIST_SUBSCRIPTION: u32 = 2;

pub(crate) const LIST_MODE: u32 = 5;

pub(crate) const LIST_USE_MODELS: u32 = 7;

pub(crate) const LIST_ENCODING: u32 = 8;

pub(crate) const LIST_UPDATES_ONLY: u32 = 9;

pub(crate) const LINE_PATH: u32 = 1;

pub(crate) const LINE_MODE: u32 = 2;

pub(crate) const LINE_SAMPLE_INTERVAL: u32 = 3;

pub(crate) const LINE_SUPPRESS_REDUNDANT: u32 = 4;

pub(crate) const LINE_HEARTBEAT_INTERVAL: u32 = 5;

pub(crate) const REPLY_UPDATE: u32 = 1;

pub(crate) const REPLY_SYNC_RESPONSE: u32 = 3;

pub(crate) const TARGET_DEFINED: u32 = 0;

pub(crate) const ON_CHANGE: u32 = 1;

pub(crate) const SAMPLE: u32 = 2;

pub(crate) const STREAM: u32 = 0;

pub(crate) const ONCE: u32 = 1;

pub(crate) const POLL: u32 = 2;
