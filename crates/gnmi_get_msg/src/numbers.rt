// The numbers of the fields, as specs/Numbers.antt has them.

pub(crate) const GET_PREFIX: u32 = 1;

pub(crate) const GET_PATH: u32 = 2;

pub(crate) const GET_TYPE: u32 = 3;

pub(crate) const GET_ENCODING: u32 = 5;

pub(crate) const GET_USE_MODELS: u32 = 6;

pub(crate) const GET_EXTENSION: u32 = 7;

pub(crate) const TYPE_STATE: u32 = 2;

pub(crate) const TYPE_OPERATIONAL: u32 = 3;

pub(crate) const REPLY_NOTIFICATION: u32 = 1;

pub(crate) const SUPPORTED_MODELS: u32 = 1;

pub(crate) const SUPPORTED_ENCODINGS: u32 = 2;

pub(crate) const GNMI_VERSION: u32 = 3;
