// The numbers of the fields, as gnmi.proto and gnmi_ext.proto have them.

pub(crate) const PATH_TARGET: u32 = 4;

pub(crate) const JSON_IETF_VAL: u32 = 11;

pub(crate) const UPDATE_PATH: u32 = 1;

pub(crate) const UPDATE_VAL: u32 = 3;

pub(crate) const NOTE_TIMESTAMP: u32 = 1;

pub(crate) const NOTE_PREFIX: u32 = 2;

pub(crate) const NOTE_UPDATE: u32 = 4;

pub(crate) const NOTE_DELETE: u32 = 5;

pub(crate) const EXTENSION_COMMIT: u32 = 4;

pub(crate) const SET_PREFIX: u32 = 1;

pub(crate) const SET_DELETE: u32 = 2;

pub(crate) const SET_REPLACE: u32 = 3;

pub(crate) const SET_UPDATE: u32 = 4;

pub(crate) const SET_EXTENSION: u32 = 5;

pub(crate) const SET_REPLY_PREFIX: u32 = 1;

pub(crate) const SET_REPLY_RESPONSE: u32 = 2;

pub(crate) const SET_REPLY_TIMESTAMP: u32 = 4;

pub(crate) const RESULT_PATH: u32 = 2;

pub(crate) const RESULT_OP: u32 = 4;

pub(crate) const GET_PATH: u32 = 2;

pub(crate) const GET_ENCODING: u32 = 5;

pub(crate) const GET_REPLY_NOTIFICATION: u32 = 1;

pub(crate) const SUPPORTED_MODELS: u32 = 1;

pub(crate) const SUPPORTED_ENCODINGS: u32 = 2;

pub(crate) const GNMI_VERSION: u32 = 3;

pub(crate) const MODEL_NAME: u32 = 1;

pub(crate) const MODEL_ORGANIZATION: u32 = 2;

pub(crate) const MODEL_VERSION: u32 = 3;
