// The numbers of the fields, as specs/Numbers.antt has them.

pub(crate) const UPDATE_PATH: u32 = 1;

pub(crate) const UPDATE_VAL: u32 = 3;

pub(crate) const SET_PREFIX: u32 = 1;

pub(crate) const SET_DELETE: u32 = 2;

pub(crate) const SET_REPLACE: u32 = 3;

pub(crate) const SET_UPDATE: u32 = 4;

pub(crate) const SET_EXTENSION: u32 = 5;

pub(crate) const REPLY_PREFIX: u32 = 1;

pub(crate) const REPLY_RESPONSE: u32 = 2;

pub(crate) const REPLY_TIMESTAMP: u32 = 4;

pub(crate) const RESULT_PATH: u32 = 2;

pub(crate) const RESULT_OP: u32 = 4;
