// The numbers of the fields, as specs/Numbers.antt has them.

pub(crate) const PATH_ELEMENT: u32 = 1;

pub(crate) const PATH_ORIGIN: u32 = 2;

pub(crate) const PATH_ELEM: u32 = 3;

pub(crate) const PATH_TARGET: u32 = 4;

pub(crate) const ELEM_NAME: u32 = 1;

pub(crate) const ELEM_KEY: u32 = 2;

pub(crate) const ENTRY_KEY: u32 = 1;

pub(crate) const ENTRY_VALUE: u32 = 2;

pub(crate) const STRING_VAL: u32 = 1;

pub(crate) const INT_VAL: u32 = 2;

pub(crate) const UINT_VAL: u32 = 3;

pub(crate) const BOOL_VAL: u32 = 4;

pub(crate) const BYTES_VAL: u32 = 5;

pub(crate) const FLOAT_VAL: u32 = 6;

pub(crate) const DECIMAL_VAL: u32 = 7;

pub(crate) const LEAFLIST_VAL: u32 = 8;

pub(crate) const ANY_VAL: u32 = 9;

pub(crate) const JSON_VAL: u32 = 10;

pub(crate) const JSON_IETF_VAL: u32 = 11;

pub(crate) const ASCII_VAL: u32 = 12;

pub(crate) const PROTO_BYTES: u32 = 13;

pub(crate) const DOUBLE_VAL: u32 = 14;

pub(crate) const DECIMAL_DIGITS: u32 = 1;

pub(crate) const DECIMAL_PRECISION: u32 = 2;

pub(crate) const ARRAY_ELEMENT: u32 = 1;
