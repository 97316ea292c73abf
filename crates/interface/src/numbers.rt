// The numbers of the hypercalls that are built, for code (specs/Verdicts.antt has the same names). Callers in any language and a journal's records give them as numbers.
pub const CALL: u32 = 0;

pub const CREATE_PD: u32 = 2;

pub const CREATE_EC: u32 = 3;

pub const CREATE_SC: u32 = 4;

pub const CREATE_PT: u32 = 5;

pub const CREATE_SM: u32 = 6;

pub const REVOKE: u32 = 7;

pub const LOOKUP: u32 = 8;

pub const SM_CTRL: u32 = 11;
