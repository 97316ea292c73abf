// Where in a message block the receiver has its windows, for code (specs/Message.antt has the same names).
pub const TRANSLATE_WINDOW: usize = 1;

pub const DELEGATE_WINDOW: usize = 2;
