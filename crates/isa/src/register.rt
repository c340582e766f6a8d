// General registers that have a use of their own.

// The base of a module's data, and of its code (document 01, Module and its guards).
pub const DATA_BASE: u32 = 26;

pub const CODE_BASE: u32 = 27;

// The return address, where a call names no other register.
pub const LINK: u32 = 31;
