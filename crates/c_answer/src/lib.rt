// The calls for C take numbers and byte buffers and answer one struct of numbers; include/brothladder.h tells a C programmer the same.
// Here is what came: the first number of every answer. All differ, over all calls, and none is 0, so that no answer reads as false and
// memory that was cleared is no answer. Every struct begins with the same three numbers, flat, as the header declares them, so each call makes its own; and a
// call is a crate, so that an archive holds only those that are asked for. An array gets a name before it goes into a struct: straight from a field it gets
// no proof.
#![tactic(auto)]

pub const REFUSED: u32 = 1;

pub const KNOWN: u32 = 2;

pub const UNKNOWN: u32 = 3;

pub const VALID: u32 = 4;

pub const INVALID: u32 = 5;

pub const OPTION: u32 = 6;

pub const END: u32 = 7;

pub const STOPPED: u32 = 8;

pub const RECEIVED: u32 = 9;

pub const WRITTEN: u32 = 10;

pub const PREFIX: u32 = 11;

pub const CHAIN: u32 = 12;

pub const ROUTE: u32 = 13;

pub const IGNORED: u32 = 14;

pub const SERVERS: u32 = 15;

pub const PREFERENCE: u32 = 16;

pub const SUM: u32 = 17;

pub const UPDATED: u32 = 18;

pub const INDEXED: u32 = 19;

pub const FOUND: u32 = 20;

pub const NONE: u32 = 21;

pub const ACCEPTED: u32 = 22;

pub const NOT_ACCEPTED: u32 = 23;

pub const PLANNED: u32 = 24;

pub const MTU: u32 = 25;

pub const BYTES: u32 = 26;

pub const MESSAGE: u32 = 27;
