// The codes that types 1, 3 and 4 list, as enums of their own: a value with an unlisted code cannot be made. `from_u8` and
// `code_u8` are the names of the ported crate (docs/CODES.md).
#![tactic(auto)]

pub mod dest_unreachable_code;
pub mod parameter_problem_code;
pub mod time_exceeded_code;
