// The known message types (docs/RULES.md H3): the one table that decoder, dispatch, writer and receive check ask.
#![tactic(auto)]

ghost use Rattle.std.specs.Prelude.{◌≡◌};
ghost use Rattle.message_table.specs.Table.{rows, row_of, known, fixed_len, is_ndp};

pub mod types;

// A known type (the byte of the wire, which any caller may ask), how many codes it has (listed from 0 on), and the bytes of its fixed part behind the head.
#[derive(Clone, Copy, Debug, PartialEq, Eq)]
pub struct Row {
    pub kind: u8,
    pub codes: u8,
    pub fixed: usize,
}

pub const ROWS: [Row; 11] = [
    Row {
        kind: types::TYPE_DST_UNREACH,
        codes: 7,
        fixed: 0,
    },
    Row {
        kind: types::TYPE_PACKET_TOO_BIG,
        codes: 1,
        fixed: 0,
    },
    Row {
        kind: types::TYPE_TIME_EXCEEDED,
        codes: 2,
        fixed: 0,
    },
    Row {
        kind: types::TYPE_PARAMETER_PROBLEM,
        codes: 11,
        fixed: 0,
    },
    Row {
        kind: types::TYPE_ECHO_REQUEST,
        codes: 1,
        fixed: 0,
    },
    Row {
        kind: types::TYPE_ECHO_REPLY,
        codes: 1,
        fixed: 0,
    },
    Row {
        kind: types::TYPE_ROUTER_SOLICITATION,
        codes: 1,
        fixed: 0,
    },
    Row {
        kind: types::TYPE_ROUTER_ADVERTISEMENT,
        codes: 1,
        fixed: 8,
    },
    Row {
        kind: types::TYPE_NEIGHBOR_SOLICITATION,
        codes: 1,
        fixed: 16,
    },
    Row {
        kind: types::TYPE_NEIGHBOR_ADVERTISEMENT,
        codes: 1,
        fixed: 16,
    },
    Row {
        kind: types::TYPE_REDIRECT_MESSAGE,
        codes: 1,
        fixed: 32,
    },
];

// The row of a type. A type that the table does not have gets a row without codes and without a fixed part.
// By places in the table, and not by `for`: of these the compiler makes a choice by numbers, where it would search in each call (docs/DESIGN-PASS.md).
fn row_of(kind: u8) -> Row
    ensures { result ≡ row_of rows kind }
{
    let rows = ROWS;
    let mut i: usize = 0;
    while i < 11 {
        let row = rows[i];
        if row.kind == kind {
            return row;
        }
        i += 1;
    }
    Row {
        kind,
        codes: 0,
        fixed: 0,
    }
}

// Whether the table has a type with this code.
#[tactic(auto, unfolding(crate::specs::Table::known))]
pub fn is_known(kind: u8, code: u8) -> bool
    ensures { result ≡ known kind code }
{
    code < row_of(kind).codes
}

// The length of a type's fixed part, whatever the code; 0 if the table does not have the type.
// A function of its own in compiled code: written into each caller, it takes a call that writes so many registers that a jump goes through memory, which
// include/brothladder.h says there is none of.
#[inline(never)]
#[tactic(auto, unfolding(crate::specs::Table::fixed_len))]
pub fn fixed_len(kind: u8) -> usize
    ensures { result ≡ fixed_len kind }
{
    row_of(kind).fixed
}

// Whether a type is one of Neighbor Discovery: their numbers stand in a row.
pub fn is_ndp(kind: u8) -> bool
    ensures { result ≡ is_ndp kind }
{
    matches!(kind, 133..=137)
}
