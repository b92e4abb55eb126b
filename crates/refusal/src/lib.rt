// The refusals (docs/RULES.md N1 to N23), which every answer of the library shares.
#![tactic(auto)]

ghost use Rattle.std.specs.Prelude.{◌≡◌, get_or, length};
ghost use Rattle.refusal.specs.Table.{number, values};
ghost use Rattle.refusal.specs.Paper.{refusal, numbers_of};

// The type field of a Neighbor Discovery option (RFC 4861, section 4.6).
#[derive(Clone, Copy, Debug, PartialEq, Eq)]
pub struct NdpOptionType(pub u8);

// The length field of an option, in units of eight octets: never a number of bytes.
#[derive(Clone, Copy, Debug, PartialEq, Eq)]
pub struct LengthUnits(pub u8);

// The variants stand in the order of the table: 1 to 23. Kinds, codes and reasons are numbers here, since a type of another crate would ask more of whoever
// makes one. A place is that in the whole packet.
#[derive(Clone, Copy, Debug, PartialEq, Eq)]
pub enum Refusal {
    ShortPacket {
        least: usize,
        length: usize,
    },
    LongPacket {
        limit: usize,
        length: usize,
    },
    LongPayload {
        limit: usize,
        length: usize,
    },
    ShortFixedPart {
        needed: usize,
        present: usize,
    },
    UnexpectedSize {
        id: NdpOptionType,
        expected: usize,
        actual: usize,
        place: usize,
    },
    ZeroLength {
        id: NdpOptionType,
        place: usize,
    },
    UnexpectedEndOfSlice {
        id: NdpOptionType,
        expected: usize,
        actual: usize,
        place: usize,
    },
    UnexpectedHeader {
        expected: NdpOptionType,
        actual: NdpOptionType,
        expected_units: LengthUnits,
        actual_units: LengthUnits,
        place: usize,
    },
    ShortOutput {
        needed: usize,
    },
    KnownPair {
        kind: u8,
        code: u8,
    },
    NotReceived {
        reason: u8,
    },
    NoMark {
        place: u64,
    },
    LongRecord {
        length: usize,
    },
    CaptureEnds {
        place: u64,
    },
    ShortQuote {
        place: usize,
    },
    QuoteVersion {
        place: usize,
    },
    DeepQuote {
        place: usize,
    },
    LongRoutePrefix {
        place: usize,
    },
    NoWord {
        place: usize,
    },
    ManyOptions,
    NoPlan,
    FarOffset,
    OtherIndex,
}

// A refusal as numbers: its number, how many values it carries, and the values, 0 past the last: an array, as the C structs have it.
#[derive(Clone, Copy, Debug, PartialEq, Eq)]
pub struct Numbers {
    pub number: u8,
    pub count: usize,
    pub values: [u64; 5],
}

impl Refusal {
    pub fn numbers(self) -> Numbers
        ensures { result ≡ numbers_of (refusal self) }
    {
        match self {
            Refusal::ShortPacket { least, length } => Numbers {
                number: 1,
                count: 2,
                values: [least as u64, length as u64, 0, 0, 0],
            },
            Refusal::LongPacket { limit, length } => Numbers {
                number: 2,
                count: 2,
                values: [limit as u64, length as u64, 0, 0, 0],
            },
            Refusal::LongPayload { limit, length } => Numbers {
                number: 3,
                count: 2,
                values: [limit as u64, length as u64, 0, 0, 0],
            },
            Refusal::ShortFixedPart { needed, present } => Numbers {
                number: 4,
                count: 2,
                values: [needed as u64, present as u64, 0, 0, 0],
            },
            Refusal::UnexpectedSize {
                id,
                expected,
                actual,
                place,
            } => Numbers {
                number: 5,
                count: 4,
                values: [
                    u64::from(id.0),
                    expected as u64,
                    actual as u64,
                    place as u64,
                    0,
                ],
            },
            Refusal::ZeroLength { id, place } => Numbers {
                number: 6,
                count: 2,
                values: [u64::from(id.0), place as u64, 0, 0, 0],
            },
            Refusal::UnexpectedEndOfSlice {
                id,
                expected,
                actual,
                place,
            } => Numbers {
                number: 7,
                count: 4,
                values: [
                    u64::from(id.0),
                    expected as u64,
                    actual as u64,
                    place as u64,
                    0,
                ],
            },
            Refusal::UnexpectedHeader {
                expected,
                actual,
                expected_units,
                actual_units,
                place,
            } => Numbers {
                number: 8,
                count: 5,
                values: [
                    u64::from(expected.0),
                    u64::from(actual.0),
                    u64::from(expected_units.0),
                    u64::from(actual_units.0),
                    place as u64,
                ],
            },
            Refusal::ShortOutput { needed } => Numbers {
                number: 9,
                count: 1,
                values: [needed as u64, 0, 0, 0, 0],
            },
            Refusal::KnownPair { kind, code } => Numbers {
                number: 10,
                count: 2,
                values: [u64::from(kind), u64::from(code), 0, 0, 0],
            },
            Refusal::NotReceived { reason } => Numbers {
                number: 11,
                count: 1,
                values: [u64::from(reason), 0, 0, 0, 0],
            },
            Refusal::NoMark { place } => Numbers {
                number: 12,
                count: 1,
                values: [place, 0, 0, 0, 0],
            },
            Refusal::LongRecord { length } => Numbers {
                number: 13,
                count: 1,
                values: [length as u64, 0, 0, 0, 0],
            },
            Refusal::CaptureEnds { place } => Numbers {
                number: 14,
                count: 1,
                values: [place, 0, 0, 0, 0],
            },
            Refusal::ShortQuote { place } => Numbers {
                number: 15,
                count: 1,
                values: [place as u64, 0, 0, 0, 0],
            },
            Refusal::QuoteVersion { place } => Numbers {
                number: 16,
                count: 1,
                values: [place as u64, 0, 0, 0, 0],
            },
            Refusal::DeepQuote { place } => Numbers {
                number: 17,
                count: 1,
                values: [place as u64, 0, 0, 0, 0],
            },
            Refusal::LongRoutePrefix { place } => Numbers {
                number: 18,
                count: 1,
                values: [place as u64, 0, 0, 0, 0],
            },
            Refusal::NoWord { place } => Numbers {
                number: 19,
                count: 1,
                values: [place as u64, 0, 0, 0, 0],
            },
            Refusal::ManyOptions => Numbers {
                number: 20,
                count: 0,
                values: [0, 0, 0, 0, 0],
            },
            Refusal::NoPlan => Numbers {
                number: 21,
                count: 0,
                values: [0, 0, 0, 0, 0],
            },
            Refusal::FarOffset => Numbers {
                number: 22,
                count: 0,
                values: [0, 0, 0, 0, 0],
            },
            Refusal::OtherIndex => Numbers {
                number: 23,
                count: 0,
                values: [0, 0, 0, 0, 0],
            },
        }
    }

    // The number in the table.
    pub fn number(self) -> u8
        ensures { result ≡ number self }
    {
        self.numbers().number
    }

    // How many numbers it carries.
    pub fn count(self) -> usize
        ensures { result ≡ length (values self) }
    {
        self.numbers().count
    }

    // The i-th value, counted from 0; 0 past the last.
    pub fn value(self, i: usize) -> u64
        ensures { result ≡ get_or (values self) i 0 }
    {
        if i < 5 { self.numbers().values[i] } else { 0 }
    }
}
