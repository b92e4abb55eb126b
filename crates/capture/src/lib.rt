// One record of a capture, read (docs/RULES.md C1 to C6, C8, C9).
#![tactic(auto)]

ghost use Rattle.std.specs.Prelude.{◌≡◌, ◌+◌, ◌<◌, length, take, drop};
ghost use Rattle.capture.specs.Record.{allows, marked as record_marked, address_at, record_of, record_placed, next_of};
ghost use Rattle.capture.specs.Paper.{next_paper};

use refusal::Refusal;

// The bytes before the packet: the mark, a hop limit, two addresses and the packet's length.
pub const HEAD_LEN: usize = 37;

// The longest packet of a record, and the longest one under the first mark, 49 36: longer ones have the second, 49 37.
pub const MAX_PACKET_LEN: usize = 9000;

pub const MAX_SHORT_LEN: usize = 2048;

// The longest record, in bytes.
pub const MAX_RECORD_LEN: usize = HEAD_LEN + MAX_PACKET_LEN;

// Where the parts of a record stand in the capture; `next` is the place after its last byte.
#[derive(Clone, Copy, Debug, PartialEq, Eq)]
pub struct Record {
    pub hop_limit: u8,
    pub source: usize,
    pub destination: usize,
    pub packet: usize,
    pub len: usize,
    pub next: usize,
}

// The record at a place of `capture`, whose own first byte is `base` bytes from the start of the whole capture.
// A place beyond the bytes is refused like a record that is cut off: it is not the end of the capture.
#[tactic(auto, unfolding(crate::specs::Record::next_of))]
pub fn next_record(capture: &[u8], at: usize, base: u64) -> Result<Option<Record>, Refusal>
    ensures { next_paper result ≡ next_of capture.now at base }
{
    let place = base.wrapping_add(at as u64);
    if capture.len() < at {
        return Err(Refusal::CaptureEnds { place });
    }
    first_record(&capture[at..], at, place)
}

// The record that `left` begins with.
#[tactic(auto, unfolding(crate::specs::Record::allowed, crate::specs::Record::record_of))]
fn first_record(left: &[u8], at: usize, place: u64) -> Result<Option<Record>, Refusal>
    requires { at + length left.now < 18446744073709551616 }
    ensures { next_paper result ≡ record_placed at (record_of left.now place) }
{
    if left.is_empty() {
        return Ok(None);
    }
    if left.len() < 2 {
        return Err(Refusal::CaptureEnds { place });
    }
    if !marked(left) {
        return Err(Refusal::NoMark { place });
    }
    if left.len() < HEAD_LEN {
        return Err(Refusal::CaptureEnds { place });
    }
    let len = usize::from(wire::u16_from_be(left[35], left[36]));
    if !allowed(wire::begins_with(left, b"I7"), len) {
        return Err(Refusal::LongRecord { length: len });
    }
    if left.len() - HEAD_LEN < len {
        return Err(Refusal::CaptureEnds { place });
    }
    Ok(Some(Record {
        hop_limit: left[2],
        source: at + 3,
        destination: at + 19,
        packet: at + HEAD_LEN,
        len,
        next: at + HEAD_LEN + len,
    }))
}

// Whether bytes begin with one of the marks.
#[tactic(auto, unfolding(crate::specs::Record::marked))]
fn marked(left: &[u8]) -> bool
    ensures { result ≡ record_marked left.now }
{
    wire::begins_with(left, b"I6") || wire::begins_with(left, b"I7")
}

// Whether a mark allows a packet's length: each record has one form.
fn allowed(long: bool, len: usize) -> bool
    ensures { result ≡ allows long len }
{
    if long {
        MAX_SHORT_LEN < len && len <= MAX_PACKET_LEN
    } else {
        len <= MAX_SHORT_LEN
    }
}

// The bytes from a place on, `len` of them or as many as there are. Use it to get an address or the packet of a record.
pub fn part<'a>(capture: &'a [u8], at: usize, len: usize) -> &'a [u8]
    ensures { result.now ≡ take len (drop at capture.now) }
{
    let left = capture.get(at..).unwrap_or(&[]);
    left.get(..len).unwrap_or(left)
}

// The address at a place: its 16 bytes, 0 in place of those that are not there.
pub fn address(capture: &[u8], at: usize) -> [u8; 16]
    ensures { result ≡ address_at capture.now at }
{
    let mut address = [0u8; 16];
    let bytes = part(capture, at, 16);
    address[..bytes.len()].copy_from_slice(bytes);
    address
}

// The records of a capture from a place on. It gives each record, and at last the refusal of what is none, if there is one; behind a refusal nothing is read.
#[derive(Clone, Copy, Debug)]
pub struct Records<'a> {
    pub capture: &'a [u8],
    // None behind a refusal.
    pub at: Option<usize>,
}

impl Iterator for Records<'_> {
    ghost use Rattle.capture.specs.Records.{GivesRecord, left_from};

    type Item = Result<Record, Refusal>;

    ghost next_gives = { λ s r t. (t.capture ≡ s.capture) × GivesRecord s.capture.now s.at r t.at };

    ghost remaining = { λ s. left_from s.capture.now s.at };

    fn next(&mut self) -> Option<Result<Record, Refusal>> {
        let found = next_record(self.capture, self.at?, 0).transpose()?;
        self.at = found.ok().map(|record| record.next);
        Some(found)
    }
}
