// The lines that tell what differs between two lists, written into a lent buffer (docs/RULES.md V9 to V12). No `Display`, and numbers for refusals and
// types, as in dump_lines.
#![tactic(auto)]

ghost use Rattle.std.specs.Prelude.{◌≡◌, ◌++◌, ◌+◌, ◌≤◌, length};
ghost use Rattle.output.specs.Output.{written_told, room_for, leaves, Wrote};
ghost use Rattle.dump_lines.specs.Text.{newline, field};
ghost use Rattle.difference_lines.specs.Text.{pair_line, two_line, entry_line, last_line, kind_word};
ghost use Rattle.difference_lines.specs.Line.{fault_text, text};

use refusal::Refusal;

// The lines, in the order in which a text has them.
#[derive(Clone, Copy, Debug, PartialEq, Eq)]
pub enum Line {
    Title,
    // An entry of a report, by its five numbers (docs/RULES.md V3, V4): a report is promised as numbers, and a type in their place would ask more of
    // callers.
    Entry {
        what: u32,
        first: u32,
        second: u32,
        left: u32,
        right: u32,
    },
    Common {
        options: u64,
        bytes: u64,
    },
    // `entries`: how many are not `same`.
    Last {
        entries: u64,
    },
    // `list`: 1 or 2.
    Wrong {
        list: u8,
        fault: Fault,
    },
}

// What is wrong with a list.
#[derive(Clone, Copy, Debug, PartialEq, Eq)]
pub enum Fault {
    Stopped { number: u8, place: u64 },
    Empty,
    More { place: u64 },
    Refused { number: u8 },
    // `kind`: the type of a known message, 0 of an Unknown. By number, as in dump_lines.
    Kind { kind: u8 },
    RefusedAt { number: u8, place: u64 },
}

// The longest line, in bytes.
pub const LONGEST: usize = 128;

// Writes a line at a place of `out` and returns the place behind it. If the line does not fit it writes nothing and returns refusal 9.
pub fn put_line(out: &mut [u8], at: usize, line: Line) -> Result<usize, Refusal>
    ensures answers { (written_told result ≡ room_for (length (text line)) out.old at) × (length (text line) ≤ 128) }
    ensures lent { out.new ≡ leaves (room_for (length (text line)) out.old at) out.old at (text line) }
{
    let mut own = [0u8; 128];
    let n = put_text(&mut own, 0, line);
    output::put(out, at, &own[..n])
}

// Each of the following writes its text at a place of `out` and returns the place behind it.
fn put_text(out: &mut [u8], at: usize, line: Line) -> usize
    requires { at + 128 ≤ length out.old }
    ensures wrote { Wrote out.old at (text line) out.new result }
    ensures short { result ≤ at + 128 }
{
    match line {
        Line::Title => put_bytes(out, at, b"icmp6diff 1\n"),
        Line::Entry {
            what,
            first,
            second,
            left,
            right,
        } => put_entry(out, at, what, first, second, left, right),
        Line::Common { options, bytes } => {
            put_two(out, at, b"common ", options, b" bytes ", bytes)
        }
        Line::Last { entries } => put_last(out, at, entries),
        Line::Wrong { list, fault } => {
            let a = put_field(out, at, b"list ", u64::from(list));
            put_fault(out, a, fault)
        }
    }
}

fn put_fault(out: &mut [u8], at: usize, fault: Fault) -> usize
    requires { at + 64 ≤ length out.old }
    ensures wrote { Wrote out.old at (fault_text fault) out.new result }
    ensures short { result ≤ at + 64 }
{
    match fault {
        Fault::Stopped { number, place } => {
            put_two(out, at, b" stopped ", u64::from(number), b" at ", place)
        }
        Fault::Empty => put_bytes(out, at, b" empty\n"),
        Fault::More { place } => put_one(out, at, b" more at ", place),
        Fault::Refused { number } => put_one(out, at, b" refused ", u64::from(number)),
        Fault::Kind { kind } => put_word(out, at, kind),
        Fault::RefusedAt { number, place } => {
            put_two(out, at, b" refused ", u64::from(number), b" at ", place)
        }
    }
}

// As `same 16 16 type 1 bytes 8`, or `longer 2 at 64`.
fn put_entry(
    out: &mut [u8],
    at: usize,
    what: u32,
    first: u32,
    second: u32,
    left: u32,
    right: u32,
) -> usize
    requires { at + 128 ≤ length out.old }
    ensures wrote { Wrote out.old at (entry_line what first second left right) out.new result }
    ensures short { result ≤ at + 128 }
{
    let p = u64::from(first);
    let q = u64::from(second);
    let x = u64::from(left);
    let y = u64::from(right);
    match what {
        0 => put_pair(out, at, b"same ", p, q, b" type ", x, b" bytes ", y),
        1 => put_pair(out, at, b"type ", p, q, b" from ", x, b" to ", y),
        2 => put_pair(out, at, b"length ", p, q, b" from ", x, b" to ", y),
        3 => put_pair(out, at, b"byte ", p, q, b" from ", x, b" to ", y),
        _ => {
            // The place in the list that is longer.
            if left == 1 {
                return put_two(out, at, b"longer ", x, b" at ", p);
            }
            put_two(out, at, b"longer ", x, b" at ", q)
        }
    }
}

fn put_last(out: &mut [u8], at: usize, entries: u64) -> usize
    requires { at + 28 ≤ length out.old }
    ensures wrote { Wrote out.old at (last_line entries) out.new result }
    ensures short { result ≤ at + 28 }
{
    if entries == 0 {
        return put_bytes(out, at, b"equal\n");
    }
    put_one(out, at, b"differ ", entries)
}

// A space, the word for a kind, and the end of the line.
fn put_word(out: &mut [u8], at: usize, kind: u8) -> usize
    requires { at + 10 ≤ length out.old }
    ensures wrote { Wrote out.old at (kind_word kind) out.new result }
    ensures short { result ≤ at + 10 }
{
    let a = put_bytes(out, at, b" ");
    match dump_lines::put_kind(out, a, kind) {
        Ok(b) => put_bytes(out, b, b"\n"),
        // Never: there is room.
        Err(_) => at,
    }
}

// Two places, and two numbers with a word each.
fn put_pair(
    out: &mut [u8],
    at: usize,
    name: &[u8],
    p: u64,
    q: u64,
    left: &[u8],
    x: u64,
    right: &[u8],
    y: u64,
) -> usize
    requires { at + length name.now + length left.now + length right.now + 82 ≤ length out.old }
    ensures wrote { Wrote out.old at (pair_line name.now p q left.now x right.now y) out.new result }
    ensures short { result ≤ at + length name.now + length left.now + length right.now + 82 }
{
    let a = put_field(out, at, name, p);
    let b = put_field(out, a, b" ", q);
    put_two(out, b, left, x, right, y)
}

// Two numbers with a word each, and the end of the line.
fn put_two(out: &mut [u8], at: usize, name: &[u8], x: u64, next: &[u8], y: u64) -> usize
    requires { at + length name.now + length next.now + 41 ≤ length out.old }
    ensures wrote { Wrote out.old at (two_line name.now x next.now y) out.new result }
    ensures short { result ≤ at + length name.now + length next.now + 41 }
{
    let a = put_field(out, at, name, x);
    put_one(out, a, next, y)
}

// One number with a word, and the end of the line. This and the two below ask for room: dump_lines can't lend its own, since a public function asks for
// nothing.
fn put_one(out: &mut [u8], at: usize, name: &[u8], n: u64) -> usize
    requires { at + length name.now + 21 ≤ length out.old }
    ensures wrote { Wrote out.old at (field name.now n ++ newline) out.new result }
    ensures short { result ≤ at + length name.now + 21 }
{
    let a = put_field(out, at, name, n);
    put_bytes(out, a, b"\n")
}

// A fixed text, and a number after it.
fn put_field(out: &mut [u8], at: usize, name: &[u8], n: u64) -> usize
    requires { at + length name.now + 20 ≤ length out.old }
    ensures wrote { Wrote out.old at (field name.now n) out.new result }
    ensures short { result ≤ at + length name.now + 20 }
{
    let a = put_bytes(out, at, name);
    match dump_lines::put_number(out, a, n) {
        Ok(next) => next,
        // Never: there is room.
        Err(_) => at,
    }
}

// Bytes that fit.
fn put_bytes(out: &mut [u8], at: usize, bytes: &[u8]) -> usize
    requires { at + length bytes.now ≤ length out.old }
    ensures { Wrote out.old at bytes.now out.new result }
{
    // Never refused: there is room.
    output::put(out, at, bytes).unwrap_or(at)
}
