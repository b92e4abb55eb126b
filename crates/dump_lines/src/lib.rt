// The lines of the dump, written into a lent buffer (docs/RULES.md D1 to D9). No `Display`: it says nothing of an `Err`, so that refusal 9 could not be
// promised, and a line would take several times the instructions. Refusals, reasons and types are told by number, as the lines
// write them: a line says nothing else of them. A buffer and a place in it stay two parameters: of a struct that borrows a buffer each promise would name its
// two moments.
#![tactic(auto)]

ghost use Rattle.std.specs.Prelude.{◌≡◌, [], ◌∷◌, ◌++◌, ◌+◌, ◌≤◌, ◌<◌, length};
ghost use Rattle.output.specs.Output.{written_told, room_for, leaves, Wrote};
ghost use Rattle.dump_lines.specs.Digits.{decimal, pair, hex4, glyph as digits_glyph};
ghost use Rattle.dump_lines.specs.Text.{field, newline};
ghost use Rattle.dump_lines.specs.Line.{word_for, ok_word, text};

use refusal::Refusal;

// The lines, in the order in which a listing has them.
#[derive(Clone, Copy, Debug, PartialEq, Eq)]
pub enum Line {
    Title,
    Record {
        number: u64,
        place: u64,
    },
    // `kind`: the type of a known message, 0 of an Unknown. By number: a message without its fixed part has a line and no payload.
    Head {
        kind: u8,
        code: u8,
        sum: u16,
        ok: bool,
        len: u64,
        recv: u64,
    },
    Opt {
        place: u64,
        kind: u8,
        bytes: u64,
    },
    End {
        number: u64,
    },
    RefusedAt {
        number: u8,
        place: u64,
    },
    Refused {
        number: u8,
    },
    Records {
        number: u64,
    },
    Stopped {
        number: u8,
        place: u64,
    },
}

// The longest line, in bytes.
pub const LONGEST: usize = 128;

// Writes a line at a place of `out` and returns the place behind it. If the line does not fit it writes nothing and returns refusal 9.
pub fn put_line(out: &mut [u8], at: usize, line: Line) -> Result<usize, Refusal>
    ensures answers { (written_told result ≡ room_for (length (text line)) out.old at) × (length (text line) ≤ 128) }
    ensures lent { out.new ≡ leaves (room_for (length (text line)) out.old at) out.old at (text line) }
{
    // Not asked of `room`: of a buffer whose length is known this is one comparison.
    if LONGEST <= out.len() && at <= out.len() - LONGEST {
        return Ok(put_text(out, at, line));
    }
    let mut own = [0u8; 128];
    let n = put_text(&mut own, 0, line);
    output::put(out, at, &own[..n])
}

// The pieces that lines of other kinds are made of too: a number in decimal, and the word for a kind. They refuse as `put_line` does.
pub fn put_number(out: &mut [u8], at: usize, n: u64) -> Result<usize, Refusal>
    ensures answers { (written_told result ≡ room_for (length (decimal n)) out.old at) × (length (decimal n) ≤ 20) }
    ensures lent { out.new ≡ leaves (room_for (length (decimal n)) out.old at) out.old at (decimal n) }
{
    let mut own = [0u8; 20];
    let digits = put_decimal(&mut own, 0, n);
    output::put(out, at, &own[..digits])
}

pub fn put_kind(out: &mut [u8], at: usize, kind: u8) -> Result<usize, Refusal>
    ensures answers { (written_told result ≡ room_for (length (word_for kind)) out.old at) × (length (word_for kind) ≤ 8) }
    ensures lent { out.new ≡ leaves (room_for (length (word_for kind)) out.old at) out.old at (word_for kind) }
{
    let mut own = [0u8; 8];
    let word = put_word(&mut own, 0, kind);
    output::put(out, at, &own[..word])
}

// Each of the following writes its text at a place of `out` and returns the place behind it.
fn put_text(out: &mut [u8], at: usize, line: Line) -> usize
    requires { at + 128 ≤ length out.old }
    ensures wrote { Wrote out.old at (text line) out.new result }
    ensures short { result ≤ at + 128 }
{
    match line {
        Line::Title => put_bytes(out, at, b"icmp6 1\n"),
        Line::Record { number, place } => {
            let a = put_field(out, at, b"record ", number);
            put_one(out, a, b" at ", place)
        }
        Line::Head {
            kind,
            code,
            sum,
            ok,
            len,
            recv,
        } => put_head(out, at, kind, code, sum, ok, len, recv),
        Line::Opt { place, kind, bytes } => {
            let a = put_field(out, at, b"opt ", place);
            let b = put_field(out, a, b" type ", u64::from(kind));
            put_one(out, b, b" bytes ", bytes)
        }
        Line::End { number } => put_one(out, at, b"end ", number),
        Line::RefusedAt { number, place } => {
            let a = put_field(out, at, b"refused ", u64::from(number));
            put_one(out, a, b" at ", place)
        }
        Line::Refused { number } => put_one(out, at, b"refused ", u64::from(number)),
        Line::Records { number } => put_one(out, at, b"records ", number),
        Line::Stopped { number, place } => {
            let a = put_field(out, at, b"stopped ", u64::from(number));
            put_one(out, a, b" at ", place)
        }
    }
}

// As `rs code 0 sum 7a2c ok len 16 recv 0`.
fn put_head(
    out: &mut [u8],
    at: usize,
    kind: u8,
    code: u8,
    sum: u16,
    ok: bool,
    len: u64,
    recv: u64,
) -> usize
    requires { at + 128 ≤ length out.old }
    ensures wrote { Wrote out.old at (text (Line.Head kind code sum ok len recv)) out.new result }
    ensures short { result ≤ at + 128 }
{
    let a = put_word(out, at, kind);
    let b = put_field(out, a, b" code ", u64::from(code));
    let c = put_bytes(out, b, b" sum ");
    let d = put_hex4(out, c, sum);
    let e = put_verdict(out, d, ok);
    let f = put_field(out, e, b" len ", len);
    put_one(out, f, b" recv ", recv)
}

fn put_word(out: &mut [u8], at: usize, kind: u8) -> usize
    requires { at + 8 ≤ length out.old }
    ensures wrote { Wrote out.old at (word_for kind) out.new result }
    ensures short { result ≤ at + 8 }
{
    match kind {
        1 => put_bytes(out, at, b"unreach"),
        2 => put_bytes(out, at, b"toobig"),
        3 => put_bytes(out, at, b"exceeded"),
        4 => put_bytes(out, at, b"param"),
        128 => put_bytes(out, at, b"echoreq"),
        129 => put_bytes(out, at, b"echorep"),
        133 => put_bytes(out, at, b"rs"),
        134 => put_bytes(out, at, b"ra"),
        135 => put_bytes(out, at, b"ns"),
        136 => put_bytes(out, at, b"na"),
        137 => put_bytes(out, at, b"redirect"),
        _ => put_bytes(out, at, b"unknown"),
    }
}

fn put_verdict(out: &mut [u8], at: usize, ok: bool) -> usize
    requires { at + 4 ≤ length out.old }
    ensures wrote { Wrote out.old at (ok_word ok) out.new result }
    ensures short { result ≤ at + 4 }
{
    if ok {
        put_bytes(out, at, b" ok")
    } else {
        put_bytes(out, at, b" bad")
    }
}

// One field and the end of the line, as `records 2`.
fn put_one(out: &mut [u8], at: usize, name: &[u8], n: u64) -> usize
    requires { at + length name.now + 21 ≤ length out.old }
    ensures wrote { Wrote out.old at (field name.now n ++ newline) out.new result }
    ensures short { result ≤ at + length name.now + 21 }
{
    let a = put_field(out, at, name, n);
    put_byte(out, a, b'\n')
}

// A fixed text, and a number after it.
fn put_field(out: &mut [u8], at: usize, name: &[u8], n: u64) -> usize
    requires { at + length name.now + 20 ≤ length out.old }
    ensures wrote { Wrote out.old at (field name.now n) out.new result }
    ensures short { result ≤ at + length name.now + 20 }
{
    let next = put_bytes(out, at, name);
    // Most numbers of a listing have one digit or two, and need no call.
    if n < 100 {
        return put_few(out, next, n);
    }
    put_decimal(out, next, n)
}

// Two digits at a time; up to four of them need no further call.
fn put_decimal(out: &mut [u8], at: usize, n: u64) -> usize
    requires { at + length (decimal n) ≤ length out.old }
    ensures { Wrote out.old at (decimal n) out.new result }
{
    if n < 100 {
        return put_few(out, at, n);
    }
    if n < 10000 {
        let next = put_few(out, at, n / 100);
        return put_pair(out, next, n % 100);
    }
    let next = put_decimal(out, at, n / 100);
    put_pair(out, next, n % 100)
}

// One digit or two.
fn put_few(out: &mut [u8], at: usize, n: u64) -> usize
    requires { (n < 100) × (at + length (decimal n) ≤ length out.old) }
    ensures { Wrote out.old at (decimal n) out.new result }
{
    if n < 10 {
        return put_byte(out, at, 48 + n as u8);
    }
    put_pair(out, at, n)
}

fn put_pair(out: &mut [u8], at: usize, n: u64) -> usize
    requires { (n < 100) × (at + 2 ≤ length out.old) }
    ensures { Wrote out.old at (pair n) out.new result }
{
    let next = put_byte(out, at, 48 + (n / 10) as u8);
    put_byte(out, next, 48 + (n % 10) as u8)
}

fn put_hex4(out: &mut [u8], at: usize, n: u16) -> usize
    requires { at + 4 ≤ length out.old }
    ensures { Wrote out.old at (hex4 n) out.new result }
{
    let a = glyph(n / 4096);
    let b = glyph(n / 256 % 16);
    let c = glyph(n / 16 % 16);
    let d = glyph(n % 16);
    put_bytes(out, at, &[a, b, c, d])
}

fn glyph(d: u16) -> u8
    requires { d < 16 }
    ensures { result ≡ digits_glyph d }
{
    if d < 10 { 48 + d as u8 } else { 87 + d as u8 }
}

fn put_byte(out: &mut [u8], at: usize, byte: u8) -> usize
    requires { at < length out.old }
    ensures { Wrote out.old at (byte ∷ []) out.new result }
{
    out[at] = byte;
    at + 1
}

// Bytes that fit.
fn put_bytes(out: &mut [u8], at: usize, bytes: &[u8]) -> usize
    requires { at + length bytes.now ≤ length out.old }
    ensures { Wrote out.old at bytes.now out.new result }
{
    let end = at + bytes.len();
    out[at..end].copy_from_slice(bytes);
    end
}
