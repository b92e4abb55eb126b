// The text of one record, written into a lent buffer: its place, what its packet is, and the options of a Neighbor Discovery message.
#![tactic(auto)]

ghost use Rattle.std.specs.Prelude.{◌≡◌, ◌+◌, ◌≤◌, cond, [], length, get_or, drop};
ghost use Rattle.wire.specs.Wire.{word16_at};
ghost use Rattle.output.specs.Output.{written_told, Wrote};
ghost use Rattle.ndp_options.specs.Walk.{walk_from};
ghost use Rattle.ndp_options.specs.declared.Edition.TheVariants.{First};
ghost use Rattle.capture.specs.Record.{longest};
ghost use Rattle.dump_lines.specs.Line.{text};
ghost use Rattle.message_table.specs.Table.{is_ndp};
ghost use Rattle.receive_rules.specs.Reasons.{reason_told};
ghost use Rattle.listing.specs.Packet.{walk_text, packet_text, record_text, walk_room, options_room, packet_room, room, Puts, put_leaves};

use addresses::Addresses;
use capture::MAX_PACKET_LEN;
use dump_lines::{LONGEST, Line};
use ndp_options::{Cursor, Edition, Step};
use receive_rules::Reason;
use refusal::Refusal;

// The longest text of a record, in bytes: three lines, and those of the options. The line of an option has at most 31 bytes, the option at least eight: four
// bytes of text for each byte behind the packet's head.
pub const ROOM: usize = 3 * LONGEST + 4 * (MAX_PACKET_LEN - 8);

// Writes the text of a record at a place of `out` and returns the place behind it. If it refuses (13, then 9) it writes nothing.
pub fn put_record(
    out: &mut [u8],
    at: usize,
    number: u64,
    place: u64,
    hop_limit: u8,
    addresses: Addresses,
    packet: &[u8],
) -> Result<usize, Refusal>
    ensures answers { Puts (written_told result) packet.now (record_text number place hop_limit addresses.source addresses.destination packet.now) out.old at }
    ensures lent { out.new ≡ put_leaves packet.now (record_text number place hop_limit addresses.source addresses.destination packet.now) out.old at }
{
    let len = packet.len();
    if MAX_PACKET_LEN < len {
        return Err(Refusal::LongRecord { length: len });
    }
    if ROOM <= output::room(out, at) {
        return Ok(put_text(out, at, number, place, hop_limit, addresses, packet));
    }
    let mut own = [0u8; ROOM];
    let n = put_text(&mut own, 0, number, place, hop_limit, addresses, packet);
    output::put(out, at, &own[..n])
}

// Each of the following writes its text at a place of `out` and returns the place behind it.
fn put_text(
    out: &mut [u8],
    at: usize,
    number: u64,
    place: u64,
    hop_limit: u8,
    addresses: Addresses,
    packet: &[u8],
) -> usize
    requires { (at + room ≤ length out.old) × (length packet.now ≤ longest) }
    ensures wrote { Wrote out.old at (record_text number place hop_limit addresses.source addresses.destination packet.now) out.new result }
    ensures short { result ≤ at + room }
{
    let next = put_line(out, at, Line::Record { number, place });
    put_packet(out, next, hop_limit, addresses, packet)
}

fn put_packet(
    out: &mut [u8],
    at: usize,
    hop_limit: u8,
    addresses: Addresses,
    packet: &[u8],
) -> usize
    requires { (at + packet_room ≤ length out.old) × (length packet.now ≤ longest) }
    ensures wrote { Wrote out.old at (packet_text hop_limit addresses.source addresses.destination packet.now) out.new result }
    ensures short { result ≤ at + packet_room }
{
    let judged = receive::judge(packet, hop_limit, addresses, Edition::First);
    match judged.opened {
        Ok(message) => {
            let kind_u8 = message.kind.type_u8();
            let next = put_head(out, at, kind_u8, packet, judged.valid, judged.reason);
            put_options(out, next, kind_u8, packet, message.options_at)
        }
        Err(why) => {
            let number = why.number();
            // By its number, of which the promise speaks.
            if number != 4 {
                return put_line(out, at, Line::Refused { number });
            }
            // Only a type that the table has lacks a fixed part.
            let next = put_head(out, at, packet[0], packet, judged.valid, judged.reason);
            put_line(out, next, Line::Refused { number })
        }
    }
}

// The line of a packet's head, whose kind, verdict and reason are given.
fn put_head(
    out: &mut [u8],
    at: usize,
    kind: u8,
    packet: &[u8],
    ok: bool,
    reason: Option<Reason>,
) -> usize
    requires { (at + 128 ≤ length out.old) × (8 ≤ length packet.now) × (length packet.now ≤ longest) }
    ensures wrote { Wrote out.old at (text (Line.Head kind (get_or packet.now 1 0) (word16_at packet.now 2) ok (length packet.now) (reason_told reason))) out.new result }
    ensures short { result ≤ at + 128 }
{
    let line = Line::Head {
        kind,
        code: packet[1],
        sum: wire::u16_from_be(packet[2], packet[3]),
        ok,
        len: packet.len() as u64,
        recv: u64::from(reason.map_or(0, Reason::number)),
    };
    put_line(out, at, line)
}

// The option lines of rs to redirect, the messages of Neighbor Discovery, from their place on.
fn put_options(out: &mut [u8], at: usize, kind: u8, packet: &[u8], from: usize) -> usize
    requires { (at + options_room ≤ length out.old) × (8 ≤ from) × (from ≤ length packet.now) × (length packet.now ≤ longest) }
    ensures wrote { Wrote out.old at (cond (is_ndp kind) (walk_text 0 (walk_from First from (drop from packet.now))) []) out.new result }
    ensures short { result ≤ at + options_room }
{
    if message_table::is_ndp(kind) {
        put_walk(out, at, &packet[from..], from)
    } else {
        at
    }
}

// A line for each option, and the ending of the walk. The first byte of the options is at an offset of the packet. By steps, and not by a walker's
// options: the line of a refusal has its place.
fn put_walk(out: &mut [u8], at: usize, options: &[u8], offset: usize) -> usize
    requires { (at + walk_room (length options.now) ≤ length out.old) × (offset + length options.now ≤ longest) }
    ensures wrote { Wrote out.old at (walk_text 0 (walk_from First offset options.now)) out.new result }
    ensures short { result ≤ at + walk_room (length options.now) }
{
    let mut c = Cursor::new();
    let mut n: u64 = 0;
    let mut put = at;
    loop {
        let here = c.at;
        match c.step(options, offset, Edition::First) {
            Step::Handed(option, next) => {
                let line = Line::Opt {
                    place: option.place as u64,
                    kind: option.option_type.0,
                    bytes: option.len as u64,
                };
                put = put_line(out, put, line);
                n += 1;
                c = next;
            }
            Step::End => return put_line(out, put, Line::End { number: n }),
            Step::Refused(why, _) => {
                let line = Line::RefusedAt {
                    number: why.number(),
                    place: (offset + here) as u64,
                };
                return put_line(out, put, line);
            }
            // Never: a cursor that a step hands on is within the bytes.
            Step::Stopped => return put,
        }
    }
}

// A line where there is room for the longest: the lines of the dump. (`diff` has its own, over its own lines.)
fn put_line(out: &mut [u8], at: usize, line: Line) -> usize
    requires { at + 128 ≤ length out.old }
    ensures wrote { Wrote out.old at (text line) out.new result }
    ensures short { result ≤ at + 128 }
{
    // Never refused: there is room.
    dump_lines::put_line(out, at, line).unwrap_or(at)
}
