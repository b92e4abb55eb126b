// The packet that a message quotes, and what that quotes in turn: the chain of kinds and places, up to eight quotes deep, or the refusal and no part
// of a chain. Errors quote the packet that caused them (RFC 4443, section 3), a redirected-header option the packet that was redirected (RFC 4861,
// section 4.6.3). Every place is that in the outer packet.
#![tactic(auto)]

ghost use Rattle.std.specs.Prelude.{◌+◌, ◌*◌, ◌-◌, ◌<◌, ◌≤◌, ◌^◌, ◌≡◌, length};
ghost use Rattle.quotes.specs.Chain.{found_of, message_at, quote_at};
ghost use Rattle.quotes.specs.Told.{found_told, read_told, told_at, Puts, chain_told, read_of};

use ndp_options::Edition;
use refusal::{NdpOptionType, Refusal};

const REDIRECTED_HEADER: NdpOptionType = NdpOptionType(4);

// How many quotes deep a chain goes at most.
const MOST_LEVELS: usize = 8;

// The head of a quoted packet (RFC 8200, section 3).
const HEAD_LEN: usize = 40;

const IP_VERSION: u8 = 6;

const NEXT_HEADER_ICMPV6: u8 = 58;

// The outer kind, and for each level the quote's place, its next header and its message's kind: 1 + 3 * levels numbers, and 0 behind them. A level's
// message begins 40 bytes behind its quote where the next header is 58; elsewhere there is none, and the kind is 0. Numbers and no structs: the C interface
// hands them out so.
#[derive(Clone, Copy, Debug, PartialEq, Eq)]
pub struct Chain {
    pub levels: usize,
    pub numbers: [u32; 25],
}

// From where to where in the packet a quote stands.
#[derive(Clone, Copy, Debug, PartialEq, Eq)]
struct Span {
    from: usize,
    to: usize,
}

// A message's kind, and its quote if it has one.
#[derive(Clone, Copy, Debug, PartialEq, Eq)]
struct Found {
    kind: u8,
    quote: Option<Span>,
}

// All tests of a message whose first byte is at a place.
fn find_quote(s: &[u8], place: usize, edition: Edition) -> Result<Found, Refusal>
    requires { place + length s.now < 2 ^ 32 }
    ensures { found_told result ≡ found_of edition place s.now }
{
    let n = s.len();
    if n < 8 {
        return Err(Refusal::ShortPacket {
            least: 8,
            length: n,
        });
    }
    let kind = s[0];
    if !message_table::is_known(kind, s[1]) {
        return Ok(Found {
            kind: 0,
            quote: None,
        });
    }
    // The errors: their types are the known ones below 5 (RFC 4443, section 2.1).
    if kind < 5 {
        let span = Span {
            from: place + 8,
            to: place + n,
        };
        return Ok(Found {
            kind,
            quote: Some(span),
        });
    }
    if !message_table::is_ndp(kind) {
        return Ok(Found { kind, quote: None });
    }
    let needed = message_table::fixed_len(kind);
    let present = n - 8;
    if present < needed {
        return Err(Refusal::ShortFixedPart { needed, present });
    }
    let base = 8 + needed;
    match ndp_option_list::first_of_type(&s[base..], place + base, REDIRECTED_HEADER, edition)? {
        None => Ok(Found { kind, quote: None }),
        Some(spot) => {
            let span = Span {
                from: spot.place + 8,
                to: spot.place + spot.len,
            };
            Ok(Found {
                kind,
                quote: Some(span),
            })
        }
    }
}

// A message whose first byte is at a place, so many quotes deep.
#[cycle(message_quote)]
fn message(
    s: &[u8],
    place: usize,
    level: usize,
    numbers: &mut [u32; 25],
    edition: Edition,
) -> Result<usize, Refusal>
    requires { (place + length s.now < 2 ^ 32) × (level ≤ 8) × (length numbers.old ≡ 25) }
    ensures answers { read_told result ≡ told_at (3 * level) (message_at edition (8 - level) place s.now) }
    ensures lent { Puts (message_at edition (8 - level) place s.now) (3 * level) numbers.old numbers.new }
{
    let found = find_quote(s, place, edition)?;
    numbers[3 * level] = u32::from(found.kind);
    match found.quote {
        None => Ok(3 * level + 1),
        Some(span) => {
            let start = span.from - place;
            let end = span.to - place;
            quote(&s[start..end], span.from, level, numbers, edition)
        }
    }
}

// A quoted packet whose first byte is at a place, with so many quotes above it.
#[cycle(message_quote)]
fn quote(
    s: &[u8],
    place: usize,
    level: usize,
    numbers: &mut [u32; 25],
    edition: Edition,
) -> Result<usize, Refusal>
    requires { (place + length s.now < 2 ^ 32) × (level ≤ 8) × (length numbers.old ≡ 25) }
    ensures answers { read_told result ≡ told_at (3 * level + 1) (quote_at edition (8 - level) place s.now) }
    ensures lent { Puts (quote_at edition (8 - level) place s.now) (3 * level + 1) numbers.old numbers.new }
{
    if level == MOST_LEVELS {
        return Err(Refusal::DeepQuote { place });
    }
    if s.len() < HEAD_LEN {
        return Err(Refusal::ShortQuote { place });
    }
    if s[0] / 16 != IP_VERSION {
        return Err(Refusal::QuoteVersion { place });
    }
    let next_header = s[6];
    numbers[3 * level + 1] = place as u32;
    numbers[3 * level + 2] = u32::from(next_header);
    if next_header == NEXT_HEADER_ICMPV6 {
        return message(
            &s[HEAD_LEN..],
            place + HEAD_LEN,
            level + 1,
            numbers,
            edition,
        );
    }
    numbers[3 * level + 3] = 0;
    Ok(3 * level + 4)
}

// The chain of a packet, whose lists are walked in an edition.
pub fn read_chain(packet: &[u8], edition: Edition) -> Result<Chain, Refusal>
    ensures { chain_told result ≡ read_of edition packet.now }
{
    packet_length::check_len(packet.len())?;
    let mut numbers = [0; 25];
    let to = message(packet, 0, 0, &mut numbers, edition)?;
    Ok(Chain {
        levels: to / 3,
        numbers,
    })
}
