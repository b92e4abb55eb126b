// The option walk of Neighbor Discovery (RFC 4861, section 4.6; docs/RULES.md W1 to W6), as a cursor by value over the option bytes.
// Port of ndp_options_iterator.rs, with the two endings of a walk told apart: `End` at the end, `Stopped` after a refusal.
// The bytes, their offset and the edition stay three parameters: a struct that borrows bytes reads as `list.entry.bytes.now` in a contract, where
// `options.now` says the same. Who walks by an iterator has them in one, the walker.
#![tactic(auto)]

ghost use Rattle.std.specs.Prelude.{◌≡◌, ◌/◌, ◌%◌, ◌&&◌, leb, eqb, drop, take};
ghost use Rattle.refusal.specs.declared.Refusal.TheVariants.{UnexpectedSize};
ghost use Rattle.ndp_walk.specs.Judge.{judge};
ghost use Rattle.ndp_options.specs.Rule.{rule_of, asked_of, option_kind};
ghost use Rattle.ndp_options.specs.Newer.{asks_more, route_bytes, newer_fits, newer_kind, is_long, newer_asked, newer_of};
ghost use Rattle.ndp_options.specs.Editions.{rule_by, edition_of, edition_number};
ghost use Rattle.ndp_options.specs.Walk.{step_of};
ghost use Rattle.ndp_options.specs.Told.{option_kind_number, ruled_told, ruled_at, judged_told, judged_at, step_told};

use ndp_option_header::{NDP_OPTION_HEADER_LEN, NdpOptionHeader};
use refusal::{LengthUnits, NdpOptionType, Refusal};
use router_preference::is_reserved;

// Which rule of the types a walk goes by: the first knows the types of RFC 4861; the second also routes (RFC 4191) and servers (RFC 8106).
#[derive(Clone, Copy, Debug, PartialEq, Eq)]
pub enum Edition {
    First,
    Second,
}

#[derive(Clone, Copy, Debug, PartialEq, Eq)]
pub enum NdpOptionKind {
    Unknown,
    SourceLinkLayerAddress,
    TargetLinkLayerAddress,
    PrefixInformation,
    RedirectedHeader,
    Mtu,
    RouteInformation,
    RecursiveDnsServers,
}

// An option that was handed out: what it is, where it starts in the option bytes, how many bytes it has, and its place in the packet.
#[derive(Clone, Copy, Debug, PartialEq, Eq)]
pub struct NdpOption {
    pub kind: NdpOptionKind,
    pub option_type: NdpOptionType,
    pub at: usize,
    pub len: usize,
    pub place: usize,
}

// A place in the option bytes. A place beyond them is that of a stopped walk.
#[derive(Clone, Copy, Debug, PartialEq, Eq)]
pub struct Cursor {
    pub at: usize,
}

// Four answers: an `Iterator` cannot tell End from Stopped, and a walk that a refusal stopped is no finished list.
#[derive(Clone, Copy, Debug, PartialEq, Eq)]
pub enum Step {
    Handed(NdpOption, Cursor),
    // The bytes are used up.
    End,
    // The cursor is beyond the bytes: the next step is Stopped.
    Refused(Refusal, Cursor),
    Stopped,
}

// An option at the head of a rest. As a struct its fields lie where those of a Refusal lie, and a step keeps both in the same registers.
#[derive(Clone, Copy)]
struct Found {
    kind: NdpOptionKind,
    option_type: NdpOptionType,
    len: usize,
}

// The types that have a rule or a kind of their own (RFC 4861, section 4.6; RFC 4191, section 2.3; RFC 8106, section 5.1).
const SOURCE_LINK_LAYER_ADDRESS: u8 = 1;

const TARGET_LINK_LAYER_ADDRESS: u8 = 2;

const PREFIX_INFORMATION: u8 = 3;

const REDIRECTED_HEADER: u8 = 4;

const MTU: u8 = 5;

const ROUTE_INFORMATION: u8 = 24;

const RECURSIVE_DNS_SERVERS: u8 = 25;

// The only length of a prefix information option (RFC 4861, section 4.6.2).
const PREFIX_INFORMATION_LEN: usize = 32;

// The only length of an MTU option (section 4.6.4).
const MTU_LEN: usize = 8;

// The bytes of the longest route (RFC 4191, section 2.3), and of the fewest servers (RFC 8106, section 5.1).
const ROUTE_MOST: usize = 24;

const SERVERS_LEAST: usize = 24;

// By a match: all numbers but five are Unknown.
fn kind_of(id: NdpOptionType) -> NdpOptionKind
    ensures { option_kind_number result ≡ option_kind id.0 }
{
    match id.0 {
        SOURCE_LINK_LAYER_ADDRESS => NdpOptionKind::SourceLinkLayerAddress,
        TARGET_LINK_LAYER_ADDRESS => NdpOptionKind::TargetLinkLayerAddress,
        PREFIX_INFORMATION => NdpOptionKind::PrefixInformation,
        REDIRECTED_HEADER => NdpOptionKind::RedirectedHeader,
        MTU => NdpOptionKind::Mtu,
        _ => NdpOptionKind::Unknown,
    }
}

// The length that a type requires of an option of `len` bytes: the required length, or `len` itself where any length is allowed.
fn asked_len(id: NdpOptionType, len: usize) -> usize
    ensures { result ≡ asked_of id.0 len }
{
    match id.0 {
        PREFIX_INFORMATION => PREFIX_INFORMATION_LEN,
        MTU => MTU_LEN,
        _ => len,
    }
}

// Whether an option of `len` bytes has the length that its type requires. A test of its own: `asked_len` is called for a refusal alone.
fn fits(id: NdpOptionType, len: usize) -> bool
    ensures { result ≡ eqb len (asked_of id.0 len) }
{
    match id.0 {
        PREFIX_INFORMATION => len == PREFIX_INFORMATION_LEN,
        MTU => len == MTU_LEN,
        _ => true,
    }
}

fn misfit(id: NdpOptionType, expected: usize, actual: usize, place: usize) -> Refusal
    ensures { result ≡ UnexpectedSize id expected actual place }
{
    Refusal::UnexpectedSize {
        id,
        expected,
        actual,
        place,
    }
}

// By the first edition's rule of a type: the kind of an option, or refused for its size. A refusal is made where it is answered, so that an option
// costs nothing for it.
fn by_rule(id: NdpOptionType, len: usize, place: usize) -> Result<NdpOptionKind, Refusal>
    ensures { ruled_told result ≡ ruled_at place (rule_of id.0 len) }
{
    if fits(id, len) {
        return Ok(kind_of(id));
    }
    Err(misfit(id, asked_len(id, len), len, place))
}

// Whether the edition has a rule of its own for a type.
fn asks_more(edition: Edition, id: NdpOptionType) -> bool
    ensures { result ≡ asks_more edition id.0 }
{
    match edition {
        Edition::First => false,
        Edition::Second => id.0 == ROUTE_INFORMATION || id.0 == RECURSIVE_DNS_SERVERS,
    }
}

// The bytes of a route of this prefix length: a unit, and one for every 64 bits of it. Above 128 bits they are more than a route may have.
fn route_bytes(prefix: u8) -> usize
    ensures { result ≡ route_bytes prefix }
{
    let bits = u16::from(prefix);
    let units = (bits + 63) / 64 + 1;
    let header = NdpOptionHeader {
        option_type: NdpOptionType(ROUTE_INFORMATION),
        length_units: LengthUnits(units as u8),
    };
    header.byte_len()
}

fn route_fits(len: usize, prefix: u8) -> bool
    ensures { result ≡ (leb len 24 && leb (route_bytes prefix) len) }
{
    len <= ROUTE_MOST && route_bytes(prefix) <= len
}

// An odd number of units, three or more: eight bytes, and two units for each server.
fn servers_fit(len: usize) -> bool
    ensures { result ≡ (leb 24 len && eqb (len / 8 % 2) 1) }
{
    let units = len / 8;
    SERVERS_LEAST <= len && units % 2 == 1
}

// Of a type that the second edition adds: whether its size fits, its kind, whether its prefix is too long, and the size that it lacks. Each is asked in
// `by_newer`, what fits first.
fn newer_fits(id: NdpOptionType, len: usize, prefix: u8) -> bool
    ensures { result ≡ newer_fits id.0 len prefix }
{
    if id.0 == ROUTE_INFORMATION {
        return route_fits(len, prefix);
    }
    servers_fit(len)
}

// A route with the reserved preference is handed out as unknown.
fn newer_kind(id: NdpOptionType, flags: u8) -> NdpOptionKind
    ensures { option_kind_number result ≡ newer_kind id.0 flags }
{
    if id.0 == RECURSIVE_DNS_SERVERS {
        return NdpOptionKind::RecursiveDnsServers;
    }
    if is_reserved(flags) {
        NdpOptionKind::Unknown
    } else {
        NdpOptionKind::RouteInformation
    }
}

fn is_long_route(id: NdpOptionType, len: usize, prefix: u8) -> bool
    ensures { result ≡ is_long id.0 len prefix }
{
    if id.0 != ROUTE_INFORMATION {
        return false;
    }
    len <= ROUTE_MOST && 128 < prefix
}

fn newer_asked(id: NdpOptionType, len: usize, prefix: u8) -> usize
    ensures { result ≡ newer_asked id.0 len prefix }
{
    if id.0 != ROUTE_INFORMATION {
        return SERVERS_LEAST;
    }
    if ROUTE_MOST < len {
        return ROUTE_MOST;
    }
    route_bytes(prefix)
}

// By the second edition's rule of a type that it adds: the kind of an option, or why it is refused.
fn by_newer(
    id: NdpOptionType,
    len: usize,
    prefix: u8,
    flags: u8,
    place: usize,
) -> Result<NdpOptionKind, Refusal>
    ensures { ruled_told result ≡ ruled_at place (newer_of id.0 len prefix flags) }
{
    if newer_fits(id, len, prefix) {
        return Ok(newer_kind(id, flags));
    }
    if is_long_route(id, len, prefix) {
        return Err(Refusal::LongRoutePrefix { place });
    }
    Err(misfit(id, newer_asked(id, len, prefix), len, place))
}

// What stands at the head of a rest, whose first byte is at a place of the packet: nothing, an option, or why it is none.
fn judge(rest: &[u8], place: usize, edition: Edition) -> Result<Option<Found>, Refusal>
    ensures { judged_told result ≡ judged_at place (judge (rule_by edition) rest.now) }
{
    let left = rest.len();
    if left == 0 {
        return Ok(None);
    }
    let id = NdpOptionType(rest[0]);
    if left < NDP_OPTION_HEADER_LEN {
        return Err(misfit(id, NDP_OPTION_HEADER_LEN, left, place));
    }
    let header = NdpOptionHeader::from_bytes([rest[0], rest[1]]);
    if header.length_units.0 == 0 {
        return Err(Refusal::ZeroLength { id, place });
    }
    let len = header.byte_len();
    if left < len {
        return Err(Refusal::UnexpectedEndOfSlice {
            id,
            expected: len,
            actual: left,
            place,
        });
    }
    let kind = if asks_more(edition, id) {
        by_newer(id, len, rest[2], rest[3], place)?
    } else {
        by_rule(id, len, place)?
    };
    Ok(Some(Found {
        kind,
        option_type: id,
        len,
    }))
}

impl Edition {
    // The edition of a number: 2 is the second, every other number the first. Not a `From`: docs/PROMISES.md names it.
    pub fn of(number: u32) -> Self
        ensures { result ≡ edition_of number }
    {
        match number {
            2 => Edition::Second,
            _ => Edition::First,
        }
    }

    // The number of an edition, of which `of` gives it back.
    pub fn number(self) -> u32
        ensures { result ≡ edition_number self }
    {
        match self {
            Edition::First => 1,
            Edition::Second => 2,
        }
    }
}

impl Cursor {
    // The cursor of a walk that begins.
    pub fn new() -> Self
        ensures { result.at ≡ 0 }
    {
        Cursor { at: 0 }
    }

    // The bytes from the cursor on; none if it is beyond them.
    pub fn rest(self, options: &[u8]) -> &[u8]
        ensures { result.now ≡ drop self.at options.now }
    {
        let from = self.at;
        if options.len() < from {
            return &options[..0];
        }
        &options[from..]
    }

    // What stands at the cursor, and the next cursor. The first byte of the options is at an offset of the packet. All steps of a walk are made in
    // one edition.
    pub fn step(self, options: &[u8], offset: usize, edition: Edition) -> Step
        ensures { step_told result ≡ step_of edition offset options.now self.at }
    {
        let at = self.at;
        let n = options.len();
        if n < at {
            return Step::Stopped;
        }
        if packet_place::is_far(offset, n) {
            return Step::Refused(Refusal::FarOffset, Cursor { at: n + 1 });
        }
        let place = offset + at;
        match judge(&options[at..], place, edition) {
            Ok(None) => Step::End,
            Ok(
                Some(
                    Found {
                        kind,
                        option_type,
                        len,
                    },
                ),
            ) => {
                let option = NdpOption {
                    kind,
                    option_type,
                    at,
                    len,
                    place,
                };
                Step::Handed(option, Cursor { at: at + len })
            }
            Err(why) => Step::Refused(why, Cursor { at: n + 1 }),
        }
    }
}

impl NdpOption {
    // The option's bytes, as a part of the list that it came from. From a shorter list, the bytes that it has there.
    pub fn bytes(self, options: &[u8]) -> &[u8]
        ensures { result.now ≡ take self.len (drop self.at options.now) }
    {
        let rest = Cursor { at: self.at }.rest(options);
        if self.len <= rest.len() {
            &rest[..self.len]
        } else {
            rest
        }
    }
}
