// A long list of options in several advertisements (RFC 4861, section 6.2.3; docs/RULES.md, area Z). A plan says how many consecutive options go into each
// message. A checker accepts a plan or does not, so that nobody has to trust a planner; ours fills each message in turn. A plan is numbers in a
// lent buffer: C lends it so.
#![tactic(auto)]

ghost use Rattle.std.specs.Prelude.{◌+◌, ◌*◌, ◌≤◌, ◌<◌, ◌≡◌, true, length, get_or, IfSome};
ghost use Rattle.output.specs.Output.{written_told, leaves, over};
ghost use Rattle.split_plan.specs.Plan.{bare, each_fits, plan_of};
ghost use Rattle.advertisement_split.specs.Split.{sizes_of, own_bytes, check_of, plan_for, place_of, message_of};
ghost use Rattle.advertisement_split.specs.Told.{checked_told, message_told};
ghost use Rattle.advertisement_split.specs.Steps.{sizes_from, PlaceOf, FillsFrom, followed_of, messages_in};

use ndp_option_header::NdpOptionHeader;
use ndp_options::Edition;
use refusal::Refusal;

// The bytes that an advertisement has before its options: its head and its fixed part.
const OWN_BYTES: usize = 16;

// A message that was filled: the place behind its options, and how many they are.
#[derive(Clone, Copy, Debug, PartialEq, Eq)]
struct Filled {
    to: usize,
    count: usize,
}

// The length of the option at a place of a whole list, 0 at its end. The walk has judged the options already: what is left to read is the length that each
// says of itself, whatever the edition is, which stands here for the promise alone.
fn option_len(options: &[u8], at: usize, edition: Edition) -> usize
    requires { PlaceOf edition options.now at }
    ensures { result ≡ get_or (sizes_from edition options.now at) 0 0 }
{
    if at == options.len() {
        return 0;
    }
    NdpOptionHeader::from_bytes([options[at], options[at + 1]]).byte_len()
}

// As many options from a place on as the room of a message has space for, and so many at most. Options touch, so what they take is the difference of two
// places.
fn fill(options: &[u8], from: usize, room: usize, most: usize, edition: Edition) -> Filled
    requires { PlaceOf edition options.now from }
    ensures { FillsFrom edition options.now from room most result.to result.count }
{
    let mut to = from;
    for count in 0..most {
        let len = option_len(options, to, edition);
        if len == 0 {
            return Filled { to, count };
        }
        let next = to + len;
        if room < next - from {
            return Filled { to, count };
        }
        to = next;
    }
    Filled { to, count: most }
}

// Where message i is and how long, if the options go into messages by the plan, each within the room and with an option at least, with none left over.
fn follow(
    options: &[u8],
    room: usize,
    plan: &[u32],
    i: usize,
    edition: Edition,
) -> Option<(usize, usize)>
    requires { PlaceOf edition options.now 0 × (i < length plan.now) }
    ensures { result ≡ followed_of edition options.now room plan.now i }
{
    let mut found = (0, 0);
    let mut at = 0;
    for (j, &n) in plan.iter().enumerate() {
        let n = n as usize;
        if n == 0 {
            return None;
        }
        let message = fill(options, at, room, n, edition);
        if message.count < n {
            return None;
        }
        if j == i {
            found = (at, message.to - at);
        }
        at = message.to;
    }
    let left = option_len(options, at, edition);
    if left == 0 { Some(found) } else { None }
}

// How many messages our plan has, if no option is too long for any. It begins with one message, so no options are no case of their own.
fn messages(options: &[u8], room: usize, edition: Edition) -> Option<usize>
    requires { PlaceOf edition options.now 0 }
    ensures number { result ≡ messages_in room (sizes_of edition options.now) }
    ensures few { IfSome result (λ n. n ≤ length options.now + 1) }
{
    let most = options.len();
    let mut at: usize = 0;
    let mut closed: usize = 0;
    // By places: a message begins where the one before it ends, which `fill` tells.
    loop {
        let message = fill(options, at, room, most, edition);
        closed += 1;
        if option_len(options, message.to, edition) == 0 {
            return Some(closed);
        }
        if message.count == 0 {
            return None;
        }
        at = message.to;
    }
}

// Our plan, over the start of numbers that have room for it: one number a message.
fn put_plan(options: &[u8], room: usize, plan: &mut [u32], edition: Edition)
    requires place_of { PlaceOf edition options.now 0 }
    requires options_value { each_fits own_bytes (own_bytes + room) (sizes_of edition options.now) ≡ true }
    requires options_in_bounds { length (plan_of own_bytes (own_bytes + room) (sizes_of edition options.now)) ≤ length plan.old }
    ensures { plan.new ≡ over plan.old 0 (plan_of own_bytes (own_bytes + room) (sizes_of edition options.now)) }
{
    let most = options.len();
    let mut at: usize = 0;
    let mut closed: usize = 0;
    // By places, as in `messages`.
    loop {
        let message = fill(options, at, room, most, edition);
        plan[closed] = message.count as u32;
        closed += 1;
        if option_len(options, message.to, edition) == 0 {
            return;
        }
        at = message.to;
    }
}

// One message without options, which is the plan of no options.
fn is_bare(plan: &[u32]) -> bool
    ensures { result ≡ bare plan.now }
{
    matches!(plan, [0])
}

// Where the options of message i are, if the plan is accepted and has it. A plan, made by whom you like, is accepted if it sends every option once and in
// order, with an option in each message, and no message beyond the limit.
pub fn message_place(
    options: &[u8],
    limit: usize,
    plan: &[u32],
    i: usize,
    edition: Edition,
) -> Result<Option<(usize, usize)>, Refusal>
    ensures { message_told result ≡ place_of edition limit options.now plan.now i }
{
    let count = ndp_option_list::count(options, 0, edition)?;
    if limit < OWN_BYTES || plan.len() <= i {
        return Ok(None);
    }
    if count == 0 {
        return Ok(is_bare(plan).then_some((0, 0)));
    }
    let room = limit - OWN_BYTES;
    Ok(follow(options, room, plan, i, edition))
}

// Whether a plan is accepted. One that is has a first message.
pub fn check_plan(
    options: &[u8],
    limit: usize,
    plan: &[u32],
    edition: Edition,
) -> Result<bool, Refusal>
    ensures { checked_told result ≡ check_of edition limit options.now plan.now }
{
    Ok(message_place(options, limit, plan, 0, edition)?.is_some())
}

// The options of message i, as a part of the list: nothing where the plan is not accepted or has no such message.
pub fn message_options<'a>(
    options: &'a [u8],
    limit: usize,
    plan: &[u32],
    i: usize,
    edition: Edition,
) -> &'a [u8]
    ensures { result.now ≡ message_of edition limit options.now plan.now i }
{
    match message_place(options, limit, plan, i, edition) {
        Ok(Some((from, len))) => &options[from..from + len],
        Ok(None) | Err(_) => &options[..0],
    }
}

// Our plan, into numbers that the caller lends: how many messages it has.
pub fn make_plan(
    options: &[u8],
    limit: usize,
    plan: &mut [u32],
    edition: Edition,
) -> Result<usize, Refusal>
    ensures answers { written_told result ≡ plan_for edition limit options.now plan.old }
    ensures lent { plan.new ≡ leaves (plan_for edition limit options.now plan.old) plan.old 0 (plan_of own_bytes limit (sizes_of edition options.now)) }
{
    ndp_option_list::count(options, 0, edition)?;
    if limit < OWN_BYTES {
        return Err(Refusal::NoPlan);
    }
    let space = limit - OWN_BYTES;
    let needed = messages(options, space, edition).ok_or(Refusal::NoPlan)?;
    if plan.len() < needed {
        return Err(Refusal::ShortOutput { needed: needed * 4 });
    }
    put_plan(options, space, plan, edition);
    Ok(needed)
}
