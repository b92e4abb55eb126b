// The sum of RFC 1071 by wider units than its words (docs/RULES.md Y1 to Y4): four bytes at a time, and 64 at a time with the carry taken along.
// For machines of 64 bits: a total takes its own carry round (section 2 (C)), so every length has its sum; the two bytes of the folded total are
// exchanged at the end (section 2 (B)). The loops go by index: what they take in is promised of the bytes between two
// places, and a rest of the bytes would need its place beside it.
#![tactic(auto)]

ghost use Rattle.std.specs.Prelude.{◌≡◌, ◌+◌, ◌*◌, ◌/◌, ◌%◌, ◌<◌, ◌≤◌, length, drop};
ghost use Rattle.checksum.specs.Ones.{words, ones_sum};
ghost use Rattle.checksum.specs.Running.{Bytes, low_first, folded, swapped};
ghost use Rattle.checksum.specs.Icmpv6.{sum_of, verdict_of};
ghost use Rattle.checksum.specs.Told.{verdict};
ghost use Rattle.packet_length.specs.Length.{limit};
ghost use Rattle.wide_sum.specs.Units.{unit, Alike, Moves, Taken};

use addresses::Addresses;
use checksum::Verdict;
use refusal::Refusal;

// A total of 64 bits and the carry that is still to be added to it.
#[derive(Clone, Copy)]
struct Chain {
    low: u64,
    carry: u64,
    ghost fits: { low + carry < 18446744073709551616 },
}

// Two bytes as a number, low byte first.
fn pair(first: u8, second: u8) -> u64
    ensures { (result ≡ first + 256 * second) × (result < 65536) }
{
    u64::from(u16::from_le_bytes([first, second]))
}

// A function for each width, made of two of the half: a const argument cannot be computed, so no generic one could halve itself.
fn two(s: &[u8], i: usize) -> u64
    requires { i + 2 ≤ length s.now }
    ensures { (result ≡ unit 2 s.now i) × (result < 65536) }
{
    pair(s[i], s[i + 1])
}

fn four(s: &[u8], i: usize) -> u64
    requires { i + 4 ≤ length s.now }
    ensures { (result ≡ unit 4 s.now i) × (result < 4294967296) }
{
    two(s, i) + 65536 * two(s, i + 2)
}

fn eight(s: &[u8], i: usize) -> u64
    requires { i + 8 ≤ length s.now }
    ensures { result ≡ unit 8 s.now i }
{
    four(s, i) + 4294967296 * four(s, i + 4)
}

// What that sum left out: it is below b where it wrapped.
fn carry_of(sum: u64, a: u64, b: u64) -> u64
    requires { sum ≡ (a + b) % 18446744073709551616 }
    ensures { result ≡ (a + b) / 18446744073709551616 }
{
    if sum < b { 1 } else { 0 }
}

// What an addition with carry left out in its two sums, of which one at most wrapped.
fn carry_out(part: u64, low: u64, w: u64, sum: u64, carry: u64) -> u64
    requires { (low + carry < 18446744073709551616) × (part ≡ (low + w) % 18446744073709551616) × (sum ≡ (part + carry) % 18446744073709551616) }
    ensures { (result ≡ (low + w) / 18446744073709551616 + (part + carry) / 18446744073709551616) × (result ≤ 1) }
{
    if part < w {
        1
    } else {
        carry_of(sum, part, carry)
    }
}

// A processor's addition with carry.
fn add_with_carry(t: Chain, w: u64) -> Chain
    ensures { result.low + 18446744073709551616 * result.carry ≡ t.low + t.carry + w }
{
    let part = t.low.wrapping_add(w);
    let sum = part.wrapping_add(t.carry);
    Chain {
        low: sum,
        carry: carry_out(part, t.low, w, sum, t.carry),
    }
}

fn start(t: u64) -> Chain
    ensures { result.low + result.carry ≡ t }
{
    Chain { low: t, carry: 0 }
}

fn close(t: Chain) -> u64
    ensures { result ≡ t.low + t.carry }
{
    t.low + t.carry
}

fn link(t: Chain, s: &[u8], i: usize) -> Chain
    requires { i + 8 ≤ length s.now }
    ensures { Moves s.now i (t.low + t.carry) (i + 8) (result.low + result.carry) }
{
    add_with_carry(t, eight(s, i))
}

fn link_two(t: Chain, s: &[u8], i: usize) -> Chain
    requires { i + 16 ≤ length s.now }
    ensures { Moves s.now i (t.low + t.carry) (i + 16) (result.low + result.carry) }
{
    link(link(t, s, i), s, i + 8)
}

fn link_four(t: Chain, s: &[u8], i: usize) -> Chain
    requires { i + 32 ≤ length s.now }
    ensures { Moves s.now i (t.low + t.carry) (i + 32) (result.low + result.carry) }
{
    link_two(link_two(t, s, i), s, i + 16)
}

fn link_eight(t: Chain, s: &[u8], i: usize) -> Chain
    requires { i + 64 ≤ length s.now }
    ensures { Moves s.now i (t.low + t.carry) (i + 64) (result.low + result.carry) }
{
    link_four(link_four(t, s, i), s, i + 32)
}

// A total with eight bytes taken in, its carry taken round.
fn add_8(t: u64, s: &[u8], i: usize) -> u64
    requires { i + 8 ≤ length s.now }
    ensures { Moves s.now i t (i + 8) result }
{
    close(link(start(t), s, i))
}

fn add_16(t: u64, s: &[u8], i: usize) -> u64
    requires { i + 16 ≤ length s.now }
    ensures { Moves s.now i t (i + 16) result × Bytes s.now }
{
    close(link_two(start(t), s, i))
}

fn add_32(t: u64, s: &[u8], i: usize) -> u64
    requires { i + 32 ≤ length s.now }
    ensures { Moves s.now i t (i + 32) result }
{
    close(link_four(start(t), s, i))
}

fn add_64(t: u64, s: &[u8], i: usize) -> u64
    requires { i + 64 ≤ length s.now }
    ensures { Moves s.now i t (i + 64) result }
{
    close(link_eight(start(t), s, i))
}

// A total with a number added, the carry taken round.
fn around(t: u64, w: u64) -> u64
    ensures { Alike result (t + w) }
{
    close(add_with_carry(start(t), w))
}

// The two halves of 64 bits added, and the carry taken round: the high half of the total and its halves exchanged.
fn half_64(t: u64) -> u32
    ensures { folded result ≡ folded t }
{
    let exchanged = t % 4294967296 * 4294967296 + t / 4294967296;
    (t.wrapping_add(exchanged) / 4294967296) as u32
}

fn half_32(t: u32) -> u16
    ensures { result ≡ folded t }
{
    let exchanged = t % 65536 * 65536 + t / 65536;
    (t.wrapping_add(exchanged) / 65536) as u16
}

// The sum that a total in memory order comes to.
fn finish(t: u64) -> u16
    ensures { result ≡ swapped (folded t) }
{
    half_32(half_64(t)).swap_bytes()
}

// A total with what is left from i on taken in, one byte at most.
fn add_last(t: u64, s: &[u8], i: usize) -> u64
    requires { (i ≤ length s.now) × (length s.now ≤ i + 1) }
    ensures { folded result ≡ folded (t + low_first (drop i s.now)) }
{
    if i < s.len() {
        around(t, pair(s[i], 0))
    } else {
        t
    }
}

// Fours added up: no carry leaves the 64 bits.
fn two_fours(s: &[u8], i: usize) -> u64
    requires { i + 8 ≤ length s.now }
    ensures { Moves s.now i 0 (i + 8) result × (result < 8589934592) }
{
    four(s, i) + four(s, i + 4)
}

fn four_fours(s: &[u8], i: usize) -> u64
    requires { i + 16 ≤ length s.now }
    ensures { Moves s.now i 0 (i + 16) result × (result < 17179869184) }
{
    two_fours(s, i) + two_fours(s, i + 8)
}

fn eight_fours(s: &[u8], i: usize) -> u64
    requires { i + 32 ≤ length s.now }
    ensures { Moves s.now i 0 (i + 32) result × (result < 34359738368) }
{
    four_fours(s, i) + four_fours(s, i + 16)
}

fn sixteen_fours(s: &[u8], i: usize) -> u64
    requires { i + 64 ≤ length s.now }
    ensures { Moves s.now i 0 (i + 64) result × (result < 68719476736) }
{
    eight_fours(s, i) + eight_fours(s, i + 32)
}

// What `checksum::sum` answers: four bytes at a time, 64 and 32 bytes of them between two carries.
pub fn sum_by_fours(bytes: &[u8]) -> u16
    ensures { result ≡ ones_sum (words bytes.now) }
{
    let mut t = 0;
    let mut i = 0;
    while bytes.len() - i >= 64 {
        t = around(t, sixteen_fours(bytes, i));
        i += 64;
    }
    while bytes.len() - i >= 32 {
        t = around(t, eight_fours(bytes, i));
        i += 32;
    }
    while bytes.len() - i >= 4 {
        t = around(t, four(bytes, i));
        i += 4;
    }
    while bytes.len() - i >= 2 {
        t = around(t, two(bytes, i));
        i += 2;
    }
    finish(add_last(t, bytes, i))
}

// A total with what is left from a place on taken in: 32 bytes at a time, then 8 and 2, and the last one.
fn add_rest(from: u64, bytes: &[u8], at: usize) -> u64
    requires { at ≤ length bytes.now }
    ensures { folded result ≡ folded (from + low_first (drop at bytes.now)) }
{
    let mut t = from;
    let mut i = at;
    while bytes.len() - i >= 32 {
        t = add_32(t, bytes, i);
        i += 32;
    }
    while bytes.len() - i >= 8 {
        t = add_8(t, bytes, i);
        i += 8;
    }
    while bytes.len() - i >= 2 {
        t = around(t, two(bytes, i));
        i += 2;
    }
    add_last(t, bytes, i)
}

// What `checksum::sum` answers: 64 bytes at a time as one chain of carries, then 32, 8 and 2.
pub fn sum_by_sixty_fours(bytes: &[u8]) -> u16
    ensures { result ≡ ones_sum (words bytes.now) }
{
    let mut t = 0;
    let mut i = 0;
    let end = bytes.len() / 64 * 64;
    while i < end {
        t = add_64(t, bytes, i);
        i += 64;
    }
    finish(add_rest(t, bytes, i))
}

// A total with some bytes taken in, 64 at a time as two chains of 32 that do not wait for each other, then 32, 8 and 2.
fn add_by_two_chains(from: u64, bytes: &[u8]) -> u64
    ensures { Taken from bytes.now result }
{
    let mut t = from;
    let mut u = 0;
    let mut i = 0;
    let end = bytes.len() / 64 * 64;
    while i < end {
        t = add_32(t, bytes, i);
        u = add_32(u, bytes, i + 32);
        i += 64;
    }
    add_rest(around(t, u), bytes, i)
}

// What `checksum::sum` answers, by two chains.
pub fn sum_by_two_chains(bytes: &[u8]) -> u16
    ensures { result ≡ ones_sum (words bytes.now) }
{
    finish(add_by_two_chains(0, bytes))
}

// A total with an address taken in.
fn add_address(from: u64, address: &[u8; 16]) -> u64
    ensures { Taken from address.now result }
{
    add_16(from, address, 0)
}

// The sum of the pseudo-header and a packet: one total takes in both addresses and the packet, and the rest comes to it once it is folded.
fn packet_sum(packet: &[u8], addresses: Addresses, n: u32) -> u16
    requires { (n ≡ length packet.now) × (length packet.now ≤ limit) }
    ensures { result ≡ sum_of addresses.source addresses.destination packet.now }
{
    let both = add_address(add_address(0, &addresses.source), &addresses.destination);
    let bytes = u32::from(finish(add_by_two_chains(both, packet)));
    half_32(bytes + n / 65536 + n % 65536 + 58)
}

// What `checksum::verify` answers, for machines of 64 bits.
pub fn verify_by_fours(packet: &[u8], addresses: Addresses) -> Result<Verdict, Refusal>
    ensures { verdict result ≡ verdict_of addresses.source addresses.destination packet.now }
{
    let n = packet.len();
    packet_length::check_len(n)?;
    if packet_sum(packet, addresses, n as u32) == 65535 {
        Ok(Verdict::Valid)
    } else {
        Ok(Verdict::Invalid)
    }
}
