// Numbers of several bytes, the high byte first, and the flags of a byte, as every header on the wire has them; and what bytes begin with. The first four are
// std's own, with the promise of docs/RULES.md H2 on them: by these the numbers of heads, fixed parts, options and records are read and written.
#![tactic(auto)]

ghost use Rattle.std.specs.Prelude.{◌≡◌};
ghost use Rattle.wire.specs.Wire.{word16, word32, bytes16, bytes32, has_flag, flag_of};
ghost use Rattle.wire.specs.Prefix.{begins};

pub fn u16_from_be(a: u8, b: u8) -> u16
    ensures { result ≡ word16 a b }
{
    u16::from_be_bytes([a, b])
}

pub fn u32_from_be(a: u8, b: u8, c: u8, d: u8) -> u32
    ensures { result ≡ word32 a b c d }
{
    u32::from_be_bytes([a, b, c, d])
}

// The bytes are taken apart here and in `u32_to_be`: passed on whole they lie in memory, and `brothladder_write` has some 60 bytes of code more.
pub fn u16_to_be(x: u16) -> [u8; 2]
    ensures { result ≡ bytes16 x }
{
    let [high, low] = u16::to_be_bytes(x);
    [high, low]
}

pub fn u32_to_be(x: u32) -> [u8; 4]
    ensures { result ≡ bytes32 x }
{
    let [a, b, c, d] = u32::to_be_bytes(x);
    [a, b, c, d]
}

// Whether the flag of a weight, a power of two, is set in a byte. No for weight 0.
pub fn has_flag(x: u8, weight: u8) -> bool
    ensures { result ≡ has_flag x weight }
{
    weight != 0 && x / weight % 2 == 1
}

// The weight of a flag if it is set, else 0.
pub fn flag_of(set: bool, weight: u8) -> u8
    ensures { result ≡ flag_of set weight }
{
    if set { weight } else { 0 }
}

// Whether bytes begin with a prefix. All bytes begin with an empty one.
#[tactic(auto, unfolding(crate::specs::Prefix::begins))]
pub fn begins_with(bytes: &[u8], prefix: &[u8]) -> bool
    ensures { result ≡ begins prefix.now bytes.now }
{
    // Not by `starts_with`: it brings half a KiB of code into every call for C that looks at an address. Nor by a `for`: that ends whatever its body does,
    // and a wrong version of this loop is one that doesn't.
    if bytes.len() < prefix.len() {
        return false;
    }
    let mut i = 0;
    while i < prefix.len() {
        if bytes[i] != prefix[i] {
            return false;
        }
        i += 1;
    }
    true
}
