// The two rules by which a Neighbor Discovery option is read by itself (RFC 4861, section 4.6): every reader goes by one of them,
// and an option that the library has no reader of can be read by them too.
#![tactic(auto)]

ghost use Rattle.std.specs.Prelude.{◌≡◌, [], ◌∷◌, get_or};
ghost use Rattle.packet_place.specs.Place.{with_place, placed};
ghost use Rattle.ndp_option_header.specs.Header.{header_bytes};
ghost use Rattle.ndp_option_read.specs.Rule.{read_told, exactly_of, sized_of};

use ndp_option_header::NdpOptionHeader;
use refusal::{LengthUnits, NdpOptionType, Refusal};

// An option of a fixed size (docs/RULES.md O1), whose first byte is at an offset of the packet: its number of bytes, then its header.
pub fn exactly(
    id: NdpOptionType,
    units: LengthUnits,
    slice: &[u8],
    offset: usize,
) -> Result<usize, Refusal>
    ensures { read_told result ≡ placed offset slice.now (exactly_of id.0 units.0 slice.now) }
{
    if packet_place::is_far(offset, slice.len()) {
        return Err(Refusal::FarOffset);
    }
    exactly_at(id, units, slice, offset)
}

fn exactly_at(
    id: NdpOptionType,
    units: LengthUnits,
    slice: &[u8],
    place: usize,
) -> Result<usize, Refusal>
    ensures { read_told result ≡ with_place place (exactly_of id.0 units.0 slice.now) }
{
    let expected = NdpOptionHeader {
        option_type: id,
        length_units: units,
    };
    let wanted = expected.byte_len();
    let length = slice.len();
    if length != wanted {
        return Err(Refusal::UnexpectedSize {
            id,
            expected: wanted,
            actual: length,
            place,
        });
    }
    let header = header_at(slice);
    let actual = header.option_type;
    let actual_units = header.length_units;
    if actual.0 != id.0 || actual_units.0 != units.0 {
        return Err(Refusal::UnexpectedHeader {
            expected: id,
            actual,
            expected_units: units,
            actual_units,
            place,
        });
    }
    Ok(place)
}

// An option of any size (docs/RULES.md O2), whose first byte is at an offset of the packet: at least 8 bytes, its type, a length that is not 0, and
// as many bytes as that says. It has no number of units to expect, so refusal 8 carries the found one twice.
pub fn sized(id: NdpOptionType, slice: &[u8], offset: usize) -> Result<usize, Refusal>
    ensures { read_told result ≡ placed offset slice.now (sized_of id.0 slice.now) }
{
    if packet_place::is_far(offset, slice.len()) {
        return Err(Refusal::FarOffset);
    }
    sized_at(id, slice, offset)
}

fn sized_at(id: NdpOptionType, slice: &[u8], place: usize) -> Result<usize, Refusal>
    ensures { read_told result ≡ with_place place (sized_of id.0 slice.now) }
{
    let length = slice.len();
    if length < 8 {
        return Err(Refusal::UnexpectedSize {
            id,
            expected: 8,
            actual: length,
            place,
        });
    }
    let header = header_at(slice);
    let actual = header.option_type;
    let length_units = header.length_units;
    if actual.0 != id.0 {
        return Err(Refusal::UnexpectedHeader {
            expected: id,
            actual,
            expected_units: length_units,
            actual_units: length_units,
            place,
        });
    }
    if length_units.0 == 0 {
        return Err(Refusal::ZeroLength { id, place });
    }
    let size = header.byte_len();
    if length != size {
        return Err(Refusal::UnexpectedSize {
            id,
            expected: size,
            actual: length,
            place,
        });
    }
    Ok(place)
}

// The header, with 0 for a byte that is not there.
fn header_at(slice: &[u8]) -> NdpOptionHeader
    ensures { header_bytes result ≡ get_or slice.now 0 0 ∷ get_or slice.now 1 0 ∷ [] }
{
    NdpOptionHeader::from_bytes([byte_at(slice, 0), byte_at(slice, 1)])
}

// A byte, and 0 past the last: one line of std, private in each crate that needs it.
fn byte_at(slice: &[u8], at: usize) -> u8
    ensures { result ≡ get_or slice.now at 0 }
{
    slice.get(at).copied().unwrap_or(0)
}
