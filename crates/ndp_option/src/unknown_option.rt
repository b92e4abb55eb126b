// An option of any type. For unknown_ndp_option_slice.rs (docs/DECISIONS.md).
ghost use Rattle.std.specs.Prelude.{◌≡◌, get_or};
ghost use Rattle.packet_place.specs.Place.{placed};
ghost use Rattle.ndp_option_read.specs.Rule.{read_told, sized_of};

use refusal::{NdpOptionType, Refusal};

pub fn from_slice(slice: &[u8], offset: usize) -> Result<usize, Refusal>
    ensures { read_told result ≡ placed offset slice.now (sized_of (get_or slice.now 0 0) slice.now) }
{
    let id = NdpOptionType(slice.first().copied().unwrap_or(0));
    ndp_option_read::sized(id, slice, offset)
}
