// The rule by which an option of the second edition is read by itself (docs/RULES.md O10): the tests of an option of any size, and then the
// walk's own, which is asked for the answer.
#![tactic(auto)]

ghost use Rattle.std.specs.Prelude.{◌≡◌};
ghost use Rattle.packet_place.specs.Place.{placed};
ghost use Rattle.ndp_option_second.specs.Rule.{second_told, judged_of};

use ndp_options::{Cursor, Edition, NdpOptionKind, Step};
use refusal::{NdpOptionType, Refusal};

pub fn judged(
    id: NdpOptionType,
    slice: &[u8],
    offset: usize,
) -> Result<(NdpOptionKind, usize), Refusal>
    ensures { second_told result ≡ placed offset slice.now (judged_of id.0 slice.now) }
{
    ndp_option_read::sized(id, slice, offset)?;
    match Cursor::new().step(slice, offset, Edition::Second) {
        Step::Handed(option, _) => Ok((option.kind, option.place)),
        Step::Refused(why, _) => Err(why),
        // Never: there are bytes, and the step is at the first of them.
        Step::End | Step::Stopped => Err(Refusal::FarOffset),
    }
}
