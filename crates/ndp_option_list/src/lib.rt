// Calls over a whole list of options: how many there are, whether one has a type, and which is the first that has it. A list that is refused gets the
// refusal.
#![tactic(auto)]

ghost use Rattle.std.specs.Prelude.{◌≡◌};
ghost use Rattle.ndp_option_list.specs.Whole.{count_of, occurs_of, first_of, tally_of};
ghost use Rattle.ndp_option_list.specs.Told.{spot_told, earlier_or, count_told, occurs_told, first_told, tally_told};

use ndp_options::{Edition, NdpOption};
use refusal::{NdpOptionType, Refusal};

// The place and the length of an option.
#[derive(Clone, Copy, Debug, PartialEq, Eq)]
pub struct Spot {
    pub place: usize,
    pub len: usize,
}

// The spot that was found earlier, or that of the option if it is the first of the type.
fn first_by(earlier: Option<Spot>, option: NdpOption, wanted: NdpOptionType) -> Option<Spot>
    ensures { spot_told result ≡ earlier_or (spot_told earlier) wanted.0 option.option_type.0 option.place option.len }
{
    if earlier.is_none() && option.option_type.0 == wanted.0 {
        return Some(Spot {
            place: option.place,
            len: option.len,
        });
    }
    earlier
}

// The whole walk, once: how many options there are, and the first of the type.
fn walk_all(
    options: &[u8],
    offset: usize,
    wanted: NdpOptionType,
    edition: Edition,
) -> Result<(usize, Option<Spot>), Refusal>
    ensures { tally_told result ≡ tally_of edition wanted.0 offset options.now }
{
    let mut n = 0;
    let mut found = None;
    for option in ndp_walker::from_slice(options, offset, edition.number()) {
        let option = option?;
        n += 1;
        found = first_by(found, option, wanted);
    }
    Ok((n, found))
}

// How many options the list has, or the refusal. The first byte of the options is at an offset of the packet.
pub fn count(options: &[u8], offset: usize, edition: Edition) -> Result<usize, Refusal>
    ensures { count_told result ≡ count_of edition offset options.now }
{
    let (n, _) = walk_all(options, offset, NdpOptionType(0), edition)?;
    Ok(n)
}

// Whether the list has an option of the type, or the refusal: of a refused list it is not known.
pub fn has_type(
    options: &[u8],
    offset: usize,
    wanted: NdpOptionType,
    edition: Edition,
) -> Result<bool, Refusal>
    ensures { occurs_told result ≡ occurs_of edition wanted.0 offset options.now }
{
    Ok(first_of_type(options, offset, wanted, edition)?.is_some())
}

// The first option of the type, or the refusal: of a refused list none counts, not even one that stands before the refusal.
pub fn first_of_type(
    options: &[u8],
    offset: usize,
    wanted: NdpOptionType,
    edition: Edition,
) -> Result<Option<Spot>, Refusal>
    ensures { first_told result ≡ first_of edition wanted.0 offset options.now }
{
    let (_, found) = walk_all(options, offset, wanted, edition)?;
    Ok(found)
}
