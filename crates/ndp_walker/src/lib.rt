// The walk as a struct that holds its slice (docs/RULES.md W16), and as an iterator.
#![tactic(auto)]

ghost use Rattle.std.specs.Prelude.{◌≡◌, drop};
ghost use Rattle.ndp_options.specs.Editions.{edition_of};
ghost use Rattle.ndp_options.specs.Walk.{step_of};
ghost use Rattle.ndp_options.specs.Told.{step_told};

use ndp_options::{Cursor, Edition, NdpOption, Step};
use refusal::Refusal;

// The option bytes, the offset at which they begin in the packet, the edition of the walk as a number (`Edition::of`), as callers have it, and a place among them. The
// walker holds the edition: steps now in one and now in the other could come to the End of a list that the second refuses.
//
// As an iterator it gives each option, and at last the refusal if there is one. `None` says only that nothing is left; whether the walk came to the end
// or was stopped, `step` tells. The `Err` comes before the `None`, so `for option in walker { let option = option?; .. }` cannot take half a list for a
// whole one.
#[derive(Clone, Copy, Debug)]
pub struct Walker<'a> {
    pub options: &'a [u8],
    pub offset: usize,
    pub edition: u32,
    pub at: usize,
}

impl<'a> Iterator for Walker<'a> {
    ghost use Rattle.std.specs.Iterator.{YieldsFirstBy, item_count};
    ghost use Rattle.refusal.specs.Told.{told};
    ghost use Rattle.ndp_options.specs.Editions.{edition_of};
    ghost use Rattle.ndp_walker.specs.Left.{option_numbers, left_of, walker_after};

    type Item = Result<NdpOption, Refusal>;

    ghost next_gives = { λ s r t. (t ≡ walker_after s) × YieldsFirstBy (told option_numbers) (λ w. left_of (edition_of w.edition) w.offset w.options.now w.at) s r t };

    ghost remaining = { item_count (λ w. left_of (edition_of w.edition) w.offset w.options.now w.at) };

    fn next(&mut self) -> Option<Result<NdpOption, Refusal>> {
        match step_at(self.options, self.offset, self.at, self.edition) {
            Step::Handed(option, next) => {
                self.at = next.at;
                Some(Ok(option))
            }
            Step::Refused(why, next) => {
                self.at = next.at;
                Some(Err(why))
            }
            Step::End | Step::Stopped => None,
        }
    }
}

fn step_at(options: &[u8], offset: usize, at: usize, edition: u32) -> Step
    ensures { step_told result ≡ step_of (edition_of edition) offset options.now at }
{
    let here = Cursor { at };
    here.step(options, offset, Edition::of(edition))
}

// A walker at the first byte.
pub fn from_slice<'a>(options: &'a [u8], offset: usize, edition: u32) -> Walker<'a>
    ensures { (result.options ≡ options.entry) × (result.offset ≡ offset) × (result.edition ≡ edition) × (result.at ≡ 0) }
{
    Walker {
        options,
        offset,
        edition,
        at: 0,
    }
}

// What stands at the walker's place, with the cursor of the next.
pub fn step<'a>(w: Walker<'a>) -> Step
    ensures { step_told result ≡ step_of (edition_of w.entry.edition) w.entry.offset w.entry.options.now w.entry.at }
{
    step_at(w.options, w.offset, w.at, w.edition)
}

// The bytes from the walker's place on; none if it is beyond them.
pub fn rest<'a>(w: Walker<'a>) -> &'a [u8]
    ensures { result.now ≡ drop w.entry.at w.entry.options.now }
{
    Cursor { at: w.at }.rest(w.options)
}

// The first step over the bytes, for a caller who needs no walker.
pub fn first_step(options: &[u8], offset: usize, edition: u32) -> Step
    ensures { step_told result ≡ step_of (edition_of edition) offset options.now 0 }
{
    step(from_slice(options, offset, edition))
}
