// An index beside the options (docs/RULES.md, area I): two numbers for each option of a list, its type and its place, in list order. It is built once,
// grown with the list, and answers the first of a type and the next after a place without a look at the list. List and index are lent
// buffers with what is used of them beside: C lends them so.
#![tactic(auto)]

ghost use Rattle.std.specs.Prelude.{◌≡◌, ◌+◌, ◌*◌, ◌≤◌, [], ◌∷◌, length, drop};
ghost use Rattle.wire.specs.Prefix.{begins};
ghost use Rattle.packet_length.specs.Length.{limit};
ghost use Rattle.output.specs.Output.{over, leaves};
ghost use Rattle.ndp_options.specs.Walk.{walk};
ghost use Rattle.ndp_option_index.specs.Entries.{entries_in, asked, place_by, first_in, next_in};
ghost use Rattle.ndp_option_index.specs.Index.{index_from, index_of, build_of};
ghost use Rattle.ndp_option_index.specs.Told.{found_told, indexed_told, matched_told, grown_told};
ghost use Rattle.ndp_option_index.specs.Append.{matched_of, grown_of, append_of, more_of};

use ndp_option_list::count;
use ndp_options::{Cursor, Edition, Step};
use output::{put, put_numbers};
use refusal::{NdpOptionType, Refusal};

// The most entries that an index has: 512 bytes.
const MOST: usize = 64;

// The place of the first entry of a type, or of the first that is above a place.
#[tactic(auto, unfolding(crate::specs::Entries::entries_in, ndp_option_list::specs::Whole::first_by))]
fn seek(index: &[u32], wanted: NdpOptionType, above: Option<usize>) -> Option<usize>
    ensures { found_told result ≡ place_by (asked wanted.0 above) (entries_in index.now) }
{
    let mut rest = index;
    while let [id, place, more @ ..] = rest {
        let place = *place as usize;
        if *id == u32::from(wanted.0) && above.is_none_or(|after| after < place) {
            return Some(place);
        }
        rest = more;
    }
    None
}

// The place of the first entry of a type. Any numbers are an index: one left over at the end is no entry.
pub fn first_of_type(index: &[u32], wanted: NdpOptionType) -> Option<usize>
    ensures { found_told result ≡ first_in wanted.0 (entries_in index.now) }
{
    seek(index, wanted, None)
}

// The place of the first entry of a type that is above a place, which need not be an entry's own.
pub fn next_of_type(index: &[u32], wanted: NdpOptionType, after: usize) -> Option<usize>
    ensures { found_told result ≡ next_in wanted.0 after (entries_in index.now) }
{
    seek(index, wanted, Some(after))
}

// Enters each option of the bytes, whose first is at an offset of the list, from a number of the index on.
fn enter(options: &[u8], offset: usize, index: &mut [u32], from: usize, edition: Edition)
    requires { (offset + length options.now ≤ limit) × (from + length (walk edition options.now).items * 2 ≤ length index.old) }
    ensures { index.new ≡ over index.old from (index_from edition offset options.now) }
{
    // By steps: the list was counted, so a walker's `Err` would be an arm more that never comes.
    let mut c = Cursor::new();
    let mut k = from;
    while let Step::Handed(option, next) = c.step(options, offset, edition) {
        let place = option.place;
        // It fits: whoever enters has counted the options.
        let _ = put_numbers(index, k, &[u32::from(option.option_type.0), place as u32]);
        k += 2;
        c = next;
    }
}

// Puts the index of a list into a lent buffer, from its start on. What stands behind it stays, and all of it on refusal.
pub fn build_index(options: &[u8], index: &mut [u32], edition: Edition) -> Result<usize, Refusal>
    ensures answers { indexed_told result ≡ build_of edition options.now index.old }
    ensures lent { index.new ≡ leaves (build_of edition options.now index.old) index.old 0 (index_of edition options.now) }
{
    let n = count(options, 0, edition)?;
    if n > MOST {
        return Err(Refusal::ManyOptions);
    }
    if index.len() < n * 2 {
        return Err(Refusal::ShortOutput { needed: n * 8 });
    }
    enter(options, 0, index, 0, edition);
    Ok(n)
}

// Whether this entry stands in the index from a number on.
#[tactic(auto, unfolding(wire::specs::Prefix::begins))]
fn entry_is(index: &[u32], k: usize, id: NdpOptionType, at: usize) -> bool
    ensures { result ≡ begins (id.0 ∷ at ∷ []) (drop k index.now) }
{
    let Some([kind, place, ..]) = index.get(k..) else {
        return false;
    };
    *kind == u32::from(id.0) && *place as usize == at
}

// Walks list and index together. The walk goes on behind a difference, since its own refusal comes first.
fn own_index(options: &[u8], index: &[u32], entries: usize, edition: Edition) -> Result<(), Refusal>
    ensures { matched_told result ≡ matched_of edition options.now index.now entries }
{
    let mut c = Cursor::new();
    let mut n: usize = 0;
    let mut same = true;
    // By steps: the walk's own answers, the end and a refusal, are told apart here.
    loop {
        match c.step(options, 0, edition) {
            Step::Handed(option, next) => {
                let here = entry_is(index, n * 2, option.option_type, option.place);
                same &= here;
                n += 1;
                c = next;
            }
            Step::End => {
                if n <= MOST && entries == n && same {
                    return Ok(());
                }
                return Err(Refusal::OtherIndex);
            }
            Step::Refused(why, _) => return Err(why),
            // Never: a cursor that a step hands on is within the bytes.
            Step::Stopped => return Err(Refusal::OtherIndex),
        }
    }
}

// Whether a list of so many bytes and options fits in buffers of so many bytes and numbers.
#[tactic(auto, unfolding(crate::specs::Append::grown_of))]
fn fitting(
    bytes: usize,
    options: usize,
    room: usize,
    numbers: usize,
) -> Result<(usize, usize), Refusal>
    ensures { grown_told result ≡ grown_of bytes options room numbers }
{
    if options > MOST {
        return Err(Refusal::ManyOptions);
    }
    if room < bytes {
        return Err(Refusal::ShortOutput { needed: bytes });
    }
    if numbers < options * 2 {
        return Err(Refusal::ShortOutput {
            needed: options * 8,
        });
    }
    Ok((bytes, options))
}

// What an append answers: all of it is known before anything is stored.
fn judge_append(
    list: &[u8],
    used: usize,
    index: &[u32],
    entries: usize,
    new: &[u8],
    edition: Edition,
) -> Result<(usize, usize), Refusal>
    ensures { grown_told result ≡ append_of edition list.now used index.now entries new.now }
{
    if list.len() < used {
        return Err(Refusal::OtherIndex);
    }
    own_index(&list[..used], index, entries, edition)?;
    let m = count(new, used, edition)?;
    let bytes = used + new.len();
    let options = entries + m;
    fitting(bytes, options, list.len(), index.len())
}

// Puts new bytes behind a list's, and their entries behind its index's; or neither. The list is the first `used` bytes of its buffer, the index the first
// `entries` entries of its own.
pub fn append(
    list: &mut [u8],
    used: usize,
    index: &mut [u32],
    entries: usize,
    new: &[u8],
    edition: Edition,
) -> Result<(usize, usize), Refusal>
    ensures answers { grown_told result ≡ append_of edition list.old used index.old entries new.now }
    ensures bytes { list.new ≡ leaves (append_of edition list.old used index.old entries new.now) list.old used new.now }
    ensures numbers { index.new ≡ leaves (append_of edition list.old used index.old entries new.now) index.old (entries * 2) (more_of edition used new.now) }
{
    let (bytes, options) = judge_append(list, used, index, entries, new, edition)?;
    // It fits: all of it was judged.
    let _ = put(list, used, new);
    enter(new, used, index, entries * 2, edition);
    Ok((bytes, options))
}
