// The index beside the options for C: built, grown with its list, and asked. The index in use is the first entries of its buffer.
#![tactic(auto)]

ghost use Rattle.std.specs.Prelude.{◌≡◌, ◌*◌, take};
ghost use Rattle.output.specs.Output.{leaves};
ghost use Rattle.ndp_options.specs.Editions.{edition_of};
ghost use Rattle.ndp_option_index.specs.Entries.{entries_in, first_in, next_in};
ghost use Rattle.ndp_option_index.specs.Index.{index_of, build_of};
ghost use Rattle.ndp_option_index.specs.Append.{append_of, more_of};
ghost use Rattle.c_index.specs.Indexed.{indexed_for, built_told, found_for};

use ndp_options::Edition;
use refusal::{NdpOptionType, Refusal};

// How many bytes the list has, and how many entries its index.
#[repr(C)]
#[derive(Clone, Copy)]
pub struct Indexed {
    pub answer: u32,
    pub refusal: u32,
    pub value: [u64; 5],
    pub length: usize,
    pub entries: usize,
}

#[repr(C)]
#[derive(Clone, Copy)]
pub struct Found {
    pub answer: u32,
    pub refusal: u32,
    pub value: [u64; 5],
    pub at: usize,
}

impl From<Result<(usize, usize), Refusal>> for Indexed {
    ghost use Rattle.std.specs.Prelude.{◌≡◌};
    ghost use Rattle.ndp_option_index.specs.Told.{grown_told};
    ghost use Rattle.c_index.specs.Indexed.{indexed_for};

    ghost from_gives = { λ grown x. x ≡ indexed_for (grown_told grown) };

    // The bytes of the list and the entries of its index, or the refusal and no numbers beside it.
    #[inline(always)]
    #[tactic(auto, unfolding(crate::specs::Indexed::indexed_for))]
    fn from(grown: Result<(usize, usize), Refusal>) -> Indexed {
        match grown {
            Ok((length, entries)) => Indexed {
                answer: c_answer::INDEXED,
                refusal: 0,
                value: [0; 5],
                length,
                entries,
            },
            Err(why) => {
                let n = why.numbers();
                let value = n.values;
                Indexed {
                    answer: c_answer::REFUSED,
                    refusal: u32::from(n.number),
                    value,
                    length: 0,
                    entries: 0,
                }
            }
        }
    }
}

impl From<Option<usize>> for Found {
    ghost use Rattle.std.specs.Prelude.{◌≡◌};
    ghost use Rattle.ndp_option_index.specs.Told.{found_told};
    ghost use Rattle.c_index.specs.Indexed.{found_for};

    ghost from_gives = { λ found x. x ≡ found_for (found_told found) };

    #[inline(always)]
    fn from(found: Option<usize>) -> Found {
        // One struct for both: of one in each arm the compiler makes a copy below the stack pointer, which a kernel may not have.
        let (answer, at) = match found {
            Some(at) => (c_answer::FOUND, at),
            None => (c_answer::NONE, 0),
        };
        Found {
            answer,
            refusal: 0,
            value: [0; 5],
            at,
        }
    }
}

// The numbers of the entries in use; all that there are, where the buffer has fewer.
fn in_use(index: &[u32], entries: usize) -> &[u32]
    ensures { result.now ≡ take (entries * 2) index.now }
{
    if index.len() / 2 < entries {
        return index;
    }
    &index[..entries * 2]
}

#[unsafe(no_mangle)]
pub extern "C" fn brothladder_index_build(
    options: &[u8],
    index: &mut [u32],
    edition: u32,
) -> Indexed
    ensures answers { result ≡ indexed_for (built_told (edition_of edition) options.now index.old) }
    ensures lent { index.new ≡ leaves (build_of (edition_of edition) options.now index.old) index.old 0 (index_of (edition_of edition) options.now) }
{
    ndp_option_index::build_index(options, index, Edition::of(edition))
        .map(|n| (options.len(), n))
        .into()
}

#[unsafe(no_mangle)]
pub extern "C" fn brothladder_index_append(
    list: &mut [u8],
    used: usize,
    index: &mut [u32],
    entries: usize,
    more: &[u8],
    edition: u32,
) -> Indexed
    ensures answers { result ≡ indexed_for (append_of (edition_of edition) list.old used index.old entries more.now) }
    ensures bytes { list.new ≡ leaves (append_of (edition_of edition) list.old used index.old entries more.now) list.old used more.now }
    ensures numbers { index.new ≡ leaves (append_of (edition_of edition) list.old used index.old entries more.now) index.old (entries * 2) (more_of (edition_of edition) used more.now) }
{
    ndp_option_index::append(list, used, index, entries, more, Edition::of(edition)).into()
}

#[unsafe(no_mangle)]
pub extern "C" fn brothladder_index_first(index: &[u32], entries: usize, type_u8: u8) -> Found
    ensures { result ≡ found_for (first_in type_u8 (entries_in (take (entries * 2) index.now))) }
{
    ndp_option_index::first_of_type(in_use(index, entries), NdpOptionType(type_u8)).into()
}

#[unsafe(no_mangle)]
pub extern "C" fn brothladder_index_next(
    index: &[u32],
    entries: usize,
    type_u8: u8,
    after: usize,
) -> Found
    ensures { result ≡ found_for (next_in type_u8 after (entries_in (take (entries * 2) index.now))) }
{
    ndp_option_index::next_of_type(in_use(index, entries), NdpOptionType(type_u8), after).into()
}
