// Writes bytes or numbers into a buffer that the caller lends: all of them, or none and refusal 9 (docs/RULES.md T6, T11).
#![tactic(auto)]

ghost use Rattle.std.specs.Prelude.{◌≡◌, ◌-◌, ◌*◌, ℕ, length};
ghost use Rattle.output.specs.Output.{written_told, room_in, room_for, numbers_for, leaves};

use refusal::Refusal;

// What a lent buffer holds: bytes, or numbers of four bytes.
trait Item: Copy {
    // How many bytes one item is.
    ghost BYTES: { ℕ };

    // How many bytes some items are.
    fn bytes_in(items: &[Self]) -> usize
        ensures { result ≡ length items.now * BYTES };
}

impl Item for u8 {
    ghost BYTES = { 1 };

    fn bytes_in(items: &[u8]) -> usize {
        items.len()
    }
}

impl Item for u32 {
    ghost BYTES = { 4 };

    fn bytes_in(items: &[u32]) -> usize {
        items.len() * 4
    }
}

// How many items a buffer has from a place on.
fn left<T: Item>(out: &[T], at: usize) -> usize
    ensures { result ≡ length out.now - at }
{
    out.len().saturating_sub(at)
}

// How many bytes a buffer has from a place on.
pub fn room(out: &[u8], at: usize) -> usize
    ensures { result ≡ length out.now - at }
{
    left(out, at)
}

// Writes items at a place of a buffer. No items fit anywhere, also beyond the buffer.
#[tactic(auto, using(crate::proofs::Pasted::one_more, crate::proofs::Pasted::all_put, std::proofs::lemmas::Grind::common_steps), unfolding(crate::specs::Output::room_in))]
fn put_items<T: Item>(out: &mut [T], place: usize, items: &[T]) -> Result<usize, Refusal>
    ensures answers { written_told result ≡ room_in (length items.now * T.BYTES) (length items.now) out.old place }
    ensures lent { out.new ≡ leaves (room_in (length items.now * T.BYTES) (length items.now) out.old place) out.old place items.now }
{
    let count = items.len();
    if left(out, place) < count {
        return Err(Refusal::ShortOutput {
            needed: T::bytes_in(items),
        });
    }
    // By index: `copy_from_slice` would ask for a `memcpy` from outside, and the archive asks for nothing.
    for i in 0..count {
        out[place + i] = items[i];
    }
    Ok(place + count)
}

// Writes bytes at a place of a buffer. (An empty slice fits anywhere, also beyond the buffer.) Refusal 9 carries the number of bytes, counted
// from the place: the buffer needs `at` more.
pub fn put(out: &mut [u8], at: usize, bytes: &[u8]) -> Result<usize, Refusal>
    ensures answers { written_told result ≡ room_for (length bytes.now) out.old at }
    ensures lent { out.new ≡ leaves (room_for (length bytes.now) out.old at) out.old at bytes.now }
{
    put_items(out, at, bytes)
}

// Writes numbers at a place of a buffer, as `put` does bytes. Places count numbers; refusal 9 counts bytes, four a number.
pub fn put_numbers(out: &mut [u32], at: usize, numbers: &[u32]) -> Result<usize, Refusal>
    ensures answers { written_told result ≡ numbers_for (length numbers.now) out.old at }
    ensures lent { out.new ≡ leaves (numbers_for (length numbers.now) out.old at) out.old at numbers.now }
{
    put_items(out, at, numbers)
}
