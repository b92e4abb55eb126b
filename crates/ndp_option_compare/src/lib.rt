// What differs between two option lists, option by option (docs/RULES.md V1 to V8).
#![tactic(auto)]

ghost use Rattle.std.specs.Prelude.{◌≡◌, ◌+◌, ◌<◌, ◌≤◌, length};
ghost use Rattle.packet_length.specs.Length.{limit};
ghost use Rattle.output.specs.Output.{over};
ghost use Rattle.ndp_option_compare.specs.Entry.{agree as entry_agree, entry_of};
ghost use Rattle.ndp_option_compare.specs.Compare.{numbers_of, compared_of, report_after, is_whole, common_of};
ghost use Rattle.ndp_option_compare.specs.Turn.{Cleanly, Stands, Ready, entry_at, counts_of, counts_told, Shared};
ghost use Rattle.ndp_option_compare.specs.Told.{compared_told};

use ndp_options::{Cursor, Edition, Step};
use refusal::Refusal;

// Why no report was written: a list is refused, or the report is too short.
#[derive(Clone, Copy, Debug, PartialEq, Eq)]
pub enum CompareError {
    First(Refusal),
    Second(Refusal),
    Report(Refusal),
}

// The numbers of an entry.
const ENTRY_LEN: usize = 5;

// How many leading bytes of two options agree.
#[tactic(auto, using(crate::proofs::Alike::over_left, crate::proofs::Alike::goes_on, crate::proofs::Alike::stops), unfolding(crate::specs::Entry::agree))]
fn agree(a: &[u8], b: &[u8]) -> usize
    requires { length a.now ≡ length b.now }
    ensures { result ≡ entry_agree a.now b.now }
{
    // Counted beside: of `take_while(..).count()` the goal stayed open.
    let mut n = 0;
    for (x, y) in a.iter().zip(b) {
        if x != y {
            return n;
        }
        n += 1;
    }
    n
}

// The entry of two options at their places in the packets.
fn entry(a: &[u8], p: usize, b: &[u8], q: usize) -> [u32; 5]
    requires { (0 < length a.now) × (0 < length b.now) × (p + length a.now ≤ limit) × (q + length b.now ≤ limit) }
    ensures { result ≡ entry_of p q a.now b.now }
{
    let here = p as u32;
    let there = q as u32;
    let kind = u32::from(a[0]);
    let other = u32::from(b[0]);
    let size = a.len() as u32;
    let bytes = b.len() as u32;
    if kind != other {
        return [1, here, there, kind, other];
    }
    if size != bytes {
        return [2, here, there, size, bytes];
    }
    let k = agree(a, b);
    if k == a.len() {
        return [0, here, there, kind, size];
    }
    [
        3,
        (p + k) as u32,
        (q + k) as u32,
        u32::from(a[k]),
        u32::from(b[k]),
    ]
}

// The entry of what two rests begin with, at their places in the packets: options of `n` and `m` bytes, 0 where a list is over.
fn entry_at(first: &[u8], p: usize, n: usize, second: &[u8], q: usize, m: usize) -> [u32; 5]
    requires { (n ≤ length first.now) × (m ≤ length second.now) × (p + length first.now ≤ limit) × (q + length second.now ≤ limit) }
    ensures { result ≡ entry_at p n first.now q m second.now }
{
    if n == 0 {
        return [4, p as u32, q as u32, 2, 0];
    }
    if m == 0 {
        return [4, p as u32, q as u32, 1, 0];
    }
    entry(&first[..n], p, &second[..m], q)
}

// The length of the option at a place of a list that walks clean from there; 0 at the list's end.
fn length_at(options: &[u8], at: usize, edition: Edition) -> usize
    requires { Cleanly edition options.now at }
    ensures { Stands edition options.now at result }
{
    match (Cursor { at }).step(options, 0, edition) {
        Step::Handed(option, _) => option.len,
        Step::End => 0,
        // Never: the walk is clean, and its places are within the bytes.
        Step::Refused(_, _) => 0,
        Step::Stopped => 0,
    }
}

// Writes the report of two lists that walk clean.
fn write_report(
    first: &[u8],
    first_at: usize,
    second: &[u8],
    second_at: usize,
    report: &mut [u32],
    entries: usize,
    edition: Edition,
)
    requires { Ready edition first_at first.now second_at second.now entries (length report.old) }
    ensures { report.new ≡ over report.old 0 (numbers_of edition first_at first.now second_at second.now) }
{
    let mut a = 0;
    let mut b = 0;
    for k in 0..entries {
        let n = length_at(first, a, edition);
        let m = length_at(second, b, edition);
        let numbers = entry_at(&first[a..], first_at + a, n, &second[b..], second_at + b, m);
        // It fits: the report has room for all entries.
        let _ = output::put_numbers(report, k * ENTRY_LEN, &numbers);
        a += n;
        b += m;
    }
}

// How many options each list has.
fn count_both(
    first: &[u8],
    first_at: usize,
    second: &[u8],
    second_at: usize,
    edition: Edition,
) -> Result<(usize, usize), CompareError>
    ensures { counts_told result ≡ counts_of edition first_at first.now second_at second.now }
{
    let n = ndp_option_list::count(first, first_at, edition).map_err(CompareError::First)?;
    let m = ndp_option_list::count(second, second_at, edition).map_err(CompareError::Second)?;
    Ok((n, m))
}

// Writes what differs between two lists to the start of a lent report: an entry of five numbers for each pair of options, and one more if one list is
// longer. The first byte of each list is at an offset of its packet, and each place that is told is one in that packet.
pub fn compare(
    first: &[u8],
    first_at: usize,
    second: &[u8],
    second_at: usize,
    report: &mut [u32],
    edition: Edition,
) -> Result<usize, CompareError>
    ensures answers { compared_told result ≡ compared_of edition first_at first.now second_at second.now report.old }
    ensures lent { report.new ≡ report_after edition first_at first.now second_at second.now report.old }
{
    let (n, m) = count_both(first, first_at, second, second_at, edition)?;
    // An entry more where one list is longer.
    let entries = n.min(m) + usize::from(n != m);
    let numbers = entries * ENTRY_LEN;
    if report.len() < numbers {
        return Err(CompareError::Report(Refusal::ShortOutput {
            needed: numbers * 4,
        }));
    }
    write_report(first, first_at, second, second_at, report, entries, edition);
    Ok(entries)
}

fn is_whole(options: &[u8], edition: Edition) -> bool
    ensures { result ≡ is_whole edition options.now }
{
    ndp_option_list::count(options, 0, edition).is_ok()
}

// How many bytes the options have with which two lists begin alike that walk clean.
fn common_len(first: &[u8], second: &[u8], edition: Edition) -> usize
    requires { Cleanly edition first.now 0 × Cleanly edition second.now 0 }
    ensures { Shared edition first.now second.now result }
{
    let mut at = 0;
    // By places: each option begins where the one before it ends, in both lists.
    loop {
        let n = length_at(first, at, edition);
        let m = length_at(second, at, edition);
        if n == 0 {
            return at;
        }
        if n != m {
            return at;
        }
        let end = at + n;
        if agree(&first[at..end], &second[at..end]) != n {
            return at;
        }
        at = end;
    }
}

// The options with which two lists begin alike, byte for byte, as a part of the first; none if one of the lists is refused.
pub fn common_options<'a, 'b>(first: &'a [u8], second: &'b [u8], edition: Edition) -> &'a [u8]
    ensures { result.now ≡ common_of edition first.now second.now }
{
    if !is_whole(first, edition) {
        return &first[..0];
    }
    if !is_whole(second, edition) {
        return &first[..0];
    }
    let n = common_len(first, second, edition);
    &first[..n]
}
