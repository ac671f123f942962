// The section that some bytes start with, and scans over the bytes of its values, two a turn.
ghost use Rattle.std.specs.Prelude.{◌≡◌, ◌<◌, ◌≤◌, length, ltb, MatchResult};
ghost use Rattle.rules.specs.Refusals.{accepted, refuse_if, first_bad_page as «first_bad_page_of»};
ghost use Rattle.rules.specs.declared.refusal.Refusal.TheVariants.{BytesLeft};
ghost use Rattle.file_theory.specs.Format.{number_at, all_numbers};
ghost use Rattle.file_theory.specs.Decoding.{section as section_of, rising as rising_of};
ghost use Rattle.file_theory.specs.Promises.{overwritten};
ghost use Rattle.file_theory.specs.Sections.{SectionFound};

use rules::{CAPACITIES, PAGES, Refusal};

// The number that some bytes start with, low byte first.
fn number(bytes: &[u8]) -> u16
    requires { 1 < length bytes.now }
    ensures { result ≡ number_at bytes.now 0 }
{
    u16::from_le_bytes([bytes[0], bytes[1]])
}

// The section that the bytes start with: the bytes of its values, and the bytes behind it. Who asks says what a count
// over the limit is refused as.
#[tactic(auto, using(file_theory::specs::Sections::found_whole))]
pub(crate) fn section(bytes: &[u8], limit: usize, over: Refusal) -> Result<(&[u8], &[u8]), Refusal>
    ensures { MatchResult result
        (λ found. SectionFound limit bytes.now found.0.now found.1.now)
        (λ r. section_of limit over bytes.now ≡ Err r) }
{
    if bytes.len() < 2 {
        return Err(Refusal::CutFile);
    }
    let n = usize::from(number(bytes));
    if limit < n {
        return Err(over);
    }
    if bytes.len() < 2 + 2 * n {
        return Err(Refusal::CutFile);
    }
    Ok(bytes[2..].split_at(2 * n))
}

// Is each of the values a capacity, and above the one before it? A value above the one before is above 0, so only
// the upper limit is tested by itself.
#[tactic(auto, using(file_theory::specs::Words::turns), unfolding(file_theory::specs::Decoding::rising))]
pub(crate) fn rising(values: &[u8]) -> bool
    ensures { result ≡ rising_of 0 (all_numbers values.now) }
{
    let mut before = 0;
    for pair in values.chunks_exact(2) {
        let c = usize::from(number(pair));
        if c <= before || CAPACITIES < c {
            return false;
        }
        before = c;
    }
    true
}

// The first of the values that is no page number, as a refusal with its index. Crate `count` looks so at numbers; these are
// bytes, since a table is written only when all is checked.
#[tactic(auto, using(file_theory::specs::Words::turns), unfolding(rules::specs::Refusals::first_bad_page))]
pub(crate) fn first_bad_page(values: &[u8]) -> Result<(), Refusal>
    ensures { result ≡ «first_bad_page_of» 0 (all_numbers values.now) accepted }
{
    for (i, pair) in values.chunks_exact(2).enumerate() {
        if PAGES <= number(pair) {
            return Err(Refusal::BadPage(i));
        }
    }
    Ok(())
}

// Do bytes remain behind the last section?
pub(crate) fn bytes_left(behind: &[u8]) -> Result<(), Refusal>
    ensures { result ≡ refuse_if (ltb 0 (length behind.now)) BytesLeft accepted }
{
    if behind.is_empty() {
        Ok(())
    } else {
        Err(Refusal::BytesLeft)
    }
}

// Puts the values at the front of a table, and says how many they are.
#[tactic(auto, using(file_theory::specs::Words::turns, file_theory::specs::Answers::put_in_front))]
pub(crate) fn copy_values(values: &[u8], table: &mut [u16]) -> usize
    requires { length (all_numbers values.now) ≤ length table.old }
    ensures count { result ≡ length (all_numbers values.now) }
    ensures copied { table.new ≡ overwritten (all_numbers values.now) table.old }
{
    for (i, pair) in values.chunks_exact(2).enumerate() {
        table[i] = number(pair);
    }
    values.len() / 2
}
