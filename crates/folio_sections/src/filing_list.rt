//! Lists with a value of each of several filings, in the order of these.
ghost use Rattle.std.specs.Prelude.{◌≡◌, ◌+◌, ◌≤◌, ◌<◌, ◌==◌, true, false, take, ℕ, Bool, Some, count_by, length, if◌then◌else◌, get_or, option_map, nat_lt, slice_get, vec_len, vec_capacity};
ghost use Rattle.std.specs.List.{AllByRecursion};
ghost use Rattle.folio_sections.specs.declared.filing_list.OfFiling.{OfFiling};
ghost use Rattle.folio_sections.specs.inner.FilingLists.{Ascends, at_filing, value_in};

use gb_base::ReceiptNo;

/// The value of a filing.
#[derive(Clone, Copy)]
pub(crate) struct OfFiling<V> {
    pub filing: ReceiptNo,
    pub value: V,
}

/// The value of a filing; None where it has none.
pub(crate) fn value_of<V: Copy>(list: &[OfFiling<V>], filing: ReceiptNo) -> Option<V>
    requires { Ascends 1 list.now }
    ensures { result ≡ value_in filing list.now }
{
    value_at(list, count_below(list, filing), filing)
}

/// The value at an index, where it is of this filing.
fn value_at<V: Copy>(list: &[OfFiling<V>], index: usize, filing: ReceiptNo) -> Option<V>
    ensures { result ≡ option_map (λ x. x.value) (at_filing filing (slice_get list.now index)) }
{
    match list.get(index) {
        Some(one) if one.filing == filing => Some(one.value),
        _ => None,
    }
}

/// Writes a value over the one of its filing, or puts it where it belongs in the order if there is
/// none. It answers at which index. If none of the first n passed a test before, none of the first n
/// does after, unless the new value is among them and passes; of all, at most one more passes.
pub(crate) fn put<V: Copy>(list: &mut Vec<OfFiling<V>>, one: OfFiling<V>) -> usize
    requires order { Ascends 1 list.old.items }
    requires room { vec_len list.old < vec_capacity list.old }
    ensures order { Ascends 1 list.new.items }
    ensures there { (m : ℕ) → value_in m list.new.items ≡ if one.filing == m then Some one.value else value_in m list.old.items }
    ensures first { (t : OfFiling V → Bool) (n : ℕ) → AllByRecursion (λ x. t x ≡ false) (take n list.old.items) → (result < n → t one ≡ false) → AllByRecursion (λ x. t x ≡ false) (take n list.new.items) }
    ensures counted { (t : OfFiling V → Bool) → count_by t list.new.items ≤ count_by t list.old.items + (if t one then 1 else 0) }
    ensures longer { length list.old.items ≤ length list.new.items }
    ensures len { vec_len list.new ≤ vec_len list.old + 1 }
    ensures capacity { vec_capacity list.new ≡ vec_capacity list.old }
{
    let index = count_below(list.as_slice(), one.filing);
    match value_at(list.as_slice(), index, one.filing) {
        Some(_) => list[index] = one,
        None => list.insert(index, one).unwrap(),
    }
    index
}

/// How many of them are of filings below this one, whose number is at least 1, like any receipt's.
pub(crate) fn count_below<V: Copy>(list: &[OfFiling<V>], filing: ReceiptNo) -> usize
    requires { Ascends 1 list.now }
    ensures positive { 0 < filing }
    ensures within { result ≤ length list.now }
    ensures below { (k : ℕ) (d : OfFiling V) → k < result → nat_lt (get_or list.now k d).filing filing ≡ true }
    ensures behind { (d : OfFiling V) → result < length list.now → nat_lt (get_or list.now result d).filing filing ≡ false }
{
    let number = filing.get();
    list.partition_point(|one| one.filing.get() < number)
}

/// How many of them are of filings up to this number.
pub(crate) fn count_to<V: Copy>(list: &[OfFiling<V>], floor: u32) -> usize
    requires { Ascends 1 list.now }
    ensures within { result ≤ length list.now }
    ensures passed { (k : ℕ) (d : OfFiling V) → k < result → nat_lt floor (get_or list.now k d).filing ≡ false }
{
    list.partition_point(|one| one.filing.get() <= floor)
}
