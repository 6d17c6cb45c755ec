// The earliest of a slice of records, chosen by one text for every kind of record that has a total order.
#![tactic(auto)]

ghost use Rattle.std.specs.Prelude.{◌≡◌, ◌+◌, ◌<◌, length, MatchOption};
ghost use Rattle.order.specs.Earliest.{Earliest, Leads, SoFar, TellsApart, comes_before, earliest_place};

// Records of which only those that are the same compare as equal, so that of two different ones one comes before the other.
pub trait Ordered: Ord {
    ghost total: { TellsApart Self.cmp };
}

// The place of the earliest record; none where there is no record.
pub fn earliest<T: Ordered>(records: &[T]) -> Option<usize>
    ensures place { result ≡ earliest_place (comes_before T.cmp) records.now }
    ensures leads { MatchOption result (length records.now ≡ 0) (λ k. Leads (comes_before T.cmp) records.now k) }
    ensures law { MatchOption result (length records.now ≡ 0) (λ k. Earliest (comes_before T.cmp) records.now k) }
{
    leader(records)
}

// The place of the record that none precedes, of equal ones the first; none where there is no record. Of records that are ordered alike
// and yet differ, as an `Ord` may have them, this is all that can be said.
pub fn leader<T: Ord>(records: &[T]) -> Option<usize>
    ensures place { result ≡ earliest_place (comes_before T.cmp) records.now }
    ensures leads { MatchOption result (length records.now ≡ 0) (λ k. Leads (comes_before T.cmp) records.now k) }
    ensures law { MatchOption result (length records.now ≡ 0) (λ k. TellsApart T.cmp → Earliest (comes_before T.cmp) records.now k) }
{
    // A loop over places: the least of the records zipped with their places takes half as long again.
    if records.len() == 0 {
        return None;
    }
    let mut best = only(records);
    for i in 1..records.len() {
        best = earlier(records, i, best);
    }
    Some(best)
}

// Of the two places, the one whose record comes before the other's; `best` where neither does.
fn earlier<T: Ord>(records: &[T], place: usize, best: usize) -> usize
    requires place { place < length records.now }
    requires so_far { SoFar (comes_before T.cmp) records.now place best }
    ensures { SoFar (comes_before T.cmp) records.now (place + 1) result }
{
    if records[place].cmp(&records[best]).is_lt() {
        place
    } else {
        best
    }
}

// The place of the first record, which is the earliest of itself.
fn only<T: Ord>(records: &[T]) -> usize
    requires { 0 < length records.now }
    ensures { SoFar (comes_before T.cmp) records.now 1 result }
{
    0
}
