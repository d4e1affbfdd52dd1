//! What one task or one link was told, report by report.
ghost use Rattle.std.specs.Prelude.{◌≡◌, ◌≤◌, nat_lt, length, true, false};
ghost use Rattle.std.specs.List.Sorted.{IsNonDecreasingBy, IsPartitionPoint};
ghost use Rattle.report_book.specs.Told.{amount_before};

/// An amount, and the place of the report that told it.
#[derive(Clone, Copy, Debug, PartialEq, Eq)]
pub struct Told {
    pub place: u64,
    pub amount: u64,
}

/// The amount that was told last before the place, or else the first one. It costs by the logarithm
/// of the list.
pub(crate) fn last_before(first: u64, told: &[Told], place: u64) -> u64
    requires rising { IsNonDecreasingBy (λ entry. entry.place) told.now }
    ensures { result ≡ amount_before first told.now place }
{
    match count_before(told, place) {
        0 => first,
        count => told[count - 1].amount,
    }
}

// How many entries stand before the place.
fn count_before(told: &[Told], place: u64) -> usize
    requires rising { IsNonDecreasingBy (λ entry. entry.place) told.now }
    ensures within { result ≤ length told.now }
    ensures before { IsPartitionPoint
        (λ entry. nat_lt entry.place place ≡ true) (λ entry. nat_lt entry.place place ≡ false)
        told.now result }
{
    told.partition_point(|entry| entry.place < place)
}
