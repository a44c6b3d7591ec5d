//! Orders of numbers.

ghost use Rattle.std.specs.Prelude.{◌≡◌, ◌<◌, ◌≤◌, ℕ, true, take};
ghost use Rattle.fs_model.specs.Numbers.{has_number, stands_before};
ghost use Rattle.fs_cand_witness.specs.Edges.{has_edge};
ghost use Rattle.fs_cand_witness.specs.Orders.{IsOrderBelow};
ghost use Rattle.fs_cand_witness.specs.inner.Widening.{HasOrder};

use crate::cycles::{Judged, judge};
use crate::rows::Rows;

/// An order that extends the relation on the numbers below n: the first n.
pub(crate) fn order_of(rows: &Rows, n: usize) -> [u8; 64]
    requires fits { n ≤ 64 }
    requires order { HasOrder rows.now n }
    ensures { IsOrderBelow (has_edge rows.now) n (take n result) }
{
    match judge(rows, n) {
        Judged::Order(order) => order,
        Judged::Cycle(..) => unreachable!(),
    }
}

/// The order as rows: an edge leads from each number to those that come after it.
pub(crate) fn order_rows(numbers: &[u8]) -> Rows
    requires { (a : ℕ) → has_number numbers.now a ≡ true → a < 64 }
    ensures { (a b : ℕ) → has_edge result a b ≡ stands_before numbers.now a b }
{
    let mut rows = Rows::new();
    let mut later: u64 = 0;
    let mut left = numbers.len();
    while left > 0 {
        left -= 1;
        let number = numbers[left];
        rows.add_row(usize::from(number), later);
        later |= 1 << number;
    }
    rows
}
