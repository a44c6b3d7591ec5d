ghost use Rattle.std.specs.Prelude.{◌≡◌, ◌+◌, ◌-◌, ℕ, ◌<◌, ◌≤◌, ◌^◌, List, slice_index, true, false};
ghost use Rattle.fs_cand_witness.specs.Edges.{has_edge};
ghost use Rattle.fs_cand_witness.specs.inner.Paths.{IsTrail};
ghost use Rattle.fs_cand_witness.specs.Orders.{IsOrderBelow, IsCycleBelow};
ghost use Rattle.fs_cand_witness.specs.Judged.{IsJudged};

use crate::Rows;

/// What a relation on the numbers below n has: an order that extends it, or a cycle.
pub enum Judged {
    /// The first n are the numbers below n, each once, and each edge goes forward.
    Order([u8; 64]),
    /// The first ones, as many as the number beside says: each has an edge to the next, and the last to the first.
    Cycle([u8; 64], usize),
}

/// An order of the numbers below n that extends the relation, or a cycle of it, by a walk in depth first. Edges of
/// other numbers don't count. Each number is visited once: at most 2n steps, each of some words.
pub fn judge(rows: &Rows, n: usize) -> Judged
    requires { n ≤ 64 }
    ensures { IsJudged rows.now n result }
{
    let mut order = [0; 64];
    let mut left = n;
    let mut path = [0; 64];
    let mut unvisited = ones_below(n);
    while unvisited != 0 {
        let mut at = unvisited.trailing_zeros() as u8;
        unvisited &= !(1 << at);
        let mut on_path: u64 = 1 << at;
        path[0] = at;
        let mut len = 1;
        if rows.row(at) & on_path != 0 {
            return cycle(rows, &path, len);
        }
        'walk: loop {
            let next = rows.row(at) & unvisited;
            if next == 0 {
                len -= 1;
                left -= 1;
                order[left] = at;
                on_path &= !(1 << at);
                if len == 0 {
                    break;
                }
                at = path[len - 1];
            } else {
                at = next.trailing_zeros() as u8;
                unvisited &= !(1 << at);
                on_path |= 1 << at;
                path[len] = at;
                len += 1;
                if rows.row(at) & on_path != 0 {
                    return cycle(rows, &path, len);
                }
            }
        }
    }
    Judged::Order(order)
}

/// Has the relation on the numbers below n an order that extends it? Otherwise it has a cycle. As `judge`, and a little
/// faster.
pub fn has_order(rows: &Rows, n: usize) -> bool
    requires { n ≤ 64 }
    ensures ordered { result ≡ true → (numbers : List ℕ) × IsOrderBelow (has_edge rows.now) n numbers }
    ensures cyclic { result ≡ false → (numbers : List ℕ) × IsCycleBelow (has_edge rows.now) n numbers }
{
    let mut path = [0; 64];
    let mut unvisited = ones_below(n);
    while unvisited != 0 {
        let mut at = unvisited.trailing_zeros() as u8;
        unvisited &= !(1 << at);
        let mut on_path: u64 = 1 << at;
        path[0] = at;
        let mut len = 1;
        if rows.row(at) & on_path != 0 {
            return false;
        }
        'walk: loop {
            let next = rows.row(at) & unvisited;
            if next == 0 {
                len -= 1;
                on_path &= !(1 << at);
                if len == 0 {
                    break;
                }
                at = path[len - 1];
            } else {
                at = next.trailing_zeros() as u8;
                unvisited &= !(1 << at);
                on_path |= 1 << at;
                path[len] = at;
                len += 1;
                if rows.row(at) & on_path != 0 {
                    return false;
                }
            }
        }
    }
    true
}

/// The numbers below n, as bits.
fn ones_below(n: usize) -> u64
    requires { n ≤ 64 }
    ensures { result ≡ 2 ^ n - 1 }
{
    if n < 64 { (1 << n) - 1 } else { u64::MAX }
}

/// The end of a path from whose last number an edge leads back to it.
fn cycle(rows: &Rows, path: &[u8; 64], len: usize) -> Judged
    requires { IsTrail rows.now path.now len }
    ensures { (n : ℕ) → len ≤ n → ((i : ℕ) → i < len → slice_index path.now i < n) → IsJudged rows.now n result }
{
    let row = rows.row(path[len - 1]);
    let mut start = len - 1;
    while row >> path[start] & 1 == 0 {
        start -= 1;
    }
    Judged::Cycle(cut(path, start, len), len - start)
}

/// What stands from `from` up to `to`, at the front.
fn cut(path: &[u8; 64], from: usize, to: usize) -> [u8; 64]
    requires from { from ≤ to }
    requires to { to ≤ 64 }
    ensures { (i : ℕ) → i < to - from → slice_index result i ≡ slice_index path.now (from + i) }
{
    let mut front = [0; 64];
    for i in from..to {
        front[i - from] = path[i];
    }
    front
}
