ghost use Rattle.std.specs.Prelude.{◌≡◌, ℕ, ◌<◌, ◌≤◌, ◌==◌, ◌&&◌, ◌||◌, false, slice_index};
ghost use Rattle.fs_cand_witness.specs.Edges.{has_edge, has_bit};

use std::marker::Model;

/// A relation on the numbers below 64: row a has a bit for each number to which an edge leads from a.
#[derive(Drop)]
pub struct Rows {
    rows: [u64; 64],
}

impl Model for Rows {
    ghost use Rattle.std.specs.Prelude.{List, ℕ};

    ghost Value = { List ℕ };

    ghost view = { λ r. r.rows };
}

impl Rows {
    /// No edge.
    pub fn new() -> Self
        ensures { (x y : ℕ) → has_edge result x y ≡ false }
    {
        Rows { rows: [0; 64] }
    }

    /// The numbers to which an edge leads from a, as bits.
    pub fn row(&self, a: u8) -> u64
        requires { a < 64 }
        ensures { result ≡ slice_index self.now a }
    {
        self.rows[a as usize]
    }

    /// Has edges lead from a to each of some numbers, besides those to which they led.
    pub fn add_row(&mut self, a: usize, to: u64)
        requires { a < 64 }
        ensures { (x y : ℕ) → has_edge self.new x y ≡ (has_edge self.old x y || ((x == a) && has_bit to y)) }
    {
        self.rows[a] |= to;
    }

    /// Puts the edge from a to b in.
    pub fn add(&mut self, a: usize, b: usize)
        requires first { a < 64 }
        requires second { b < 64 }
        ensures { (x y : ℕ) → has_edge self.new x y ≡ (has_edge self.old x y || ((x == a) && (y == b))) }
    {
        self.rows[a] |= 1 << b;
    }

    /// Is the edge from a to b in?
    pub fn has(&self, a: usize, b: usize) -> bool
        requires first { a < 64 }
        requires second { b < 64 }
        ensures { result ≡ has_edge self.now a b }
    {
        self.rows[a] >> b & 1 == 1
    }

    /// Puts the edges of the other in.
    pub fn union(&mut self, other: &Rows)
        ensures { (x y : ℕ) → has_edge self.new x y ≡ (has_edge self.old x y || has_edge other.now x y) }
    {
        for a in 0..64 {
            self.rows[a] |= other.rows[a];
        }
    }

    /// Has just the edges of both from each number below n, and from the others those that it had. n words.
    pub fn join(&mut self, first: &Rows, second: &Rows, n: usize)
        requires { n ≤ 64 }
        ensures below { (x y : ℕ) → x < n → has_edge self.new x y
            ≡ (has_edge first.now x y || has_edge second.now x y) }
        ensures above { (x y : ℕ) → n ≤ x → has_edge self.new x y ≡ has_edge self.old x y }
    {
        for a in 0..n {
            self.rows[a] = first.rows[a] | second.rows[a];
        }
    }

    /// Has edges lead from each of some numbers to each of others.
    pub fn add_to_each(&mut self, from: u64, to: u64)
        ensures { (x y : ℕ) → has_edge self.new x y ≡ (has_edge self.old x y || (has_bit from x && has_bit to y)) }
    {
        let mut left = from;
        while left != 0 {
            let a = left.trailing_zeros() as u8;
            left &= !(1 << a);
            self.rows[a as usize] |= to;
        }
    }
}
