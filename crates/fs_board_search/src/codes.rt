//! What placements order and what executions keep, in four bits for each slot.

use fs_board::Decision;
use fs_cert_evidence::Pairs;
use fs_kinds::{Classes, Entry, Kind};

const READ: Classes = Classes {
    reads: true,
    writes: false,
};

const WRITE: Classes = Classes {
    reads: false,
    writes: true,
};

/// Four bits for each of 48 slots, as many as a test may have. Of slots past these nothing is kept.
#[derive(Clone, Copy)]
pub(crate) struct Codes {
    words: [u64; 3],
}

/// A bit for each pair.
fn bits(pairs: Pairs) -> u64 {
    u64::from(pairs.read_read)
        | u64::from(pairs.read_write).wrapping_shl(1)
        | u64::from(pairs.write_read).wrapping_shl(2)
        | u64::from(pairs.write_write).wrapping_shl(3)
}

/// The pairs that a kind of fence, or none, orders, a bit for each.
pub(crate) fn bits_of_kind(kind: Option<Kind>) -> u64 {
    let Some(kind) = kind else {
        return 0;
    };
    bits(Pairs {
        read_read: kind.orders(READ, READ),
        read_write: kind.orders(READ, WRITE),
        write_read: kind.orders(WRITE, READ),
        write_write: kind.orders(WRITE, WRITE),
    })
}

impl Codes {
    /// Nothing at any slot.
    fn new() -> Codes {
        Codes { words: [0; 3] }
    }

    /// Puts the bits at the slot of this number.
    fn put(&mut self, slot: usize, bits: u64) {
        let shift = 4 * (slot % 16) as u32;
        if let Some(word) = self.words.get_mut(slot / 16) {
            *word |= bits.wrapping_shl(shift);
        }
    }

    /// The bits that are missing at the slot of this number, as a number below 16.
    pub(crate) fn lacking_at(&self, slot: usize) -> u32 {
        let shift = 4 * (slot % 16) as u32;
        let word = self.words.get(slot / 16).copied().unwrap_or(0);
        (!word.wrapping_shr(shift) & 15) as u32
    }

    /// What a placement orders at each slot.
    pub(crate) fn of_placement(entries: &[Entry]) -> Codes {
        let mut codes = Codes::new();
        for (slot, entry) in entries.iter().enumerate() {
            codes.put(slot, bits_of_kind(entry.kind));
        }
        codes
    }

    /// What the least placement of these decisions orders at each slot.
    pub(crate) fn of_floor(decisions: &[Decision]) -> Codes {
        let mut codes = Codes::new();
        for (slot, decision) in decisions.iter().enumerate() {
            codes.put(slot, bits_of_kind(decision.decided.unwrap_or(None)));
        }
        codes
    }

    /// What an execution keeps at each slot.
    pub(crate) fn of_widths(widths: &[Pairs]) -> Codes {
        let mut codes = Codes::new();
        for (slot, pairs) in widths.iter().enumerate() {
            codes.put(slot, bits(*pairs));
        }
        codes
    }

    /// Has the other one each bit at each slot?
    pub(crate) fn is_within(&self, other: &Codes) -> bool {
        self.words[0] & !other.words[0] == 0
            && self.words[1] & !other.words[1] == 0
            && self.words[2] & !other.words[2] == 0
    }
}
