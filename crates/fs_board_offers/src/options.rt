//! The ways to decide a slot.

use fs_kinds::Kind;

/// All ways to decide a slot: none first, and then the kinds in table order.
pub const OPTIONS: [Option<Kind>; 11] = [
    None,
    Some(Kind::RR),
    Some(Kind::RW),
    Some(Kind::RRw),
    Some(Kind::WR),
    Some(Kind::WW),
    Some(Kind::WRw),
    Some(Kind::RwR),
    Some(Kind::RwW),
    Some(Kind::RwRw),
    Some(Kind::Tso),
];
