//! What the runs of a hart do at one name: rows of those that load or store this or that there.

use crate::rows::{Group, Row};
use fs_model::{Location, Test};

/// The number of no location.
pub(crate) const NOWHERE: u8 = 255;

/// The runs that access the location there.
#[derive(Drop)]
pub struct Place {
    pub location: u8,
    pub row: Row,
}

/// How the runs of a hart load at a name, or how they store there.
#[derive(Drop)]
pub struct Access {
    /// The runs that do.
    pub any: Row,
    /// By location and word.
    pub classes: Vec<Group>,
    /// By location.
    pub places: Vec<Place>,
}

/// The runs in which a load has the address and the word of an earlier store of the hart.
#[derive(Drop)]
pub struct Own {
    pub store: u8,
    pub row: Row,
}

/// What kind of choice an instruction takes.
#[derive(Clone, Copy, PartialEq, Eq)]
pub enum Takes {
    Nothing,
    /// A word, of a load.
    Word,
    /// Whether it succeeds, of an sc.w.
    Success,
}

/// What the runs of a hart do at a name.
#[derive(Drop)]
pub struct Doing {
    pub takes: Takes,
    pub loads: Access,
    pub stores: Access,
    /// By what they choose, as `Lone::chosen_at` numbers it.
    pub choices: Vec<Group>,
    /// The runs that load the word which the location begins with.
    pub initial: Row,
    /// Filled in when the hart's names are all there.
    pub own: Vec<Own>,
}

/// The number of the location of this address.
pub fn location_of(address: u32) -> u8 {
    match Location::at(address) {
        Some(location) => u8::try_from(location).unwrap_or(NOWHERE),
        None => NOWHERE,
    }
}

/// One number for a location and a word.
pub fn class_key(location: u8, word: u32) -> u64 {
    u64::from(location).wrapping_shl(32) | u64::from(word)
}

/// The location of such a number.
pub fn location_in(key: u64) -> u8 {
    (key.wrapping_shr(32) & 0xff) as u8
}

/// The word of such a number.
pub fn word_in(key: u64) -> u32 {
    (key & 0xffff_ffff) as u32
}

/// The word that the location begins with.
pub fn initial_word(test: &Test, location: u8) -> Option<u32> {
    let locations = test.locations.as_slice();
    let place = usize::from(location);
    if place < locations.len() {
        Some(locations[place].word)
    } else {
        None
    }
}

/// The class of this number.
pub fn class_of(classes: &[Group], key: u64) -> Option<&Group> {
    let place = classes.partition_point(|class| class.key < key);
    if place < classes.len() && classes[place].key == key {
        Some(&classes[place])
    } else {
        None
    }
}
