//! What the seats of a board know. No value of these types is made, but of `Terms`.
use std::snapshot::Snapshot;

/// The move in whose middle a party is, with the number of the party at the other end.
pub enum Moving {
    Still,
    /// It puts a mail for this party.
    Filling(u64),
    /// It takes the mail of this party.
    Emptying(u64),
}

/// What a party has done. A clause reads an array as a list, of any length.
pub struct Account<O> {
    pub occasion: O,
    /// How many parties the board has.
    pub parties: u64,
    /// The party's number, counted from 0.
    pub number: u64,
    /// How often it has arrived. It puts the mails of the period after, and takes those of this one.
    pub arrivals: u64,
    /// The periods at whose end it knows that all have arrived.
    pub known: u64,
    /// How often it has looked.
    pub looks: u64,
    /// The word that its last look read.
    pub seen: u64,
    /// For each party the last period whose mail is laid for it.
    pub laid: [u64; 0],
    /// For each party the last period whose mail is taken from it.
    pub taken: [u64; 0],
    pub moving: Moving,
}

/// What a seat knows: the maker's, the occasion, the number of parties, and the first party that has no seat yet.
pub enum View<O> {
    Maker(O, u64, u64),
    Party(Account<O>),
}

/// What a board is told once, when it is made.
#[derive(Drop)]
pub struct Terms<O> {
    pub parties: u32,
    pub occasion: Snapshot<O>,
}
