use std::collections::LinkedList;

// What the rule knows of one pass or note. No value of it is made: it stands in proofs alone.
pub struct View<E> {
    // It drew a ticket and hasn't given its turn back.
    pub waits: bool,
    // Which ticket, where it did, counted without end.
    pub ticket: u64,
    // It has the turn.
    pub holds: bool,
    pub front: LinkedList<E>,
    // How many authors it may still make.
    pub room: u64,
    // The authors that it stands for.
    pub numbers: LinkedList<u64>,
    // The places of the entries that these wrote.
    pub calls: LinkedList<u64>,
    // The shorter of the two fronts that it met last.
    pub met: LinkedList<E>,
}
