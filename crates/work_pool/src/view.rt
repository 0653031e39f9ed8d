use std::collections::LinkedList;

// What the rule knows of one seat. No value of it is made: it stands in proofs alone.
pub struct View {
    // How many numbers there are to claim.
    pub count: u64,
    // The numbers that it drew, or a seat that was joined into it.
    pub numbers: LinkedList<u64>,
    // Each number below this one was drawn by some seat.
    pub known: u64,
    // How many seats it may still make.
    pub room: u64,
    // How many seats it stands for.
    pub held: u64,
    // How often it drew where no number was left.
    pub past: u64,
}
