use crate::answered::Answered;
use work_pool::ClaimSeat;

/// A pass and a seat that a worker is done with, and its answers, in the order in which it gave them. There are none
/// where no memory was left to keep one of them.
#[derive(Drop)]
pub struct Finished<P, T> {
    pub pass: P,
    pub seat: ClaimSeat,
    pub answers: Option<Vec<Answered<T>>>,
}
