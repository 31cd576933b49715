//! The shared board: one atomic word for each job and revision, and seats that look and move them
//! without a lock, each as its role allows. Start with `opened`.
#![tactic(auto)]

pub mod cases;
mod held;
mod limit;
mod naming;
mod opened;
mod rule;
mod seat;
mod shared;
#[cfg(test)]
mod tests;

pub use held::Held;
pub use limit::{ALL_PARTS, JOB_LIMIT};
pub use naming::Naming;
pub use opened::OpenedBoard;
pub use rule::{FinalMove, Role, SeatView};
pub use seat::BoardSeat;
pub use shared::SharedBoard;
