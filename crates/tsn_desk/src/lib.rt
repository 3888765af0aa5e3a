//! The desk: many threads share one machine, and all their calls have one order.
//!
//! A `Desk` keeps a `Machine` behind a lock of tickets. Whoever has a `Seat` of it makes calls: a call draws a ticket,
//! waits until the turns before it have ended, steps the machine alone, and ends its turn. All calls are one history,
//! and it is legal: each reply is one that the machine gives at that place. A seat tells, to contracts, the beginning
//! of the history that it has seen, and the calls that it made itself.
//!
//! What a history is stands in `specs/History.antt`, what the calls of a desk promise in `specs/Desks.antt`, and the
//! rule that holds between any two atomic steps in `specs/Rule.antt`. The steps are those of `atomic_table`, so the
//! code here is safe. Who waits, sleeps and is woken stands in `src/waiting.rt`: it decides when a thread goes on, and
//! never what it finds. That a turn ever comes, and in fair order, is no promise: a contract holds of what returns.
#![tactic(auto)]

mod board;
mod dealing;
pub mod desk;
pub mod history;
pub mod machine;
mod meeting;
mod plays;
mod turning;
mod waiting;
