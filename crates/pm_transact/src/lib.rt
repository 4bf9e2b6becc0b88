//! Transactions: what a client answered for the targets of a rule is added to an object whole, or not at all. It
//! knows nothing of clients, rounds and sessions.
#![tactic(auto)]

mod transaction;

pub use transaction::Transaction;
