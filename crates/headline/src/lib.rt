//! The headline as one statement (`specs/Headline.antt`): what holds of an account's history whenever no
//! step is in progress; and the calls that state it of the history of a book, a desk or an account.
#![tactic(auto)]

pub mod laws;
mod readers;

pub use readers::{of_account, of_book, of_desk, settle};
