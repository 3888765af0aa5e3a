//! The book: the configuration with its journal, and undo.
//!
//! A `Book` makes the edits that the configuration admits, enters each in its journal, and takes back a session's
//! newest standing entry. Its definitions stand in `specs/`: what an edit and an undo leave and why they are refused
//! in `Steps.antt`, what a book always keeps in `Soundness.antt`. Which entries stand and what conflicts is the
//! journal's to say.
#![tactic(auto)]

pub mod book;
pub mod laws;
mod redo;
mod settling;
mod undo_all;
