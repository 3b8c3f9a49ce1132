//! Examples that the documents show: a caller's functions, which prove what follows from what the libraries show, with no lemma of their own.
#![tactic(auto)]

pub mod beside;
pub mod byte_sum;
pub mod generic;
pub mod keys;
pub mod laws;
pub mod maps;
pub mod names;
pub mod pages;
pub mod promises;
pub mod servers;
pub mod theorems;
pub mod uses;
pub mod words;
