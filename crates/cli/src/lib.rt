//! What a program of this repository needs once: the words of its call and what they ask for, how it ends and what it says then, its
//! inputs in order, key files, progress, and names and the words of an error for standard error.
#![tactic(auto)]

pub mod arguments;
pub mod call;
pub mod folder;
pub mod frame;
pub mod help;
pub mod inputs;
pub mod keys;
pub mod numbers;
pub mod opened;
pub mod outcome;
pub mod program;
pub mod progress;
pub mod quoted;
pub mod reason;
