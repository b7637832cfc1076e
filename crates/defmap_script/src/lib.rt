//! The script language of the tool: its words and lines parsed, run, and their answers printed.
#![tactic(auto)]

mod build_lines;
mod build_words;
mod building;
mod dump_lines;
mod dump_text;
mod dumping;
mod engine;
mod fault;
mod following;
mod lines;
pub mod print;
pub mod read;
pub mod script;
mod seeing;
mod seeing_lines;
mod words;
