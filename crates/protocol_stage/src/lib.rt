//! The Protocol stage of a replica: a life over a disk, and over what repeats its messages. What it does is the turn of the
//! model.
#![tactic(auto)]

#[cfg(test)]
mod drawn_items;
pub mod performing;
pub mod protocol;
pub mod storing;
pub mod tokens;
