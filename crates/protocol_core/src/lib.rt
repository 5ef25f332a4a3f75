//! The turn of a replica's Protocol stage: what a life does with each item, as acts in their order. It does no IO: it
//! tells what to save, to send, to repeat and to hand on.
#![tactic(auto)]

pub mod act;
pub mod answering;
pub mod catching_up;
pub mod config;
pub mod installing;
pub mod item;
pub mod launching;
pub mod leading;
pub mod life;
pub mod messages;
pub mod queue;
pub mod sending;
pub mod settling;
pub mod starting;
pub mod turn;
pub mod voting;
