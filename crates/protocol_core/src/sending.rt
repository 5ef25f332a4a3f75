//! Sends to all other replicas.

ghost use Rattle.std.specs.Prelude.{◌≡◌, ◌++◌, OnOk};
ghost use Rattle.protocol_core.specs.Sending.{to_all, armed_for_all};

use crate::act::{Act, Topic};
use crate::config::Config;
use jp_types::listed::Listed;
use jp_types::memory::{Duplicate, NoMemory};
use jp_types::message::Message;
use retransmitter::outgoing::Outgoing;

/// Sends to every other replica, in ascending order.
pub fn send_to_all(
    config: &Config,
    message: &Message,
    acts: &mut Listed<Act>,
) -> Result<(), NoMemory>
    ensures { OnOk result (acts.new ≡ acts.old ++ to_all config.now.n config.now.me message.now) }
{
    for to in 0..config.n {
        if to != config.me {
            acts.push(Act::Send {
                to,
                message: message.copy()?,
            })?;
        }
    }
    Ok(())
}

/// Repeats a message to every other replica from now on.
pub fn arm_for_all(
    config: &Config,
    topic: Topic,
    message: Message,
    acts: &mut Listed<Act>,
) -> Result<(), NoMemory>
    ensures { OnOk result (acts.new ≡ acts.old ++ armed_for_all config.now.n config.now.me topic message) }
{
    let outgoing = Outgoing {
        to: config.others(),
        message,
    };
    acts.push(Act::Arm { topic, outgoing })
}

/// Sends to every other replica, and repeats the message to them until it is cancelled.
pub fn send_and_arm(
    config: &Config,
    topic: Topic,
    message: Message,
    acts: &mut Listed<Act>,
) -> Result<(), NoMemory>
    ensures { OnOk result (acts.new ≡ acts.old ++ (to_all config.now.n config.now.me message ++ armed_for_all config.now.n config.now.me topic message)) }
{
    send_to_all(config, &message, acts)?;
    arm_for_all(config, topic, message, acts)
}
