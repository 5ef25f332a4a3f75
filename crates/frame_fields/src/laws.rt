//! What is read was spelt so, and what is spelt reads back.

ghost use Rattle.std.specs.Prelude.{◌≡◌, ◌≤◌, ◌^◌, ℕ, Option, None, length, flat_map};
ghost use Rattle.std.specs.Int.{to_be_bytes, w64};
ghost use Rattle.jp_types.specs.Limits.{IsKey, IsValue, IsCommand, IsRequest};
ghost use Rattle.frame_fields.specs.Reading.{counter, key, value, optional, command, reply, request, times, in_batch, batch_limit};
ghost use Rattle.frame_fields.specs.Spelling.{sized_bytes, optional_bytes, command_bytes, reply_bytes, request_bytes};
ghost use Rattle.frame_fields.specs.Laws.{IsReadAsSpelt, FitsIfThere, AllFit, IsReply};

/// Views, instances, marks and epochs.
pub fn counters_are_read_as_spelt()
    ensures { (batch : Option ℕ) → IsReadAsSpelt batch counter (to_be_bytes w64) (λ n. n ≤ 2 ^ 48) }
{}

/// Keys and values, and values that may be missing.
pub fn keys_and_values_are_read_as_spelt()
    ensures key { (batch : Option ℕ) → IsReadAsSpelt batch key sized_bytes IsKey }
    ensures value { (batch : Option ℕ) → IsReadAsSpelt batch value sized_bytes IsValue }
    ensures optional { (batch : Option ℕ) → IsReadAsSpelt batch (optional value) (optional_bytes sized_bytes) (FitsIfThere IsValue) }
{}

/// Commands.
pub fn commands_are_read_as_spelt()
    ensures { (batch : Option ℕ) → IsReadAsSpelt batch command command_bytes IsCommand }
{}

/// Replies.
pub fn replies_are_read_as_spelt()
    ensures { (batch : Option ℕ) → IsReadAsSpelt batch reply reply_bytes IsReply }
{}

/// A request, so many requests, and so many requests in a batch of their own, which has room for them.
pub fn requests_are_read_as_spelt()
    ensures one { (batch : Option ℕ) → IsReadAsSpelt batch request request_bytes IsRequest }
    ensures many { (batch : Option ℕ) (count : ℕ) → IsReadAsSpelt batch (times count request) (flat_map request_bytes) (λ rs. AllFit IsRequest rs × (length rs ≡ count)) }
    ensures batch { (count : ℕ) → IsReadAsSpelt None (in_batch (times count request)) (flat_map request_bytes) (λ rs. (AllFit IsRequest rs × (length rs ≡ count)) × (length (flat_map request_bytes rs) ≤ batch_limit)) }
{}
