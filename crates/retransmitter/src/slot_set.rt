//! Sets of slots.

ghost use Rattle.std.specs.Prelude.{◌≡◌, ◌<◌, ◌/◌, ◌%◌, ℕ, slice_index, slice_set, true};
ghost use Rattle.retransmitter.specs.SlotSets.{IsLeast, has, with_bit};

/// A set of the slots below 256, with one bit for each.
#[derive(Clone, Copy, Debug)]
pub(crate) struct SlotSet {
    words: [u64; 4],
}

fn with_bit(word: u64, bit: u16, there: bool) -> u64
    requires { bit < 64 }
    ensures { result ≡ with_bit word bit there }
{
    if there {
        word | (1 << bit)
    } else {
        word & !(1 << bit)
    }
}

impl SlotSet {
    /// The set of all slots.
    pub(crate) fn all() -> SlotSet
        ensures { (slot : ℕ) → slot < 256 → has result.words slot ≡ true }
    {
        SlotSet {
            words: [u64::MAX; 4],
        }
    }

    /// The least slot that is in the set.
    pub(crate) fn least(&self) -> Option<u16>
        ensures { IsLeast self.now.words result }
    {
        for word in 0..4 {
            let bits = self.words[word];
            if bits != 0 {
                return Some(word as u16 * 64 + bits.trailing_zeros() as u16);
            }
        }
        None
    }

    /// Puts a slot in, or takes it out.
    pub(crate) fn set(&mut self, slot: u16, there: bool)
        requires { slot < 256 }
        ensures { self.new.words ≡ slice_set self.old.words (slot / 64) (with_bit (slice_index self.old.words (slot / 64)) (slot % 64) there) }
    {
        let at = (slot / 64) as usize;
        self.words[at] = with_bit(self.words[at], slot % 64, there);
    }
}
