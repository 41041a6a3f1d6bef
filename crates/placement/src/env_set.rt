//! A set of environments as four words. Each call takes constant time and no memory.

ghost use Rattle.std.specs.Prelude.{◌≡◌, ◌≢◌, ℕ, ◌-◌, ◌<◌, ◌≤◌, false, length, IfSome, IfNone};
ghost use Rattle.std.specs.Int.{bit_at};
ghost use Rattle.arn_ids.specs.Limits.{most_environments};
ghost use Rattle.placement.specs.Sets.{digit, has_at, IsLowest};

use arn_ids::EnvNo;

/// A bit for each of the `MOST_ENVIRONMENTS` environments that an account can have.
const WORDS: usize = 4;

/// A set of environments: that with number 1 is the lowest bit of the first word.
#[derive(Clone, Copy)]
pub(crate) struct EnvSet {
    words: [u64; WORDS],
}

impl EnvSet {
    /// Returns the empty set.
    pub(crate) fn empty() -> EnvSet
        ensures whole { length result.words ≡ 4 }
        ensures none { (i : ℕ) → i < most_environments → has_at result i ≡ false }
    {
        EnvSet { words: [0; WORDS] }
    }

    /// Adds an environment to the set, or removes it.
    pub(crate) fn put(&mut self, env: EnvNo, is_in: bool)
        requires whole { length self.old.words ≡ 4 }
        requires from_one { 1 ≤ env }
        requires within { env ≤ most_environments }
        ensures whole { length self.new.words ≡ 4 }
        ensures here { has_at self.new (env - 1) ≡ is_in }
        ensures others { (i : ℕ) → i < most_environments → i ≢ env - 1 → has_at self.new i ≡ has_at self.old i }
    {
        let index = env as usize - 1;
        self.words[index / 64] = with_bit(self.words[index / 64], index % 64, is_in);
    }

    /// Returns the lowest numbered environment of the set.
    pub(crate) fn lowest(&self) -> Option<EnvNo>
        requires whole { length self.now.words ≡ 4 }
        ensures some { IfSome result (IsLowest self.now) }
        ensures none { IfNone result ((i : ℕ) → i < most_environments → has_at self.now i ≡ false) }
    {
        for index in 0..WORDS {
            let word = self.words[index];
            if word != 0 {
                return Some(index as EnvNo * 64 + word.trailing_zeros() + 1);
            }
        }
        None
    }
}

/// Returns a word with one bit set or cleared.
fn with_bit(word: u64, bit: usize, is_set: bool) -> u64
    requires { bit < 64 }
    ensures here { bit_at result bit ≡ digit is_set }
    ensures others { (i : ℕ) → i < 64 → i ≢ bit → bit_at result i ≡ bit_at word i }
{
    if is_set {
        word | 1 << bit
    } else {
        word & !(1 << bit)
    }
}
