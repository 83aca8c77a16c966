//! How often each caller was answered, by its number. A caller that isn't counted yet made no call.

ghost use Rattle.std.specs.Prelude.{◌≡◌, ◌≢◌, ◌+◌, ◌^◌, ◌<◌, ◌≤◌, ℕ, length, slice_index_or, OnOk};

use std::alloc::AllocError;

/// The next call number of a caller.
pub fn next_call(counts: &[u64], caller: u32) -> u64
    ensures { result ≡ slice_index_or counts.now caller 0 }
{
    counts.get(caller as usize).copied().unwrap_or(0)
}

/// Makes a place for a caller's count.
pub fn make_place(counts: &mut Vec<u64>, caller: u32) -> Result<(), AllocError>
    ensures there { OnOk result (caller < length counts.new.items) }
    ensures more { length counts.old.items ≤ length counts.new.items }
    ensures same { (who : ℕ) → slice_index_or counts.new.items who 0 ≡ slice_index_or counts.old.items who 0 }
{
    let places = caller as usize + 1;
    if counts.len() < places {
        counts.resize(places, 0)?;
    }
    Ok(())
}

/// Counts one more call of a caller, for whose count there is a place.
pub fn count_call(counts: &mut Vec<u64>, caller: u32)
    requires there { caller < length counts.old.items }
    requires few { slice_index_or counts.old.items caller 0 < 2 ^ 63 }
    ensures one { slice_index_or counts.new.items caller 0 ≡ slice_index_or counts.old.items caller 0 + 1 }
    ensures places { length counts.new.items ≡ length counts.old.items }
    ensures others { (who : ℕ) → who ≢ caller →
        slice_index_or counts.new.items who 0 ≡ slice_index_or counts.old.items who 0 }
{
    counts[caller as usize] += 1;
}
