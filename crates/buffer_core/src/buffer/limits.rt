//! Limits of length and steps, and ligature numbers (rustybuzz: hb/buffer.rs, `enter`, `leave`, `allocate_lig_id`).
ghost use Rattle.std.specs.Prelude.{◌≡◌, ◌≤◌, ◌+◌, length, false};
ghost use Rattle.buffer_core.specs.Sides.{with_max_len};
ghost use Rattle.buffer_core.specs.Settings.{after_enter, after_leave, length_limit, next_lig_id, steps_limit, with_lig_id, with_max_ops};

use super::hb_buffer_t;
use buffer_common::constants::HB_BUFFER_SCRATCH_FLAG_DEFAULT;

impl hb_buffer_t {
    /// How many glyphs a list may have.
    pub fn max_len(&self) -> usize
        ensures { result ≡ self.now.max_len }
    {
        self.max_len
    }

    /// Sets how many glyphs a list may have: at least as many as the input and the output have.
    pub fn set_max_len(&mut self, max_len: usize)
        requires input { self.old.read + length self.old.ahead ≤ max_len }
        requires output { length self.old.behind ≤ max_len }
        ensures { self.new ≡ with_max_len max_len self.old }
    {
        self.max_len = max_len;
    }

    /// How many steps may still be taken; a step is a nested lookup.
    pub fn max_ops(&self) -> i32
        ensures { result ≡ self.now.max_ops }
    {
        self.max_ops
    }

    /// Sets how many steps may still be taken.
    pub fn set_max_ops(&mut self, max_ops: i32)
        ensures { self.new ≡ with_max_ops max_ops self.old }
    {
        self.max_ops = max_ops;
    }

    /// Gives out a number for a ligature and the marks attached to it: 1 to 7, the next after the last one given, and
    /// then 1 again.
    pub fn allocate_lig_id(&mut self) -> u8
        ensures given { result ≡ next_lig_id self.old.lig_id }
        ensures kept { self.new ≡ with_lig_id result self.old }
        ensures from { 1 ≤ result }
        ensures to { result ≤ 7 }
    {
        self.lig_id = next_lig_id(self.lig_id);
        self.lig_id
    }

    /// Sets the limits of shaping by the number of glyphs, and resets ligature numbers and scratch flags.
    pub fn enter(&mut self)
        requires { self.old.is_open ≡ false }
        ensures { self.new ≡ after_enter self.old }
    {
        let count = self.info.len();
        self.max_len = length_limit(count, self.max_len);
        self.max_ops = steps_limit(count, self.max_ops);
        self.lig_id = 0;
        self.scratch_flags = HB_BUFFER_SCRATCH_FLAG_DEFAULT;
    }

    /// Resets the limits to the defaults; the limit of the length is never less than the number of glyphs.
    pub fn leave(&mut self)
        requires { self.old.is_open ≡ false }
        ensures { self.new ≡ after_leave self.old }
    {
        self.max_len = Self::MAX_LEN_DEFAULT.max(self.info.len());
        self.max_ops = Self::MAX_OPS_DEFAULT;
        self.lig_id = 0;
    }
}

fn next_lig_id(last: u8) -> u8
    ensures next { result ≡ next_lig_id last }
    ensures from { 1 ≤ result }
    ensures to { result ≤ 7 }
{
    if last < 7 { last + 1 } else { 1 }
}

fn length_limit(count: usize, limit: usize) -> usize
    ensures { result ≡ length_limit count limit }
{
    match count.checked_mul(hb_buffer_t::MAX_LEN_FACTOR) {
        Some(most) => most.max(hb_buffer_t::MAX_LEN_MIN),
        None => limit,
    }
}

fn steps_limit(count: usize, limit: i32) -> i32
    ensures { result ≡ steps_limit count limit }
{
    let most = i32::try_from(count)
        .ok()
        .and_then(|count| count.checked_mul(hb_buffer_t::MAX_OPS_FACTOR));
    match most {
        Some(most) => most.max(hb_buffer_t::MAX_OPS_MIN),
        None => limit,
    }
}
