// A lane's words: the slots, the registers, stored and never stored, enabled.

// The proofs here look into these definitions.
#![tactic(auto, unfolding(crate::specs::Words::fixed_word, crate::specs::Words::pick, crate::specs::Words::reg))]

ghost use Rattle.std.specs.Prelude.{◌≡◌, ℕ, ◌+◌, ◌-◌, ◌*◌, ◌^◌, ◌<◌, nat_lt};
ghost use Rattle.lane.specs.Words as Words;

// The slots after the registers; of the templates and of the sequences, the first.
pub const LANE_CONFIG: usize = 12;

pub const LANE_FLAG: usize = 13;

pub const USE_FLAG: usize = 14;

pub const TEMPLATE: usize = 15;

pub const SEQUENCE: usize = 19;

pub const MISC: usize = 23;

// One word or the other, by a test.
pub fn keep(test: bool, new: u32, old: u32) -> u32
    ensures { result ≡ Words.pick test new old }
{
    if test { new } else { old }
}

// Whether bit k of a word is set, bit 0 the lowest.
pub(crate) fn is_set(word: u32, k: u32) -> bool
    requires { k < 32 }
    ensures { result ≡ Words.bit word k }
{
    (word >> k) % 2 == 1
}

// Whether a lane is enabled, by its two flags.
pub fn enabled(use_flag: u32, lane_flag: u32) -> bool
    ensures { result ≡ Words.enabled_by use_flag lane_flag }
{
    (use_flag == 0) | (lane_flag == 1)
}

// Whether a lane of 24 words is enabled.
pub(crate) fn is_enabled(own: &[u32; 24]) -> bool
    ensures { result ≡ Words.enabled (Words.lane_of own.now) }
{
    enabled(own[USE_FLAG], own[LANE_FLAG])
}

// A number whose highest bit is `sign`, extended by that bit to a word: an exclusive or and a difference, so that a loop over lanes has no test for it.
pub(crate) fn extended(x: u32, sign: u32) -> u32
    ensures { (k : ℕ) → k < 31 → sign ≡ 2 ^ k → x < 2 * sign → result ≡ Words.pick (nat_lt x sign) x (x + (2 ^ 32 - 2 * sign)) }
{
    (x ^ sign).wrapping_sub(sign)
}

// A register that is never stored: 8, 9, 10 and 15.
pub fn fixed_word(r: u32, lane: u8) -> u32
    ensures { result ≡ Words.fixed_word r lane }
{
    match r {
        8 => 0x3F56594B,
        9 => 0,
        10 => 0x3F800000,
        _ => 2 * (lane as u32),
    }
}

// The word of register `r`.
pub(crate) fn register(own: &[u32; 24], lane: u8, r: u32) -> u32
    ensures { result ≡ Words.reg lane (Words.lane_of own.now) r }
{
    match r {
        0..=7 => own[r as usize],
        11..=14 => own[(r - 3) as usize],
        _ => fixed_word(r, lane),
    }
}
