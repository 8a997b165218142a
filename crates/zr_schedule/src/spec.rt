//! Cron specs.

ghost use Rattle.std.specs.Prelude.{◌≡◌, ◌<◌, ◌≤◌, ◌&&◌, ◌||◌, ◌==◌, nat_lt, ℕ, false};
ghost use Rattle.zr_schedule.specs.Schedule.{has, joined_days, day_fields_match};

/// The minutes at which something is to be done, in UTC: five sets of numbers, in each of which bit n stands for n.
#[derive(Clone, Copy, PartialEq, Eq)]
pub struct CronSpec {
    /// 0 to 59.
    pub minutes: u64,
    /// 0 to 23.
    pub hours: u64,
    /// Days of the month, 1 to 31.
    pub days: u64,
    /// 1 to 12.
    pub months: u64,
    /// Days of the week, 0 for Sunday to 6 for Saturday.
    pub weekdays: u64,
}

/// Whether bit `value` of the set is one.
pub fn has(set: u64, value: u64) -> bool
    requires { value < 64 }
    ensures { result ≡ has set value }
{
    (set >> value) & 1 == 1
}

/// The set with one value more.
pub fn with(set: u64, value: u64) -> u64
    requires { value < 64 }
    ensures { (n : ℕ) → has result n ≡ (has set n || (n == value)) }
{
    set | 1 << value
}

/// The values of both sets.
#[tactic(auto, using(crate::proofs::Sets::has_or))]
pub fn union(set: u64, other: u64) -> u64
    ensures { (n : ℕ) → has result n ≡ (has set n || has other n) }
{
    set | other
}

/// Whether the set has some value from `low` to `high`.
fn has_some(set: u64, low: u64, high: u64) -> bool
    requires order { low ≤ high }
    requires bits { high < 63 }
    ensures { result ≡ false → (n : ℕ) → low ≤ n → n ≤ high → has set n ≡ false }
{
    set & ((1 << (high + 1)) - (1 << low)) != 0
}

/// Bits 1 to 31.
const ALL_DAYS: u64 = (1 << 32) - 2;
/// Bits 0 to 6.
const ALL_WEEKDAYS: u64 = (1 << 7) - 1;

/// The values below 7.
#[tactic(auto, using(crate::proofs::Sets::has_below_seven))]
fn below_seven(set: u64) -> u64
    ensures { (n : ℕ) → has result n ≡ (nat_lt n 7 && has set n) }
{
    set & ALL_WEEKDAYS
}

/// A set of weekdays, with 0 in the place of 7.
pub fn seven_as_zero(set: u64) -> u64
    ensures { (n : ℕ) → has result n ≡ ((nat_lt n 7 && has set n) || ((n == 0) && has set 7)) }
{
    let rest = below_seven(set);
    if has(set, 7) { with(rest, 0) } else { rest }
}

/// Whether a day matches, by whether each of its day fields does: where both are restricted, either is enough.
fn joined(spec: &CronSpec, on_day: bool, on_weekday: bool) -> bool
    ensures { result ≡ joined_days spec.now on_day on_weekday }
{
    if spec.days != ALL_DAYS && spec.weekdays != ALL_WEEKDAYS {
        on_day || on_weekday
    } else {
        on_day && on_weekday
    }
}

/// Whether a day matches, where its month does.
pub fn day_fields_match(spec: &CronSpec, day: u64, weekday: u64) -> bool
    requires day { day < 64 }
    requires weekday { weekday < 64 }
    ensures { result ≡ day_fields_match spec.now day weekday }
{
    joined(spec, has(spec.days, day), has(spec.weekdays, weekday))
}

/// Whether the day fields may match some day of a month of that length.
pub fn may_match(spec: &CronSpec, length: u64) -> bool
    requires some { 0 < length }
    requires few { length ≤ 31 }
    ensures { result ≡ false → (day weekday : ℕ) → 1 ≤ day → day ≤ length → weekday ≤ 6
        → day_fields_match spec.now day weekday ≡ false }
{
    joined(
        spec,
        has_some(spec.days, 1, length),
        has_some(spec.weekdays, 0, 6),
    )
}
