//! Retention grids, as `1x1h(keep=all) | 24x1h`.

ghost use Rattle.std.specs.Prelude.{◌≡◌, ◌↔◌, if◌then◌else◌, IsTrue, Some, None};
ghost use Rattle.zr_grid.specs.Scan.{GivesForms};
ghost use Rattle.zr_grid.specs.Build.{is_big_form, interval_from, Builds, IsLeft, fault_of};
ghost use Rattle.zr_grid.specs.Grid.{ReadsGrid, IsInterval, IsGrid, KeepsAtMost};

use crate::form::{Form, KeepForm, interval_form};
use crate::scan::Stop;
use crate::span::MAX_SPAN;
use std::alloc::{AllocError, AllocFailed, Global};
use std::marker::Model;

/// How many intervals a grid may have in all.
pub const MAX_INTERVALS: u64 = 100_000;

/// How many snapshots an interval may keep at most, where it does not keep all.
pub const MAX_KEEP: u64 = 4_294_967_295;

/// What an interval keeps of the snapshots in it.
#[derive(Clone, Copy, PartialEq, Eq)]
pub enum Keep {
    All,
    /// The oldest ones, at most so many.
    Most(u32),
}

/// Intervals of one width that lie one after the other, as `24x1h`.
#[derive(Clone, Copy, PartialEq, Eq)]
pub struct Interval {
    pub count: u32,
    /// In seconds.
    pub width: u64,
    pub keep: Keep,
}

/// The intervals of a grid, in the order of age.
#[derive(Drop)]
pub struct Intervals {
    items: Vec<Interval>,
}

impl Model for Intervals {
    ghost use Rattle.std.specs.Prelude.{List};
    ghost use Rattle.zr_grid.specs.declared.grid.Interval.{Interval as IntervalValue};

    ghost Value = { List IntervalValue };

    ghost view = { λ intervals. intervals.items.items };
}

impl Intervals {
    ghost use Rattle.std.specs.Prelude.{◌≡◌, IfOk};

    pub fn from_vec(items: Vec<Interval>) -> Self
        ensures { result ≡ items.items }
    {
        Intervals { items }
    }

    pub fn into_vec(self) -> Vec<Interval>
        ensures { result.items ≡ self }
    {
        let Intervals { items } = self;
        items
    }

    pub fn as_slice(&self) -> &[Interval]
        ensures { result.now ≡ self.now }
    {
        self.items.as_slice()
    }
}

impl Clone for Intervals {
    ghost use Rattle.std.specs.Prelude.{◌≡◌};

    ghost is_clone = { λ intervals copy. copy ≡ intervals };

    fn clone(&self) -> Result<Self, AllocError> {
        Ok(Intervals {
            items: self.items.clone()?,
        })
    }
}

/// A retention grid (zrepl's prune policy `grid`).
#[derive(Clone, Drop)]
pub struct GridSpec {
    pub intervals: Intervals,
}

/// Why a text is no grid.
#[derive(Clone, Copy, PartialEq, Eq)]
pub enum GridFault {
    /// The text leaves the grammar. The number is the length of its longest front that begins a grid.
    BadGrid(usize),
    /// It is a grid, but it has more than 100,000 intervals, one longer than the longest span, or one that keeps more than 4,294,967,295.
    GridTooBig,
    NoMemory,
}

/// Why the intervals of a text were not read.
#[derive(Clone, Copy)]
enum Unread {
    Stopped(Stop),
    NoMemory,
}

impl<T: Drop> From<AllocFailed<T>> for Unread {
    ghost use Rattle.zr_grid.specs.declared.grid.Unread.TheVariants.{NoMemory as Wanting};

    ghost from_gives = { λ _ e. e ≡ Wanting };

    fn from(_failed: AllocFailed<T>) -> Unread {
        Unread::NoMemory
    }
}

fn forms(alloc: Global, text: &[u8]) -> Result<Vec<Form>, Unread>
    ensures { GivesForms (λ v. v.items) text.now result }
{
    let mut forms = Vec::new(alloc);
    let mut rest = text;
    'intervals: loop {
        let (form, after) = match interval_form(rest) {
            Ok(read) => read,
            Err(stop) => return Err(Unread::Stopped(stop)),
        };
        forms.push(form)?;
        let [bar, more @ ..] = after else {
            return Ok(forms);
        };
        if *bar != b'|' {
            return Err(Unread::Stopped(Stop { left: after.len() }));
        }
        rest = more;
    }
}

impl<T: Drop> From<AllocFailed<T>> for GridFault {
    ghost use Rattle.zr_grid.specs.declared.grid.GridFault.TheVariants.{NoMemory as Wanting};

    ghost from_gives = { λ _ e. e ≡ Wanting };

    fn from(_failed: AllocFailed<T>) -> GridFault {
        GridFault::NoMemory
    }
}

/// The interval, where no number of it is above its limit.
fn within_limits(form: &Form) -> Option<Interval>
    ensures { result ≡ (if is_big_form form.now then None else Some (interval_from form.now)) }
{
    if form.count > MAX_INTERVALS || form.width > MAX_SPAN {
        return None;
    }
    let keep = match form.keep {
        KeepForm::All => Keep::All,
        KeepForm::Most(most) if most <= MAX_KEEP => Keep::Most(most as u32),
        KeepForm::Most(_) => return None,
    };
    Some(Interval {
        count: form.count as u32,
        width: form.width,
        keep,
    })
}

fn build(alloc: Global, forms: &[Form]) -> Result<Vec<Interval>, GridFault>
    ensures { Builds (λ v. v.items) forms.now result }
{
    let mut intervals = Vec::new(alloc);
    let mut total: u64 = 0;
    for form in forms {
        let Some(interval) = within_limits(form) else {
            return Err(GridFault::GridTooBig);
        };
        total += form.count;
        if total > MAX_INTERVALS {
            return Err(GridFault::GridTooBig);
        }
        intervals.push(interval)?;
    }
    Ok(intervals)
}

fn fault_of(text: &[u8], unread: Unread) -> GridFault
    requires { IsLeft text.now unread }
    ensures { result ≡ fault_of text.now unread }
{
    match unread {
        Unread::Stopped(stop) => GridFault::BadGrid(text.len() - stop.left),
        Unread::NoMemory => GridFault::NoMemory,
    }
}

/// The grid that a text spells (the grammar of zrepl's `grid` rule).
pub fn read_grid(alloc: Global, text: &[u8]) -> Result<GridSpec, GridFault>
    ensures { ReadsGrid text.now result }
{
    let forms = match forms(alloc, text) {
        Ok(forms) => forms,
        Err(unread) => return Err(fault_of(text, unread)),
    };
    let intervals = Intervals::from_vec(build(alloc, forms.as_slice())?);
    Ok(GridSpec { intervals })
}

fn is_within_keep(keep: Keep) -> bool
    ensures { IsTrue result ↔ KeepsAtMost MAX_KEEP keep }
{
    match keep {
        Keep::All => true,
        Keep::Most(most) => u64::from(most) <= MAX_KEEP,
    }
}

fn is_interval(interval: &Interval) -> bool
    ensures { IsTrue result ↔ IsInterval interval.now }
{
    if interval.count == 0 || interval.width == 0 || interval.width > MAX_SPAN {
        return false;
    }
    is_within_keep(interval.keep)
}

/// Whether `read_grid` can give this grid.
pub fn is_grid(spec: &GridSpec) -> bool
    ensures { IsTrue result ↔ IsGrid spec.now.intervals }
{
    let intervals = spec.intervals.as_slice();
    let mut total: u64 = 0;
    for interval in intervals {
        if !is_interval(interval) {
            return false;
        }
        total += u64::from(interval.count);
        if total > MAX_INTERVALS {
            return false;
        }
    }
    !intervals.is_empty()
}
