//! The faults of a viewshed, which `relief` reports as 41 to 45, and of its jobs.
use tile_jobs::JobFault;

/// Why a viewshed is refused.
#[derive(Clone, Copy, Debug, PartialEq, Eq)]
pub enum SightFault {
    /// The observer at this index of the list is outside the grid.
    Outside(u32),
    /// The observer at this index of the list is on a NODATA cell.
    OnNodata(u32),
    /// There are more than 1,024 observers.
    TooManyObservers,
    /// An eye or the target height is above 1,000,000 units.
    /// `Some` has the observer's index; `None` means the target height.
    BadEye(Option<u32>),
    /// The radius is 0 or above 8,192 cells.
    BadRadius,
    /// Memory or a thread was refused, or the number of workers is out of range.
    Jobs(JobFault),
}

impl From<JobFault> for SightFault {
    ghost use Rattle.std.specs.Prelude.{◌≡◌};
    ghost use Rattle.sight.specs.declared.fault.SightFault.TheVariants.{Jobs};

    ghost from_gives = { λ fault r. r ≡ Jobs fault };

    fn from(fault: JobFault) -> SightFault {
        SightFault::Jobs(fault)
    }
}
