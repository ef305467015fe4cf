//! [`RunFault`]: why a run was refused or failed.
//! Each fault has a number, a name and an exit status.
ghost use Rattle.std.specs.Prelude.{◌≡◌, ◌≤◌, length, option_map};
ghost use Rattle.relief.specs.FaultLine.{fault_parts, grid_fault_parts, tiling_fault_parts, jobs_fault_parts, sight_fault_parts, sinks_fault_parts, gauges_fault_parts, fault_status, status_of, plain, detailed, slot_text, detail_text};
ghost use Rattle.relief.specs.declared.fault.RunFault.TheVariants.{Tiling, Jobs, Write};
ghost use Rattle.relief.specs.Faults.{of_gauges, of_input, of_sight, of_sinks};

use ascii_grid::{GridFault, InputFault, Key, WriteFailed};
use flow::GaugeFault;
use sight::SightFault;
use std::marker::Model;
use terrain::SinkFault;
use tile_jobs::JobFault;
use tiles::TilingFault;

/// Why a run was refused or failed.
#[derive(Clone, Copy, Debug, PartialEq, Eq)]
pub enum RunFault {
    /// The text is no grid, or memory for its cells was refused.
    Grid(GridFault),
    /// The grid has too many tiles of the requested side. No run returns `BadSide`.
    Tiling(TilingFault),
    /// A thread was refused, or memory other than for the text's cells.
    /// No run returns `BadWorkers`.
    Jobs(JobFault),
    /// The observers, the target height or the radius are refused.
    Sight(SightFault),
    /// The named sinks are refused.
    Sinks(SinkFault),
    /// The gauges are refused.
    Gauges(GaugeFault),
    /// The reader failed.
    Read,
    /// The writer failed.
    Write,
}

impl From<InputFault> for RunFault {
    ghost from_gives = { λ fault reported. reported ≡ of_input fault };

    fn from(fault: InputFault) -> Self {
        match fault {
            InputFault::Grid(fault) => RunFault::Grid(fault),
            InputFault::Read => RunFault::Read,
        }
    }
}

impl From<TilingFault> for RunFault {
    ghost from_gives = { λ fault reported. reported ≡ Tiling fault };

    fn from(fault: TilingFault) -> Self {
        RunFault::Tiling(fault)
    }
}

impl From<JobFault> for RunFault {
    ghost from_gives = { λ fault reported. reported ≡ Jobs fault };

    fn from(fault: JobFault) -> Self {
        RunFault::Jobs(fault)
    }
}

impl From<SightFault> for RunFault {
    ghost from_gives = { λ fault reported. reported ≡ of_sight fault };

    fn from(fault: SightFault) -> Self {
        match fault {
            SightFault::Jobs(fault) => RunFault::Jobs(fault),
            fault => RunFault::Sight(fault),
        }
    }
}

impl From<SinkFault> for RunFault {
    ghost from_gives = { λ fault reported. reported ≡ of_sinks fault };

    fn from(fault: SinkFault) -> Self {
        match fault {
            SinkFault::Memory => RunFault::Jobs(JobFault::Memory),
            fault => RunFault::Sinks(fault),
        }
    }
}

impl From<GaugeFault> for RunFault {
    ghost from_gives = { λ fault reported. reported ≡ of_gauges fault };

    fn from(fault: GaugeFault) -> Self {
        match fault {
            GaugeFault::Jobs(fault) => RunFault::Jobs(fault),
            fault => RunFault::Gauges(fault),
        }
    }
}

impl From<WriteFailed> for RunFault {
    ghost from_gives = { λ _ reported. reported ≡ Write };

    fn from(_: WriteFailed) -> Self {
        RunFault::Write
    }
}

/// The word after the name in the line of a fault: a header slot, an index or a count.
#[derive(Clone, Copy, Debug, PartialEq, Eq)]
pub(crate) enum Detail {
    Slot(Key),
    Count(u32),
}

/// The parts of a fault's line.
#[derive(Drop)]
pub(crate) struct Notice {
    pub(crate) number: u8,
    pub(crate) name: &'static [u8],
    pub(crate) detail: Option<Detail>,
}

impl Model for Notice {
    ghost use Rattle.std.specs.Prelude.{◌≤◌, length, option_map};
    ghost use Rattle.relief.specs.FaultLine.{FaultParts, detail_text};

    ghost Value = { FaultParts };

    ghost view = { λ n. record {
      number = n.number;
      name = n.name.now;
      detail = option_map detail_text n.detail;
    } };

    ghost invariant = { λ n. length n.name.now ≤ 40 };
}

impl RunFault {
    /// Returns the fault's number, from 1 to 63.
    pub fn number(&self) -> u8
        ensures { result ≡ (fault_parts self.now).number }
    {
        self.notice().number
    }

    /// Returns the exit status of the program.
    /// 3 if memory or a thread was refused, 4 if a device failed, otherwise 2.
    pub fn status(&self) -> u8
        ensures { result ≡ fault_status self.now }
    {
        status_of(self.number())
    }

    pub(crate) fn notice(&self) -> Notice
        ensures { result ≡ fault_parts self.now }
    {
        match self {
            RunFault::Grid(fault) => grid_notice(fault),
            RunFault::Tiling(fault) => tiling_notice(fault),
            RunFault::Jobs(fault) => jobs_notice(fault),
            RunFault::Sight(fault) => sight_notice(fault),
            RunFault::Sinks(fault) => sinks_notice(fault),
            RunFault::Gauges(fault) => gauges_notice(fault),
            RunFault::Read => plain(51, b"Read"),
            RunFault::Write => plain(52, b"Write"),
        }
    }
}

fn status_of(number: u8) -> u8
    ensures { result ≡ status_of number }
{
    match number {
        12 | 32 => 3,
        51 | 52 => 4,
        _ => 2,
    }
}

fn plain(number: u8, name: &'static [u8]) -> Notice
    requires { length name.now ≤ 40 }
    ensures { result ≡ plain number name.now }
{
    Notice {
        number,
        name,
        detail: None,
    }
}

fn detailed(number: u8, name: &'static [u8], detail: Detail) -> Notice
    requires { length name.now ≤ 40 }
    ensures { result ≡ detailed number name.now (detail_text detail) }
{
    Notice {
        number,
        name,
        detail: Some(detail),
    }
}

fn grid_notice(fault: &GridFault) -> Notice
    ensures { result ≡ grid_fault_parts fault.now }
{
    match fault {
        GridFault::UnknownKey => plain(1, b"UnknownKey"),
        GridFault::RepeatedKey(key) => detailed(2, b"RepeatedKey", Detail::Slot(*key)),
        GridFault::MissingKey(key) => detailed(3, b"MissingKey", Detail::Slot(*key)),
        GridFault::BadSize(key) => detailed(4, b"BadSize", Detail::Slot(*key)),
        GridFault::BadPlace(key) => detailed(5, b"BadPlace", Detail::Slot(*key)),
        GridFault::BadNodata => plain(6, b"BadNodata"),
        GridFault::BadHeight(cell) => detailed(7, b"BadHeight", Detail::Count(*cell)),
        GridFault::TooFew(heights) => detailed(8, b"TooFew", Detail::Count(*heights)),
        GridFault::TooMany => plain(9, b"TooMany"),
        GridFault::NoValue(key) => detailed(10, b"NoValue", Detail::Slot(*key)),
        GridFault::TooLong => plain(11, b"TooLong"),
        GridFault::Memory => plain(12, b"Memory"),
    }
}

fn tiling_notice(fault: &TilingFault) -> Notice
    ensures { result ≡ tiling_fault_parts fault.now }
{
    match fault {
        TilingFault::BadSide => plain(21, b"BadSide"),
        TilingFault::TooManyTiles => plain(22, b"TooManyTiles"),
    }
}

fn jobs_notice(fault: &JobFault) -> Notice
    ensures { result ≡ jobs_fault_parts fault.now }
{
    match fault {
        JobFault::Memory => plain(12, b"Memory"),
        JobFault::BadWorkers => plain(31, b"BadWorkers"),
        JobFault::NoThread => plain(32, b"NoThread"),
    }
}

fn sight_notice(fault: &SightFault) -> Notice
    ensures { result ≡ sight_fault_parts fault.now }
{
    match fault {
        SightFault::Outside(place) => detailed(41, b"Outside", Detail::Count(*place)),
        SightFault::OnNodata(place) => detailed(42, b"OnNodata", Detail::Count(*place)),
        SightFault::TooManyObservers => plain(43, b"TooManyObservers"),
        SightFault::BadEye(None) => plain(44, b"BadEye"),
        SightFault::BadEye(Some(place)) => detailed(44, b"BadEye", Detail::Count(*place)),
        SightFault::BadRadius => plain(45, b"BadRadius"),
        SightFault::Jobs(fault) => jobs_notice(fault),
    }
}

fn sinks_notice(fault: &SinkFault) -> Notice
    ensures { result ≡ sinks_fault_parts fault.now }
{
    match fault {
        SinkFault::Outside(place) => detailed(46, b"SinkOutside", Detail::Count(*place)),
        SinkFault::OnNodata(place) => detailed(47, b"SinkOnNodata", Detail::Count(*place)),
        SinkFault::TooManySinks => plain(48, b"TooManySinks"),
        SinkFault::Memory => jobs_notice(&JobFault::Memory),
    }
}

fn gauges_notice(fault: &GaugeFault) -> Notice
    ensures { result ≡ gauges_fault_parts fault.now }
{
    match fault {
        GaugeFault::Outside(place) => detailed(61, b"GaugeOutside", Detail::Count(*place)),
        GaugeFault::OnNodata(place) => detailed(62, b"GaugeOnNodata", Detail::Count(*place)),
        GaugeFault::TooManyGauges => plain(63, b"TooManyGauges"),
        GaugeFault::Jobs(fault) => jobs_notice(fault),
    }
}

/// Returns the name of a header slot in the line of a fault.
/// `xll` stands for `xllcorner` and `xllcenter`, `yll` for `yllcorner` and `yllcenter`.
pub(crate) fn slot_name(key: Key) -> &'static [u8]
    ensures name { result.now ≡ slot_text key }
    ensures short { length result.now ≤ 40 }
{
    match key {
        Key::Ncols => b"ncols",
        Key::Nrows => b"nrows",
        Key::Xll => b"xll",
        Key::Yll => b"yll",
        Key::Cellsize => b"cellsize",
        Key::Nodata => b"nodata",
    }
}
