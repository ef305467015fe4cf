//! [`tell`] writes the line that reports a run's fault, `write_bad_word` that of a bad word, and
//! `write_maps_fault` that of map words.
ghost use Rattle.std.specs.Prelude.{◌≡◌, ◌<◌, ◌≤◌, ◌+◌, ◌-◌, ◌^◌, ◌++◌, [], length, codes, decimal, option_map};
ghost use Rattle.std.specs.Option.{option_map_or};
ghost use Rattle.ascii_grid.specs.Device.{Writes};
ghost use Rattle.relief.specs.Ends.{maps_fault_line};
ghost use Rattle.relief.specs.FaultLine.{fault_line, detail_text};

use crate::fault::{Detail, Notice, RunFault, slot_name};
use ascii_grid::{Counted, Page, WriteFailed};
use itoa::Buffer;
use request::MapsFault;
use std::io::Write;

fn push_number(number: u64, line: &mut Page)
    requires { length line.old ≤ 1000 }
    ensures text { line.new ≡ line.old ++ decimal number }
    ensures short { length line.new ≤ length line.old + 40 }
{
    let mut digits = Buffer::new();
    line.push(digits.format(number).as_bytes());
}

/// Appends a space and the detail, if there is one.
fn push_detail(detail: Option<Detail>, line: &mut Page)
    requires { length line.old ≤ 500 }
    ensures text { line.new
        ≡ line.old ++ option_map_or (λ d. codes " " ++ d) (option_map detail_text detail) [] }
    ensures short { length line.new ≤ length line.old + 41 }
{
    match detail {
        Some(Detail::Slot(key)) => {
            line.push_byte(b' ');
            line.push(slot_name(key));
        }
        Some(Detail::Count(count)) => {
            line.push_byte(b' ');
            push_number(u64::from(count), line);
        }
        None => {}
    }
}

/// Writes the line of a fault, as `relief: 41 Outside 0`. Allocates nothing.
///
/// # Errors
///
/// [`WriteFailed`] if a write or the flush fails.
pub fn tell<W: Write>(fault: &RunFault, out: &mut Counted<W>) -> Result<(), WriteFailed>
    requires { out.old.failures < 2 ^ 64 - 1 }
    ensures { Writes W.contents out.old out.new (fault_line fault.now) result }
{
    let Notice {
        number,
        name,
        detail,
    } = fault.notice();
    let mut line = Page::new();
    line.push(b"relief: ");
    push_number(u64::from(number), &mut line);
    line.push_byte(b' ');
    line.push(name);
    push_detail(detail, &mut line);
    line.push_byte(b'\n');
    line.write_to(out)
}

/// Writes a line: `front`, then `place`, a bad word's number from 0 among the words of its kind.
pub(crate) fn write_bad_word<W: Write>(
    front: &'static [u8],
    place: usize,
    out: &mut Counted<W>,
) -> Result<(), WriteFailed>
    requires short { length front.now ≤ 40 }
    requires few { out.old.failures < 2 ^ 64 - 1 }
    ensures { Writes W.contents out.old out.new (front.now ++ decimal place ++ codes "\n") result }
{
    let mut line = Page::new();
    line.push(front);
    push_number(place as u64, &mut line);
    line.push_byte(b'\n');
    line.write_to(out)
}

fn write_fixed_line<W: Write>(line: &[u8], out: &mut Counted<W>) -> Result<(), WriteFailed>
    requires short { length line.now ≤ 80 }
    requires few { out.old.failures < 2 ^ 64 - 1 }
    ensures { Writes W.contents out.old out.new line.now result }
{
    let mut page = Page::new();
    page.push(line);
    page.write_to(out)
}

/// Writes the line of a fault of the map words of `relief maps`.
pub(crate) fn write_maps_fault<W: Write>(
    fault: &MapsFault,
    out: &mut Counted<W>,
) -> Result<(), WriteFailed>
    requires { out.old.failures < 2 ^ 64 - 1 }
    ensures { Writes W.contents out.old out.new (maps_fault_line fault.now) result }
{
    match fault {
        MapsFault::UnknownMap(place) => write_bad_word(b"relief: bad map word ", *place, out),
        MapsFault::RepeatedMap => write_fixed_line(b"relief: a map is named twice\n", out),
        MapsFault::NoGauge => write_fixed_line(b"relief: catchments without a gauge\n", out),
        MapsFault::NoCatchments => write_fixed_line(b"relief: a gauge without catchments\n", out),
    }
}
