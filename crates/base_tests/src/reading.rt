//! Tests reading: texts whole, in pieces, cut short, and from an interrupted reader.
ghost use Rattle.std.specs.Prelude.{◌≤◌, ◌<◌};

use crate::texts::{LENIENT, LENIENT_CELLS, expect_cells, grid_of, have_heights};
use ascii_grid::{
    Counted, Grid, GridFault, GridReader, Height, InputFault, Key, read_grid, read_text,
};
use std::alloc::Global;
use std::io;
use std::io::Read;
use std::process::Abort;

/// A header of 2 columns and 1 row, with the lower left corner at 0 0.
const HEADER: &[u8] = b"ncols 2 nrows 1 xllcorner 0 yllcorner 0 cellsize 1";

/// Reads `text` in pieces of `piece` bytes, with an empty piece before each and at the end.
fn read_in_pieces(alloc: Global, scale: u8, text: &[u8], piece: usize) -> Result<Grid, GridFault>
    requires scale { scale ≤ 6 }
    requires piece { 0 < piece }
{
    let mut reader = GridReader::new(alloc, scale);
    for part in text.chunks(piece) {
        reader.feed(b"")?;
        reader.feed(part)?;
    }
    reader.feed(b"")?;
    reader.finish()
}

/// Asserts that `text`, read whole and in pieces, has these cells.
fn spells(rt: &impl Abort, alloc: Global, scale: u8, text: &[u8], cells: &[Option<Height>])
    requires { scale ≤ 6 }
{
    grid_of(rt, alloc, scale, text, cells);
    for piece in [1, 2, 3, 7] {
        let grid = read_in_pieces(alloc, scale, text, piece).expect(rt, "its pieces are a grid");
        let found = grid.cells();
        assert!(rt;
            have_heights(found, cells),
            "{found:?} and {cells:?} in pieces of {piece}"
        );
    }
}

/// Asserts that `text`, read whole and in pieces, is refused with this fault.
fn refuses(rt: &impl Abort, alloc: Global, text: &[u8], fault: GridFault) {
    assert_eq!(rt; read_text(alloc, 0, text).err(), Some(fault));
    for piece in [1, 2, 3, 7] {
        let answer = read_in_pieces(alloc, 0, text, piece);
        assert_eq!(rt; answer.err(), Some(fault), "in pieces of {piece}");
    }
}

fn after_header(rt: &impl Abort, alloc: Global, rest: &[u8]) -> Vec<u8> {
    let mut text = Vec::from_slice(alloc, HEADER).expect(rt, "memory");
    text.extend_from_slice(rest).expect(rt, "memory");
    text
}

fn spells_after_header(rt: &impl Abort, alloc: Global, rest: &[u8], cells: &[Option<Height>]) {
    spells(rt, alloc, 0, &after_header(rt, alloc, rest), cells);
}

fn refuses_after_header(rt: &impl Abort, alloc: Global, rest: &[u8], fault: GridFault) {
    refuses(rt, alloc, &after_header(rt, alloc, rest), fault);
}

#[test]
fn lenient_text(rt: HostRuntime) {
    spells(&rt, rt.alloc(), 2, LENIENT, &LENIENT_CELLS);
    let grid = grid_of(&rt, rt.alloc(), 2, LENIENT, &LENIENT_CELLS);
    assert_eq!(rt; (grid.cols(), grid.rows(), grid.scale()), (2, 2, 2));
}

/// Words after [`HEADER`] and the cells that they spell.
const HEIGHTS: [(&[u8], [Option<Height>; 2]); 10] = [
    (b" 3 4", [Some(3), Some(4)]),
    (b" 3 1000000001", [Some(3), Some(1_000_000_001)]),
    (b" 3 -1000000000", [Some(3), Some(-1_000_000_000)]),
    (
        b" 3 -1000000000000000",
        [Some(3), Some(-1_000_000_000_000_000)],
    ),
    (
        b" 1000000000000000 -1000000000000000",
        [Some(1_000_000_000_000_000), Some(-1_000_000_000_000_000)],
    ),
    (b" +3. 4.000", [Some(3), Some(4)]),
    (b" .0 -0.", [Some(0), Some(0)]),
    (b" 0000000012\t-0000000003\n", [Some(12), Some(-3)]),
    (
        b" 00000000000000000012\t-00000000000000000003\n",
        [Some(12), Some(-3)],
    ),
    (
        b" 999999999999999 -999999999999999\n",
        [Some(999_999_999_999_999), Some(-999_999_999_999_999)],
    ),
];

#[test]
fn heights(rt: HostRuntime) {
    for (words, cells) in HEIGHTS {
        spells_after_header(&rt, rt.alloc(), words, &cells);
    }
    let zeros =
        b"ncols 0000000000000000000000000000000000000000000000000000000000000002 nrows 1 xllcorner 0 yllcorner 0 cellsize 1 3 4";
    spells(&rt, rt.alloc(), 0, zeros, &[Some(3), Some(4)]);
}

#[test]
fn heights_of_six_decimals(rt: HostRuntime) {
    for (words, cells) in [
        (
            b" 1000000000 -999999999.5".as_slice(),
            [Some(1_000_000_000_000_000), Some(-999_999_999_500_000)],
        ),
        (
            b" -1000000000.000000 999999999 ".as_slice(),
            [Some(-1_000_000_000_000_000), Some(999_999_999_000_000)],
        ),
    ] {
        spells(
            &rt,
            rt.alloc(),
            6,
            &after_header(&rt, rt.alloc(), words),
            &cells,
        );
    }
}

const GAPS: [(&[u8], [Option<Height>; 2]); 7] = [
    (b" 3 -9999.0", [Some(3), None]),
    (b" NODATA_value 0 3 -0", [Some(3), None]),
    (b" NODATA_value -9999.5 3 -9999.5", [Some(3), None]),
    // NODATA below all heights, the greatest scaled value, and a word that has no scaled value.
    (
        b" NODATA_value -9999999999999999 3 -9999999999999999 ",
        [Some(3), None],
    ),
    (
        b" NODATA_value 1000000000000000000 3 1000000000000000000.0",
        [Some(3), None],
    ),
    (b" NODATA_value 1e99 3 1e99", [Some(3), None]),
    // A NODATA word with an exponent has no scaled value: only the same bytes are NODATA.
    (
        b" NODATA_value -9.999e3 -9.999e3 -9999",
        [None, Some(-9999)],
    ),
];

#[test]
fn cells_without_data(rt: HostRuntime) {
    for (words, cells) in GAPS {
        spells_after_header(&rt, rt.alloc(), words, &cells);
    }
    let other_case = b" NODATA_value 1e99 3 1E99";
    refuses_after_header(&rt, rt.alloc(), other_case, GridFault::BadHeight(1));
}

/// Words after [`HEADER`] and the cell whose height is bad.
const BAD_HEIGHTS: [(&[u8], u32); 12] = [
    (b" 1e3 4", 0),
    (b" 3 1.5", 1),
    (b" 3 1000000000000001", 1),
    (b" 1234567890123456 4", 0),
    (b" 3 -1234567890123456 ", 1),
    (b" 10000000000000000 4", 0),
    // 2^64 + 3 and 64 digits do not wrap around.
    (b" 3 18446744073709551619", 1),
    (
        b" 3 9999999999999999999999999999999999999999999999999999999999999999",
        1,
    ),
    (b" . 4", 0),
    // Bytes that are neither digits nor separators.
    (b" 3 4\x0b", 1),
    (b" 3\x0b4", 0),
    (b" 3 \xff", 1),
];

#[test]
fn bad_heights(rt: HostRuntime) {
    for (words, cell) in BAD_HEIGHTS {
        refuses_after_header(&rt, rt.alloc(), words, GridFault::BadHeight(cell));
    }
}

#[test]
fn how_many_heights(rt: HostRuntime) {
    for (words, fault) in [
        (b" 3".as_slice(), GridFault::TooFew(1)),
        (b"", GridFault::TooFew(0)),
        (b" 3 4 5", GridFault::TooMany),
    ] {
        refuses_after_header(&rt, rt.alloc(), words, fault);
    }
}

const BAD_KEYS: [(&[u8], GridFault); 11] = [
    (b"", GridFault::MissingKey(Key::Ncols)),
    (
        b"ncols 2 NCOLS 2 nrows 1",
        GridFault::RepeatedKey(Key::Ncols),
    ),
    (b"xllcorner 0 xllcenter 0", GridFault::RepeatedKey(Key::Xll)),
    (
        b"ncols 2 nrows 1 xllcorner 0 yllcorner 0 3 4",
        GridFault::MissingKey(Key::Cellsize),
    ),
    (b"bogus 2 ncols 0", GridFault::UnknownKey),
    (b"dx 1", GridFault::UnknownKey),
    (b"ncols 2 nrows", GridFault::NoValue(Key::Nrows)),
    // A byte order mark does not begin with a letter, so it is no key.
    (b"\xef\xbb\xbfncols 2", GridFault::MissingKey(Key::Ncols)),
    // An accented letter of two bytes begins no key.
    (b"ncols 2 \xc3\xa9 1", GridFault::MissingKey(Key::Nrows)),
    (b"ncols\x002", GridFault::UnknownKey),
    (b"ncols\x0c2", GridFault::UnknownKey),
];

#[test]
fn bad_keys(rt: HostRuntime) {
    for (text, fault) in BAD_KEYS {
        refuses(&rt, rt.alloc(), text, fault);
    }
}

const BAD_VALUES: [(&[u8], GridFault); 8] = [
    (b"ncols 4097", GridFault::BadSize(Key::Ncols)),
    (b"ncols 0 nrows 1 bogus 2", GridFault::BadSize(Key::Ncols)),
    (b"ncols ncols", GridFault::BadSize(Key::Ncols)),
    (
        b"nrows 18446744073709551617",
        GridFault::BadSize(Key::Nrows),
    ),
    (b"cellsize -1", GridFault::BadPlace(Key::Cellsize)),
    (b"cellsize 0.0e5", GridFault::BadPlace(Key::Cellsize)),
    (b"xllcorner 1,5", GridFault::BadPlace(Key::Xll)),
    (b"yllcenter 1e", GridFault::BadPlace(Key::Yll)),
];

#[test]
fn bad_values(rt: HostRuntime) {
    for (text, fault) in BAD_VALUES {
        refuses(&rt, rt.alloc(), text, fault);
    }
    let bad_nodata = b" NODATA_value none 3 4";
    refuses_after_header(&rt, rt.alloc(), bad_nodata, GridFault::BadNodata);
    let tiny = b"ncols 1 nrows 1 xllcorner 0 yllcorner 0 cellsize 0.0001E-99 5";
    spells(&rt, rt.alloc(), 0, tiny, &[Some(5)]);
}

#[test]
fn long_words(rt: HostRuntime) {
    let digits = b"ncols 11111111111111111111111111111111111111111111111111111111111111111";
    refuses(&rt, rt.alloc(), digits, GridFault::TooLong);
    // `TooLong` precedes any other fault of its word, also `TooMany` and `MissingKey`.
    let long = b" 00000000000000000000000000000000000000000000000000000000000000000";
    refuses(&rt, rt.alloc(), long, GridFault::TooLong);
    let mut surplus = after_header(&rt, rt.alloc(), b" 3 4");
    surplus.extend_from_slice(long).expect(&rt, "memory");
    refuses(&rt, rt.alloc(), &surplus, GridFault::TooLong);
}

/// Feeds the next piece, and asserts what the reader returns.
fn expect_feed(
    rt: &impl Abort,
    reader: &mut GridReader,
    piece: &[u8],
    answer: Result<(), GridFault>,
) {
    assert_eq!(rt; reader.feed(piece), answer);
}

#[test]
fn fault_stays(rt: HostRuntime) {
    let fault = GridFault::UnknownKey;
    for piece in [b"".as_slice(), b" ", b"ncols 0 ", HEADER] {
        let mut reader = GridReader::new(rt.alloc(), 0);
        expect_feed(&rt, &mut reader, b"bogus ", Err(fault));
        expect_feed(&rt, &mut reader, piece, Err(fault));
        assert_eq!(rt; reader.finish().err(), Some(fault));
    }
}

#[test]
fn fault_of_a_word_once_it_has_ended(rt: HostRuntime) {
    let mut reader = GridReader::new(rt.alloc(), 0);
    let fault = GridFault::BadSize(Key::Ncols);
    expect_feed(&rt, &mut reader, b"ncols 0", Ok(()));
    expect_feed(&rt, &mut reader, b"\n", Err(fault));
    expect_feed(&rt, &mut reader, HEADER, Err(fault));
    assert_eq!(rt; reader.finish().err(), Some(fault));
}

/// Cuts a text before each of its bytes, and checks the fault of the part before the cut.
#[test]
fn each_front_part(rt: HostRuntime) {
    let text = after_header(&rt, rt.alloc(), b" 3 4");
    for (from, to, fault) in [
        (0, 0, GridFault::MissingKey(Key::Ncols)),
        (1, 4, GridFault::UnknownKey),
        (5, 6, GridFault::NoValue(Key::Ncols)),
        (7, 8, GridFault::MissingKey(Key::Nrows)),
        (9, 12, GridFault::UnknownKey),
        (13, 14, GridFault::NoValue(Key::Nrows)),
        (15, 16, GridFault::MissingKey(Key::Xll)),
        (17, 24, GridFault::UnknownKey),
        (25, 26, GridFault::NoValue(Key::Xll)),
        (27, 28, GridFault::MissingKey(Key::Yll)),
        (29, 36, GridFault::UnknownKey),
        (37, 38, GridFault::NoValue(Key::Yll)),
        (39, 40, GridFault::MissingKey(Key::Cellsize)),
        (41, 47, GridFault::UnknownKey),
        (48, 49, GridFault::NoValue(Key::Cellsize)),
        (50, 51, GridFault::TooFew(0)),
        (52, 53, GridFault::TooFew(1)),
    ] {
        for kept in from..=to {
            let front = text.get(..kept).expect(&rt, "a front part");
            refuses(&rt, rt.alloc(), front, fault);
        }
    }
    assert_eq!(rt; text.len(), 54);
    spells(&rt, rt.alloc(), 0, &text, &[Some(3), Some(4)]);
}

/// A reader of at most 20 bytes a call. One call fails as interrupted; later calls read on.
#[derive(Drop)]
struct Interrupted<'a> {
    left: &'a [u8],
    calls_before: u32,
}

impl Read for Interrupted<'_> {
    fn read(&mut self, buffer: &mut [u8]) -> io::Result<usize> {
        let before = self.calls_before;
        self.calls_before = before.wrapping_sub(1);
        if before == 0 {
            return Err(io::Error::from(io::ErrorKind::Interrupted));
        }
        let most = buffer.len().min(20);
        self.left.read(&mut buffer[..most])
    }
}

/// Reads a text of two heights, interrupted after `calls_before` calls.
/// Three calls read bytes; the fourth finds the end of the text.
fn read_until(rt: &impl Abort, alloc: Global, text: &[u8], calls_before: u32) {
    let mut reader = Counted::new(Interrupted {
        left: text,
        calls_before,
    });
    let answer = read_grid(alloc, 0, &mut reader);
    let failures = reader.failures();
    if calls_before < 4 {
        assert_eq!(rt;
            answer.err(),
            Some(InputFault::Read),
            "{calls_before} calls before"
        );
        assert_eq!(rt; failures, 1);
    } else {
        let grid = answer.expect(rt, "the text is a grid");
        expect_cells(rt, grid.cells(), &[Some(3), Some(4)]);
        assert_eq!(rt; failures, 0);
    }
}

#[test]
fn interrupted_read(rt: HostRuntime) {
    let text = after_header(&rt, rt.alloc(), b" 3 4");
    for calls_before in 0..5 {
        read_until(&rt, rt.alloc(), &text, calls_before);
    }
}
