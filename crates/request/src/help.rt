//! The long texts of `--help`, with line breaks, since `clap` does not wrap lines.

/// The help texts of a map: a summary, the details and the usage line.
#[derive(Clone, Copy)]
pub(crate) struct MapHelp {
    pub(crate) about: &'static str,
    pub(crate) details: &'static str,
    pub(crate) usage: &'static str,
}

pub(crate) const ABOUT: &str = "Maps drainage and visibility of a terrain grid.\n\n\
Reads one grid of heights in the Esri ASCII raster form (GDAL's AAIGrid) from standard input, and writes one\n\
map of it, or several, in the same form to standard output. It writes nothing before each map is whole.";

pub(crate) const USAGE: &str = "\
relief fill|flow|accumulate|basins [OPTIONS] [ROW,COL...] < dem.asc > map.asc
       relief catchments [OPTIONS] ROW,COL... < dem.asc > map.asc
       relief view|rise [OPTIONS] ROW,COL,EYE... < dem.asc > map.asc
       relief maps [OPTIONS] MAP... < dem.asc > maps.asc";

pub(crate) const FILL: MapHelp = MapHelp {
    about: "Filled heights: the spill height of each cell, at which its water reaches the data's edge or a sink",
    details: "Filled heights: the spill height of each cell, the least at which its water reaches the data's edge or a named\n\
sink. NODATA is such an edge: each void drains what lies above it. Fill the holes inside the land first, and\n\
only these: `relief-holes dem.tif whole.tif` leaves the sea and the raster's corners as they are.\n\n\
Out: heights in the units of the input, with D decimals (--scale D); NODATA as in the input.\n\n\
Example, heights in metres with centimetres:\n  \
relief fill --scale 2 < dem.asc > filled.asc",
    usage: "relief fill [OPTIONS] [SINK_ROW,SINK_COL...] < dem.asc > map.asc",
};

pub(crate) const FLOW: MapHelp = MapHelp {
    about: "D8 directions on the filled heights: E 1, SE 2, S 4, SW 8, W 16, NW 32, N 64, NE 128, outlet 0",
    details: "D8 directions on the filled heights: to the neighbour with the steepest drop over distance, on a flat by\n\
the fewest steps to where it drains, among equals to the smallest code.\n\n\
Out: E 1, SE 2, S 4, SW 8, W 16, NW 32, N 64, NE 128; 0 for an outlet, at the data's edge or in a sink that\n\
keeps its water; -9999 for NODATA.\n\n\
Example:\n  \
relief flow < dem.asc > directions.asc",
    usage: "relief flow [OPTIONS] [SINK_ROW,SINK_COL...] < dem.asc > map.asc",
};

pub(crate) const ACCUMULATE: MapHelp = MapHelp {
    about: "Flow accumulation: how many other cells drain through each cell",
    details: "Flow accumulation: how many other cells drain through each cell.\n\n\
Out: whole numbers of cells from 0, the cell itself not counted; -9999 for NODATA.\n\n\
Example, with four threads:\n  \
relief accumulate --workers 4 < dem.asc > accumulation.asc",
    usage: "relief accumulate [OPTIONS] [SINK_ROW,SINK_COL...] < dem.asc > map.asc",
};

pub(crate) const BASINS: MapHelp = MapHelp {
    about: "Basins: the number of the outlet to which each cell drains",
    details: "Basins: the number of the outlet to which each cell drains.\n\n\
Out: whole numbers from 1, outlets numbered in row order from the north-west; -9999 for NODATA.\n\n\
Example, with a quarry whose lowest cell is at row 120 and column 340:\n  \
relief basins 120,340 < dem.asc > basins.asc",
    usage: "relief basins [OPTIONS] [SINK_ROW,SINK_COL...] < dem.asc > map.asc",
};

pub(crate) const CATCHMENTS: MapHelp = MapHelp {
    about: "Catchments of gauges: the number of the first gauge through which each cell drains",
    details: "Catchments of gauges: the number of the first gauge through which each cell drains, the gauge's own cell\n\
included. Gauges are numbered from 1 in the order of the command line. A gauge lets its water pass, so nested\n\
gauges divide the land: all that drains through a gauge has its number or that of a gauge above it.\n\n\
Out: whole numbers from 0, 0 where the water passes no gauge; -9999 for NODATA.\n\n\
Example, with a gauge at row 170 and column 102 and one above it:\n  \
relief catchments 170,102 120,88 < dem.asc > catchments.asc",
    usage: "relief catchments [OPTIONS] ROW,COL... < dem.asc > map.asc",
};

pub(crate) const VIEW: MapHelp = MapHelp {
    about: "Viewshed: how many of the observers see each cell",
    details: "Viewshed: how many of the observers see each cell, on the heights as read. Lines of sight are straight and\n\
computed exactly. The earth is flat.\n\n\
Out: whole numbers from 0 to the number of observers; -9999 for NODATA.\n\n\
Example, heights in metres with centimetres (--scale 2) and cells of 30 m: from a mast of 20 m (2000) to\n\
targets 1.5 m high (150), up to 15 km away (500):\n  \
relief view --scale 2 --radius 500 --target 150 120,340,2000 < dem.asc > view.asc",
    usage: "relief view [OPTIONS] ROW,COL,EYE... < dem.asc > map.asc",
};

pub(crate) const RISE: MapHelp = MapHelp {
    about: "Rise: from what height above its ground on a target on each cell is seen (AGL, above ground level)",
    details: "Rise: the least height above the ground at which a target on each cell is seen by one of the observers: how\n\
high a mast or a house there must be to be seen. It is 0 where view counts an observer. Others call it AGL,\n\
above ground level; gdal_viewshed -om GROUND computes it approximately. Lines of sight are those of view.\n\n\
Out: whole numbers of units of 10^-D, 0 to 1000000; -9999 for NODATA, past the radius, and where a target of\n\
1000000 units is not seen.\n\n\
Example, heights in metres with centimetres (--scale 2) and cells of 30 m: a mast of 20 m (2000), up to 15 km\n\
away (500):\n  \
relief rise --scale 2 --radius 500 120,340,2000 < dem.asc > rise.asc",
    usage: "relief rise [OPTIONS] ROW,COL,EYE... < dem.asc > map.asc",
};

pub(crate) const MAPS: MapHelp = MapHelp {
    about: "Several maps of drainage from one run, one after the other",
    details: "Several maps of drainage from one run: the heights are read and filled and the directions searched for once.\n\n\
Out: the grids of the maps in the order of the command line, each as its own subcommand writes it, one after\n\
the other. Each has six header lines, and then as many lines as its nrows says.\n\n\
Example, accumulation and the catchments of a gauge at row 170 and column 102:\n  \
relief maps --gauge 170,102 accumulate catchments < dem.asc > maps.asc",
    usage: "relief maps [OPTIONS] MAP... < dem.asc > maps.asc",
};

pub(crate) const SINK_WORDS: &str = "\
Named sinks, with those of --sink up to 1024, each two whole numbers: the row from 0 at the north, the column
from 0 at the west. A sink keeps the water that reaches it where no neighbour lies below: name the lowest cell
of a pit, as of a quarry, and the pit does not fill up. Where a neighbour lies below, the water flows on and
the map is the same as without the sink. A gauge is no sink";

pub(crate) const SINK_OPTION: &str = "\
A named sink, two whole numbers; give the option again for each, up to 1024. Words without it are sinks of
fill, flow, accumulate and basins alone. A sink keeps the water that reaches it where no neighbour lies below";

pub(crate) const GAUGE_WORDS: &str = "\
Gauges, 1 to 1024, each two whole numbers: the row from 0 at the north, the column from 0 at the west. Of
gauges in one cell the first counts";

pub(crate) const GAUGE_OPTION: &str = "\
A gauge of the catchments, two whole numbers; give the option again for each, up to 1024. It goes with the map
`catchments`, which takes at least one";

pub(crate) const MAP_WORDS: &str = "\
Maps, each at most once: fill, flow, accumulate, basins or catchments";

pub(crate) const VIEW_WORDS: &str = "\
Observers, 1 to 1024, each three whole numbers: the row from 0 at the north, the column from 0 at the west,
the height of the eye above the ground in units of 10^-D, 0 to 1000000: 20 m is 20 without --scale, and 2000
with --scale 2";

pub(crate) const COMMON: &str =
    "In: a grid text on standard input: six header words, ncols, nrows, xllcorner or xllcenter, yllcorner or\n\
yllcenter, cellsize and NODATA_value (-9999 if not given), then the heights in rows from the north, each from\n\
west to east. Nothing is rounded: a height with a digit other than 0 past the scale is refused. A cell is\n\
NODATA where its word is the header's NODATA word or has the same value.\n\n\
Units: D is the number of --scale, the decimals of the heights. A unit is 10^-D: with heights in metres a metre\n\
for D 0, a centimetre for D 2.\n\n\
Limits: 4096 columns and rows; heights from -10^15 to 10^15 units; 2^29 bytes of text; words of 64 bytes; 65536\n\
tiles.\n\n\
Exit status:\n  \
0  the map was written, or help or the version\n  \
1  a word of the command line was refused\n  \
2  the text, the tiles, a sink, a gauge, an observer, the target or the radius was refused\n  \
3  memory or a thread was refused\n  \
4  reading or writing failed\n\
A fault is one line on standard error: relief: NUMBER NAME [DETAIL]\n\
`relief --help` lists what each means and what to do.";

pub(crate) const EXAMPLES_AND_FAULTS: &str = "\
Examples:
  relief fill < dem.asc > filled.asc
  relief accumulate --scale 2 --workers 4 < dem.asc > accumulation.asc
  relief basins 120,340 < dem.asc > basins.asc
  relief catchments 170,102 120,88 < dem.asc > catchments.asc
  relief view --scale 2 --radius 500 --target 150 120,340,2000 < dem.asc > view.asc
  relief rise --scale 2 --radius 500 120,340,2000 < dem.asc > rise.asc
  relief maps --gauge 170,102 accumulate catchments < dem.asc > maps.asc

Without < the program waits for a grid from the terminal. `relief fill --help` tells what goes in and comes out,
the units and limits, and the exit status.

A fault is one line on standard error, and no map. What each means, and what to do:
relief: bad sink word K
      A file name stands where sinks belong: give the grid by <, as in relief fill < dem.asc. Or the word is not
      two whole numbers ROW,COL, as 120,340: it has decimals, a sign, a number too large, one number or three.
relief: bad gauge word K
      A file name stands where gauges belong: give the grid by <. Or the word is not two whole numbers ROW,COL,
      as 170,102: it has decimals, a sign, a number too large, one number or three.
relief: bad observer word K
      A file name stands where observers belong: give the grid by <. Or the word is not three whole numbers
      ROW,COL,EYE, as 120,340,2000: it has decimals, a sign, a number too large, two or four.
relief: bad map word K
      A file name or a place stands where maps belong: give the grid by <, sinks by --sink, gauges by --gauge. Or
      the word is not fill, flow, accumulate, basins or catchments.
relief: a map is named twice
      Each map is written once: leave the second word out.
relief: catchments without a gauge
      `relief maps` takes the gauges of the catchments by --gauge ROW,COL.
relief: a gauge without catchments
      A gauge is for the map `catchments`: add this word, or leave --gauge out.
relief: NUMBER NAME [DETAIL]
   1 UnknownKey          a header word that is no key (dx, north:), a cut header, a height that is a word (nan), or
                         a GeoTIFF: write a grid text with square cells (gdal_translate -of AAIGrid)
   2 RepeatedKey KEY     a header word given twice, or both corner and centre of an axis: take one out
   3 MissingKey KEY      the heights begin and KEY was not given: add it; for ncols also an empty file, a byte
                         order mark, UTF-16 or gzip: save it as plain text, or gunzip it
   4 BadSize KEY         columns or rows are not 1 to 4096: cut a part out, or make the cells larger
   5 BadPlace KEY        a position or the cell size is no number, or the cell size not above 0: mend the header
   6 BadNodata           the NODATA word is no number, as nan: gdalwarp -dstnodata -9999
   7 BadHeight PLACE     digits past the scale: --scale 2, and gdal_translate -co DECIMAL_PRECISION=2; or past 10^15
                         units, or no number (a decimal comma, an exponent): look at this cell
   8 TooFew COUNT        the text ended after COUNT heights: it was cut off, or the header gives another size
   9 TooMany             words follow the last height: the header gives another size, or take them out
  10 NoValue KEY         the text ended after a header word: it was cut off
  11 TooLong             a word past 64 bytes: a GeoTIFF (see 1), gzip (see 3), the line of a projection (take it
                         out) or many decimals (write fewer); or a text past 2^29 bytes: write fewer decimals, or
                         cut a part out
  12 Memory              out of memory: a smaller grid, or more memory
  21 BadSide             the side of tiles is not 1 to 4096: the command line refuses this before
  22 TooManyTiles        more than 65536: a larger --tile
  31 BadWorkers          the number of workers is not 1 to 64: the command line refuses this before
  32 NoThread            the system started no further thread: fewer --workers
  41 Outside PLACE       this observer is not in the grid: give ROW,COL,EYE in cells, not coordinates
  42 OnNodata PLACE      this observer is on a cell without data: move it
  43 TooManyObservers    more than 1024: make several maps and add them
  44 BadEye [PLACE]      this eye, or without PLACE the target, is above 1000000 units: units are 10^-D
  45 BadRadius           not 1 to 8192 cells
  46 SinkOutside PLACE   this sink is not in the grid: give ROW,COL in cells, not coordinates
  47 SinkOnNodata PLACE  this sink is on a cell without data, which drains already: take it out
  48 TooManySinks        more than 1024: name fewer
  51 Read                standard input failed
  52 Write               standard output failed: a full disk, a closed pipe
  61 GaugeOutside PLACE  this gauge is not in the grid: give ROW,COL in cells, not coordinates
  62 GaugeOnNodata PLACE this gauge is on a cell without data: move it
  63 TooManyGauges       more than 1024: make several maps
KEY is ncols, nrows, xll, yll (a corner or a centre), cellsize or nodata. PLACE and K count from 0: cells in row
order, so PLACE is row PLACE / ncols, rounded down, and column PLACE % ncols; observers, gauges, sinks and maps in
the order of the command line, sinks of --sink after words. `relief-cells` turns coordinates into ROW,COL and
ROW,COL,EYE.";
