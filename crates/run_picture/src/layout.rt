//! Where things stand, in pixels from the upper left corner of the lanes.

ghost use Rattle.std.specs.Prelude.{◌≡◌, ◌<◌, ◌≤◌, ◌^◌};
ghost use Rattle.run_picture.specs.Layout.{
  across as middle_of,
  count as count_of,
  down as middle_of_lane,
  fall as fall_of,
  legend_top as top_of_legend,
  page_height as height_of_page,
  page_width as width_of_page,
  plot_top as top_of_plot,
  width as width_of,
};

/// The width of the column of an event.
const COLUMN: u64 = 32;

/// The height of a lane.
const LANE: u64 = 40;

/// The height of a plot with the room around it.
const PLOT: u64 = 56;

/// The height of the largest value of a plot.
const RISE: u64 = 32;

/// How many are counted, of a list of this length.
pub(crate) fn count(len: usize) -> u32
    ensures { result ≡ count_of len }
{
    if len < 0xffff_ffff {
        len as u32
    } else {
        0xffff_ffff
    }
}

/// The middle of the column of an event.
pub(crate) fn across(place: u32) -> u64
    ensures value { result ≡ middle_of place }
    ensures bound { result < 2 ^ 37 }
{
    u64::from(place) * COLUMN
}

/// The width of all columns.
pub(crate) fn width(events: u32) -> u64
    ensures { result ≡ width_of events }
{
    across(events) + 24
}

/// The middle of a lane.
pub(crate) fn down(lane: u32) -> u64
    ensures { result ≡ middle_of_lane lane }
{
    u64::from(lane) * LANE + 20
}

/// The upper end of a plot below as many lanes.
pub(crate) fn plot_top(lanes: u32, number: u32) -> u64
    ensures value { result ≡ top_of_plot lanes number }
    ensures bound { result < 2 ^ 62 }
{
    u64::from(lanes) * LANE + u64::from(number) * PLOT + 24
}

/// How far below the upper end of its plot a value stands.
pub(crate) fn fall(value: u32, most: u32) -> u64
    ensures value { result ≡ fall_of value most }
    ensures bound { result ≤ 32 }
{
    let rise = match u64::from(most) {
        0 => 0,
        most => u64::from(value) * RISE / most,
    };
    RISE.saturating_sub(rise)
}

/// The width of the picture, in which the legend has room.
pub(crate) fn page_width(events: u32) -> u64
    ensures { result ≡ width_of_page events }
{
    let wide = width(events) + 280;
    if wide < 760 { 760 } else { wide }
}

/// The height of the picture, whose plots end there.
pub(crate) fn page_height(bottom: u64) -> u64
    requires { bottom < 2 ^ 63 }
    ensures { result ≡ height_of_page bottom }
{
    bottom + 200
}

/// Where the legend stands below plots that end there.
pub(crate) fn legend_top(bottom: u64) -> u64
    requires { bottom < 2 ^ 63 }
    ensures { result ≡ top_of_legend bottom }
{
    bottom + 30
}
