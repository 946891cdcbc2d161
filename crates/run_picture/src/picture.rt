//! The whole picture.

ghost use Rattle.std.specs.Prelude.{◌≡◌, ◌<◌, ◌^◌, ◌++◌, OnOk, length, string_bytes};
ghost use Rattle.run_picture.specs.Picture.{all_lanes, all_series, foot_text, ground_text, head_text, page_text, picture_text, size_text};

use crate::lanes::print_lane;
use crate::layout::{count, legend_top, page_height, page_width, plot_top, width};
use crate::run::{Lane, Run, Series};
use crate::series::{Room, print_series};
use crate::words::Told;
use std::fmt::Write;

/// Appends the picture of a run, in the colours and with the symbols of a style, as `STYLE`. The error comes only where an allocation fails, and a part of the picture may then stand in `out`.
pub fn draw(out: &mut String, style: &str, run: &Run) -> Told
    ensures { OnOk result (string_bytes out.new ≡ string_bytes out.old ++ picture_text style.now run.now) }
{
    let (lanes, plots, events) = (count(run.lanes.len()), count(run.series.len()), run.events);
    let bottom = plot_top(lanes, plots);
    print_head(out, style, bottom, events)?;
    print_lanes(out, events, run.lanes.as_slice())?;
    print_plots(out, Room { lanes, events }, run.series.as_slice())?;
    print_foot(out, bottom)
}

/// Appends what stands before the lanes: the size, the style, and a line for each event.
fn print_head(out: &mut String, style: &str, bottom: u64, events: u32) -> Told
    requires { bottom < 2 ^ 63 }
    ensures { OnOk result (string_bytes out.new ≡ string_bytes out.old ++ head_text style.now bottom events) }
{
    let (wide, high) = (page_width(events), page_height(bottom));
    print_size(out, wide, high)?;
    out.push_str(style)?;
    print_page(out, wide, high)?;
    print_ground(out, width(events), bottom)
}

#[tactic(auto, unfolding(crate::specs::Picture::size_text))]
fn print_size(out: &mut String, wide: u64, high: u64) -> Told
    ensures { OnOk result (string_bytes out.new ≡ string_bytes out.old ++ size_text wide high) }
{
    write!(
        out,
        "<svg xmlns='http://www.w3.org/2000/svg' width='{wide}' height='{high}' viewBox='0 0 {wide} {high}' role='img'>\n"
    )
}

#[tactic(auto, unfolding(crate::specs::Picture::page_text))]
fn print_page(out: &mut String, wide: u64, high: u64) -> Told
    ensures { OnOk result (string_bytes out.new ≡ string_bytes out.old ++ page_text wide high) }
{
    write!(
        out,
        "<rect class='page' width='{wide}' height='{high}'/>\n<g transform='translate(170 140)'>\n"
    )
}

#[tactic(auto, unfolding(crate::specs::Picture::ground_text))]
fn print_ground(out: &mut String, columns: u64, bottom: u64) -> Told
    ensures { OnOk result (string_bytes out.new ≡ string_bytes out.old ++ ground_text columns bottom) }
{
    write!(
        out,
        "<rect fill='url(#columns)' width='{columns}' height='{bottom}'/>\n<text class='axis' x='-14' y='-8'>event</text>\n"
    )
}

fn print_lanes(out: &mut String, events: u32, lanes: &[Lane]) -> Told
    ensures { OnOk result (string_bytes out.new ≡ string_bytes out.old ++ all_lanes events lanes.now) }
{
    for lane in lanes {
        print_lane(out, events, lane)?;
    }
    Ok(())
}

fn print_plots(out: &mut String, room: Room, plots: &[Series]) -> Told
    ensures { OnOk result (string_bytes out.new ≡ string_bytes out.old ++ all_series room.lanes room.events plots.now) }
{
    for series in plots {
        print_series(out, room, series)?;
    }
    Ok(())
}

/// Appends the legend below all.
#[tactic(auto, unfolding(crate::specs::Picture::foot_text))]
fn print_foot(out: &mut String, bottom: u64) -> Told
    requires { bottom < 2 ^ 63 }
    ensures { OnOk result (string_bytes out.new ≡ string_bytes out.old ++ foot_text bottom) }
{
    let y = legend_top(bottom);
    write!(
        out,
        "<use href='#legend' x='-154' y='{y}'/>\n</g>\n</svg>\n"
    )
}
