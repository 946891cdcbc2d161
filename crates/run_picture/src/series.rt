//! The plot of what changes in an object.

ghost use Rattle.std.specs.Prelude.{◌≡◌, ◌<◌, ◌^◌, ◌++◌, OnOk, string_bytes};
ghost use Rattle.run_picture.specs.Plots.{
  begin_text,
  close_text,
  first_place as place_of_first,
  frame_text,
  largest as largest_of,
  most_text,
  names_text,
  part_at,
  path_text,
  plot_text,
  right_end,
  series_text,
  step_text,
  step_texts,
};

use crate::layout::{across, fall, plot_top, width};
use crate::run::{Point, Series};
use crate::words::{Told, print_name, push_escaped};
use std::fmt::Write;

/// The room of the plots: below as many lanes, over as many events.
#[derive(Clone, Copy, Debug)]
pub(crate) struct Room {
    pub(crate) lanes: u32,
    pub(crate) events: u32,
}

/// Appends a plot: what is shown with its largest value, the lines of 0 and of that value, and the steps.
pub(crate) fn print_series(out: &mut String, room: Room, series: &Series) -> Told
    ensures { OnOk result (string_bytes out.new ≡ string_bytes out.old ++ series_text room.lanes room.events series.now) }
{
    let most = largest(series.points.as_slice());
    let top = plot_top(room.lanes, series.number);
    print_plot(out, top, room.events, most, series)
}

fn print_plot(out: &mut String, top: u64, events: u32, most: u32, series: &Series) -> Told
    requires { top < 2 ^ 62 }
    ensures { OnOk result (string_bytes out.new ≡ string_bytes out.old ++ plot_text top events most series.now) }
{
    print_names(out, top, most, series)?;
    print_frame(out, top, width(events))?;
    print_path(out, top, most, series.points.as_slice())?;
    print_close(out, top, plot_end(events, series))?;
    out.push_str("'/>\n")
}

fn print_names(out: &mut String, top: u64, most: u32, series: &Series) -> Told
    requires { top < 2 ^ 62 }
    ensures { OnOk result (string_bytes out.new ≡ string_bytes out.old ++ names_text top most series.now) }
{
    print_name(out, top + 8, series.object.as_str())?;
    print_part_at(out, top + 24)?;
    push_escaped(out, series.part.as_str())?;
    print_most(out, most)
}

#[tactic(auto, unfolding(crate::specs::Plots::part_at))]
fn print_part_at(out: &mut String, y: u64) -> Told
    ensures { OnOk result (string_bytes out.new ≡ string_bytes out.old ++ part_at y) }
{
    write!(out, "<text class='part' x='-14' y='{y}' dy='4'>")
}

#[tactic(auto, unfolding(crate::specs::Plots::most_text))]
fn print_most(out: &mut String, most: u32) -> Told
    ensures { OnOk result (string_bytes out.new ≡ string_bytes out.old ++ most_text most) }
{
    write!(out, ", largest {most}</text>\n")
}

#[tactic(auto, unfolding(crate::specs::Plots::frame_text))]
fn print_frame(out: &mut String, top: u64, right: u64) -> Told
    requires { top < 2 ^ 62 }
    ensures { OnOk result (string_bytes out.new ≡ string_bytes out.old ++ frame_text top right) }
{
    let foot = top + 32;
    write!(
        out,
        "<path class='lane' d='M0 {foot} H{right} M0 {top} H{right}'/>\n<path class='steps' d='"
    )
}

/// The largest value of some points.
fn largest(points: &[Point]) -> u32
    ensures { result ≡ largest_of points.now }
{
    let mut most = 0;
    for point in points {
        if point.value > most {
            most = point.value;
        }
    }
    most
}

/// Appends the steps: from 0 at the first point to each value in turn.
fn print_path(out: &mut String, top: u64, most: u32, points: &[Point]) -> Told
    requires { top < 2 ^ 62 }
    ensures { OnOk result (string_bytes out.new ≡ string_bytes out.old ++ path_text top most points.now) }
{
    print_begin(out, top, points)?;
    print_steps(out, top, most, points)
}

/// Where the steps end: at the event that removed the object, or else at the end of the run.
fn plot_end(events: u32, series: &Series) -> u64
    ensures { result ≡ right_end events series.now.removed }
{
    match series.removed {
        Some(place) => across(place),
        None => width(events),
    }
}

#[tactic(auto, unfolding(crate::specs::Plots::begin_text))]
fn print_begin(out: &mut String, top: u64, points: &[Point]) -> Told
    requires { top < 2 ^ 62 }
    ensures { OnOk result (string_bytes out.new ≡ string_bytes out.old ++ begin_text top points.now) }
{
    let (from, foot) = (across(first_place(points)), top + 32);
    write!(out, "M{from} {foot}")
}

/// The place of the first point.
fn first_place(points: &[Point]) -> u32
    ensures { result ≡ place_of_first points.now }
{
    match points {
        [first, ..] => first.place,
        [] => 0,
    }
}

fn print_steps(out: &mut String, top: u64, most: u32, points: &[Point]) -> Told
    requires { top < 2 ^ 62 }
    ensures { OnOk result (string_bytes out.new ≡ string_bytes out.old ++ step_texts top most points.now) }
{
    for point in points {
        print_step(out, top, most, *point)?;
    }
    Ok(())
}

#[tactic(auto, unfolding(crate::specs::Plots::step_text))]
fn print_step(out: &mut String, top: u64, most: u32, point: Point) -> Told
    requires { top < 2 ^ 62 }
    ensures { OnOk result (string_bytes out.new ≡ string_bytes out.old ++ step_text top most point) }
{
    let (x, y) = (across(point.place), top + fall(point.value, most));
    write!(out, " H{x} V{y}")
}

#[tactic(auto, unfolding(crate::specs::Plots::close_text))]
fn print_close(out: &mut String, top: u64, right: u64) -> Told
    requires { top < 2 ^ 62 }
    ensures { OnOk result (string_bytes out.new ≡ string_bytes out.old ++ close_text top right) }
{
    let foot = top + 32;
    write!(out, " H{right} V{foot}")
}
