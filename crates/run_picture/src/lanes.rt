//! The shapes of a lane.

ghost use Rattle.std.specs.Prelude.{◌≡◌, ◌<◌, ◌≤◌, ◌+◌, ◌^◌, ◌++◌, OnOk, string_bytes};
ghost use Rattle.run_picture.specs.Lanes.{
  arrow_of,
  arrow_text,
  bar_line,
  bar_text,
  bars_text,
  bend_of,
  call_text,
  calls_text,
  class_of_arrow,
  curve_text,
  end_of,
  end_text,
  ends_text,
  label_at,
  lane_head as head_text,
  lane_text,
  life_text,
  line_text,
  lives_text,
  mark_text,
  name_of_mark,
  number_text,
  place_text,
  process_at,
  process_text as process_of,
  right_of,
  start_text,
  stroke_of,
  use_text,
  wait_end_text,
};

use crate::layout::{across, down, width};
use crate::run::{Call, End, Lane, Life, Mark, Wait};
use crate::words::{Told, print_name, push_escaped, push_title};
use std::fmt::Write;

/// Appends a lane of a run of so many events: its name, a line for each life, a bar for each wait, a mark for each call, and a mark with an
/// arrow for each wait that ended.
pub(crate) fn print_lane(out: &mut String, events: u32, lane: &Lane) -> Told
    ensures { OnOk result (string_bytes out.new ≡ string_bytes out.old ++ lane_text events lane.now) }
{
    print_head(out, events, lane)?;
    print_bars(out, events, lane.number, lane.waits.as_slice())?;
    print_calls(out, lane.number, lane.calls.as_slice())?;
    print_ends(out, lane.number, lane.waits.as_slice())
}

fn print_head(out: &mut String, events: u32, lane: &Lane) -> Told
    ensures { OnOk result (string_bytes out.new ≡ string_bytes out.old ++ head_text events lane.now) }
{
    let y = down(lane.number);
    print_lives(out, events, y, lane.lives.as_slice())?;
    print_name(out, y, lane.name.as_str())
}

fn print_lives(out: &mut String, events: u32, y: u64, lives: &[Life]) -> Told
    ensures { OnOk result (string_bytes out.new ≡ string_bytes out.old ++ lives_text events y lives.now) }
{
    for life in lives {
        print_life(out, events, y, *life)?;
    }
    Ok(())
}

/// Appends the line of a life at a height, and the number of its process where it began within the run.
fn print_life(out: &mut String, events: u32, y: u64, life: Life) -> Told
    ensures { OnOk result (string_bytes out.new ≡ string_bytes out.old ++ life_text events y life) }
{
    let (left, right) = (across(life.place), line_end(events, life.end));
    print_line(out, left, y, right, stroke_at(life.end))?;
    print_process(out, y, life)
}

#[tactic(auto, unfolding(crate::specs::Lanes::line_text))]
fn print_line(out: &mut String, left: u64, y: u64, right: u64, stroke: &str) -> Told
    ensures { OnOk result (string_bytes out.new ≡ string_bytes out.old ++ line_text left y right stroke.now) }
{
    write!(
        out,
        "<path class='lane' d='M{left} {y} H{right}{stroke}'/>\n"
    )
}

/// Where the line of a life ends.
fn line_end(events: u32, end: Option<u32>) -> u64
    ensures { result ≡ right_of events end }
{
    match end {
        Some(place) => across(place),
        None => width(events),
    }
}

/// The stroke at the end of a life within the run.
#[tactic(auto, unfolding(crate::specs::Lanes::stroke_of))]
fn stroke_at(end: Option<u32>) -> &'static str
    ensures { result.now ≡ stroke_of end }
{
    match end {
        Some(_) => " m0 -6 v12",
        None => "",
    }
}

fn print_process(out: &mut String, y: u64, life: Life) -> Told
    ensures { OnOk result (string_bytes out.new ≡ string_bytes out.old ++ process_of y life) }
{
    if life.place == 0 {
        return Ok(());
    }
    print_process_at(out, across(life.place), y, life.pid)
}

#[tactic(auto, unfolding(crate::specs::Lanes::process_at))]
fn print_process_at(out: &mut String, left: u64, y: u64, pid: u32) -> Told
    ensures { OnOk result (string_bytes out.new ≡ string_bytes out.old ++ process_at left y pid) }
{
    write!(
        out,
        "<text class='process' x='{left}' y='{y}' dx='4' dy='-14'>process {pid}</text>\n"
    )
}

fn print_bars(out: &mut String, events: u32, lane: u32, waits: &[Wait]) -> Told
    ensures { OnOk result (string_bytes out.new ≡ string_bytes out.old ++ bars_text events lane waits.now) }
{
    for wait in waits {
        print_bar(out, events, lane, wait)?;
    }
    Ok(())
}

fn print_calls(out: &mut String, lane: u32, calls: &[Call]) -> Told
    ensures { OnOk result (string_bytes out.new ≡ string_bytes out.old ++ calls_text lane calls.now) }
{
    for call in calls {
        print_call(out, lane, call)?;
    }
    Ok(())
}

fn print_ends(out: &mut String, lane: u32, waits: &[Wait]) -> Told
    ensures { OnOk result (string_bytes out.new ≡ string_bytes out.old ++ ends_text lane waits.now) }
{
    for wait in waits {
        print_end_of(out, lane, wait)?;
    }
    Ok(())
}

/// Appends the bar of a wait, from its event to that of its end, or else to the end of the run.
fn print_bar(out: &mut String, events: u32, lane: u32, wait: &Wait) -> Told
    ensures { OnOk result (string_bytes out.new ≡ string_bytes out.old ++ bar_text events lane wait.now) }
{
    print_bar_line(out, across(wait.place), down(lane), bar_end(events, wait))?;
    push_title(out, wait.title.as_str())?;
    out.push_str("</path>\n")
}

#[tactic(auto, unfolding(crate::specs::Lanes::bar_line))]
fn print_bar_line(out: &mut String, from: u64, y: u64, right: u64) -> Told
    ensures { OnOk result (string_bytes out.new ≡ string_bytes out.old ++ bar_line from y right) }
{
    write!(out, "<path class='bar' d='M{from} {y} H{right}'>")
}

/// Where the bar of a wait ends.
fn bar_end(events: u32, wait: &Wait) -> u64
    ensures { result ≡ end_of events wait.now.end }
{
    match &wait.end {
        Some(end) => across(end.place),
        None => width(events),
    }
}

/// Appends a call: its place and its label above the lanes, and its mark.
fn print_call(out: &mut String, lane: u32, call: &Call) -> Told
    ensures { OnOk result (string_bytes out.new ≡ string_bytes out.old ++ call_text lane call.now) }
{
    print_place(out, call)?;
    print_mark(
        out,
        lane,
        call.place,
        mark_name(call.mark),
        call.title.as_str(),
    )
}

fn print_place(out: &mut String, call: &Call) -> Told
    ensures { OnOk result (string_bytes out.new ≡ string_bytes out.old ++ place_text call.now) }
{
    let x = across(call.place);
    print_number(out, x, call.place)?;
    print_label_at(out, x)?;
    push_escaped(out, call.label.as_str())?;
    out.push_str("</text>\n")
}

#[tactic(auto, unfolding(crate::specs::Lanes::number_text))]
fn print_number(out: &mut String, x: u64, place: u32) -> Told
    ensures { OnOk result (string_bytes out.new ≡ string_bytes out.old ++ number_text x place) }
{
    write!(out, "<text class='place' x='{x}' y='-8'>{place}</text>\n")
}

#[tactic(auto, unfolding(crate::specs::Lanes::label_at))]
fn print_label_at(out: &mut String, x: u64) -> Told
    ensures { OnOk result (string_bytes out.new ≡ string_bytes out.old ++ label_at x) }
{
    write!(
        out,
        "<text class='label' transform='translate({x} -24) rotate(-50)' dy='4'>"
    )
}

/// Appends a mark in a lane at the place of an event.
fn print_mark(out: &mut String, lane: u32, place: u32, name: &str, title: &str) -> Told
    ensures { OnOk result (string_bytes out.new ≡ string_bytes out.old ++ mark_text lane place name.now title.now) }
{
    print_use(out, name, across(place), down(lane))?;
    push_title(out, title)?;
    out.push_str("</use>\n")
}

#[tactic(auto, unfolding(crate::specs::Lanes::use_text))]
fn print_use(out: &mut String, name: &str, x: u64, y: u64) -> Told
    ensures { OnOk result (string_bytes out.new ≡ string_bytes out.old ++ use_text name.now x y) }
{
    write!(out, "<use href='#{name}' x='{x}' y='{y}'>")
}

/// The name of a mark among the symbols of the picture.
#[tactic(auto, unfolding(crate::specs::Lanes::name_of_mark))]
fn mark_name(mark: Mark) -> &'static str
    ensures { result.now ≡ name_of_mark mark }
{
    match mark {
        Mark::Granted => "granted",
        Mark::Refused => "refused",
        Mark::Waits => "waits",
    }
}

/// Appends the end of a wait, where it has one.
fn print_end_of(out: &mut String, lane: u32, wait: &Wait) -> Told
    ensures { OnOk result (string_bytes out.new ≡ string_bytes out.old ++ wait_end_text lane wait.now) }
{
    match &wait.end {
        Some(end) => print_end(out, lane, end),
        None => Ok(()),
    }
}

/// Appends an arrow from the mark of the call that ended a wait to the end of its bar, and a mark there.
fn print_end(out: &mut String, lane: u32, end: &End) -> Told
    ensures { OnOk result (string_bytes out.new ≡ string_bytes out.old ++ end_text lane end.now) }
{
    print_arrow(out, lane, end)?;
    print_mark(
        out,
        lane,
        end.place,
        mark_name(end.mark),
        end.title.as_str(),
    )
}

/// Appends an arrow that bends to the right, past the lanes between.
fn print_arrow(out: &mut String, lane: u32, end: &End) -> Told
    ensures { OnOk result (string_bytes out.new ≡ string_bytes out.old ++ arrow_text lane end.now) }
{
    let arrow = arrow_between(end.ender, lane);
    let x = across(end.place);
    print_start(out, arrow_class(end), x, arrow.from)?;
    print_curve(out, x, arrow)
}

#[tactic(auto, unfolding(crate::specs::Lanes::start_text))]
fn print_start(out: &mut String, class: &str, x: u64, from: u64) -> Told
    ensures { OnOk result (string_bytes out.new ≡ string_bytes out.old ++ start_text class.now x from) }
{
    write!(
        out,
        "<path class='{class}' marker-end='url(#tip)' d='M{x} {from}"
    )
}

#[tactic(auto, unfolding(crate::specs::Lanes::curve_text))]
fn print_curve(out: &mut String, x: u64, arrow: Arrow) -> Told
    requires { x + arrow.bend < 2 ^ 63 }
    ensures { OnOk result (string_bytes out.new ≡ string_bytes out.old ++ curve_text x arrow) }
{
    let Arrow {
        from,
        near,
        to,
        bend,
    } = arrow;
    let bent = x + bend;
    write!(out, " C{bent} {from} {bent} {near} {x} {to}'/>\n")
}

/// How an arrow is drawn.
#[tactic(auto, unfolding(crate::specs::Lanes::class_of_arrow))]
fn arrow_class(end: &End) -> &'static str
    ensures { result.now ≡ class_of_arrow end.now }
{
    if end.is_by_clock { "clock" } else { "ends" }
}

/// From which height to which an arrow goes, at which height it turns to its tip, and how far it bends to the right.
#[derive(Clone, Copy, Debug)]
struct Arrow {
    from: u64,
    near: u64,
    to: u64,
    bend: u64,
}

/// The arrow from the mark of a lane to that of another one.
fn arrow_between(from: u32, to: u32) -> Arrow
    ensures value { result ≡ arrow_of from to }
    ensures bound { result.bend ≤ 20 }
{
    let bend = bend_between(from, to);
    if from < to {
        Arrow {
            from: down(from) + 11,
            near: down(to) - 28,
            to: down(to) - 14,
            bend,
        }
    } else {
        Arrow {
            from: down(from) - 11,
            near: down(to) + 28,
            to: down(to) + 14,
            bend,
        }
    }
}

/// An arrow to the next lane is straight.
fn bend_between(from: u32, to: u32) -> u64
    ensures value { result ≡ bend_of from to }
    ensures bound { result ≤ 20 }
{
    if from.abs_diff(to) < 2 { 0 } else { 20 }
}
