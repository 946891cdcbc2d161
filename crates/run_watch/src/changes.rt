//! What changes in queues and semaphores.

use ipc_call::{Memory, Row};
use ipc_space::Space;
use run_picture::{Point, Series};
use std::alloc::Global;

/// What is watched: the clock, the bytes of a queue, or a semaphore of a set.
#[derive(Clone, Copy, Debug, PartialEq, Eq)]
enum Part {
    Clock,
    Queue { id: u32 },
    Semaphore { id: u32, num: u32 },
}

/// What is watched, and what was seen of it.
#[derive(Debug, Drop)]
struct Watched {
    part: Part,
    points: Vec<Point>,
    /// The place of the latest event that left it.
    seen: u32,
    removed: Option<u32>,
}

/// What was seen of all queues and semaphores.
#[derive(Debug, Drop)]
pub(crate) struct Changes {
    alloc: Global,
    all: Vec<Watched>,
}

impl Changes {
    pub(crate) fn new(alloc: Global) -> Changes {
        Changes {
            alloc,
            all: Vec::new(alloc),
        }
    }

    /// Looks at all after the event at this place.
    pub(crate) fn look(&mut self, space: &Space, place: u32) -> Result<(), Memory> {
        let value = u32::try_from(space.clock()).unwrap_or(u32::MAX);
        self.see(Part::Clock, Point { place, value })?;
        for (row, values) in space.lines()? {
            self.look_at(&row, values.as_slice(), place)?;
        }
        for watched in &mut self.all {
            if watched.removed.is_none() && watched.seen != place {
                watched.removed.insert(place);
            }
        }
        Ok(())
    }

    fn look_at(&mut self, row: &Row, values: &[u16], place: u32) -> Result<(), Memory> {
        match row {
            Row::Queue { object, cbytes, .. } => {
                let (id, value) = (object.id, u32::try_from(*cbytes).unwrap_or(u32::MAX));
                self.see(Part::Queue { id }, Point { place, value })
            }
            Row::Set { object, .. } => {
                let id = object.id;
                for (num, value) in (0..u32::MAX).zip(values) {
                    let value = u32::from(*value);
                    self.see(Part::Semaphore { id, num }, Point { place, value })?;
                }
                Ok(())
            }
            Row::Segment { .. } => Ok(()),
        }
    }

    /// Notes a value that was seen.
    fn see(&mut self, part: Part, point: Point) -> Result<(), Memory> {
        for watched in &mut self.all {
            if watched.part == part && watched.removed.is_none() {
                watched.seen = point.place;
                return add_change(&mut watched.points, point);
            }
        }
        let mut points = Vec::new(self.alloc);
        points.push(point)?;
        self.all.push(Watched {
            part,
            points,
            seen: point.place,
            removed: None,
        })?;
        Ok(())
    }

    /// The series of those that have changed.
    pub(crate) fn into_series(self) -> Result<Vec<Series>, Memory> {
        let Changes { alloc, all } = self;
        let mut series = Vec::new(alloc);
        for watched in all {
            if watched.points.len() > 1 {
                let number = u32::try_from(series.len()).unwrap_or(u32::MAX);
                series.push(series_of(alloc, number, watched)?)?;
            }
        }
        Ok(series)
    }
}

/// Appends a point, where the value has changed.
fn add_change(points: &mut Vec<Point>, point: Point) -> Result<(), Memory> {
    if points.last().map_or(0, |last| last.value) != point.value {
        points.push(point)?;
    }
    Ok(())
}

fn series_of(alloc: Global, number: u32, watched: Watched) -> Result<Series, Memory> {
    let Watched {
        part,
        points,
        removed,
        ..
    } = watched;
    let (object, part) = match part {
        Part::Clock => (
            String::from_str(alloc, "clock")?,
            String::from_str(alloc, "seconds")?,
        ),
        Part::Queue { id } => (
            format!(in alloc; "queue {id}")?,
            String::from_str(alloc, "bytes")?,
        ),
        Part::Semaphore { id, num } => (
            format!(in alloc; "set {id}")?,
            format!(in alloc; "semaphore {num}")?,
        ),
    };
    Ok(Series {
        number,
        object,
        part,
        points,
        removed,
    })
}
