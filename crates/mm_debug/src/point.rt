//! Points: states of a session that are kept apart from the session.

ghost use Rattle.std.specs.Prelude.{◌≡◌, IfOk};
ghost use Rattle.mm_model.specs.Image.{Image};
ghost use Rattle.mm_debug.specs.Shown.{session_of};
ghost use Rattle.mm_debug.specs.Standing.{Point as PointValue, StandsFor, PointStandsFor, IsPointOf, CanGo, gone};
ghost use Rattle.mm_debug.specs.Standing.{total_at};

use crate::session::Session;
use mm_machine::Snapshot;
use mm_mem::{Inspect, Reset};
use mm_sched::Robin;
use mm_word::NoMemory;
use std::alloc::Global;
use std::marker::Model;

/// The state of a session's machine, and the place of its round robin. Breaks and watches are not part of it.
#[derive(Drop)]
pub struct Point {
    snapshot: Snapshot,
    robin: Robin,
}

impl Model for Point {
    ghost use Rattle.mm_debug.specs.Standing.{Point};

    ghost Value = { Point };

    ghost view = { λ p. record { snapshot = p.snapshot; last = p.robin } };
}

impl Point {
    /// The count of cycles that the session had issued.
    pub fn total(&self) -> u64
        ensures { result ≡ total_at self.now }
    {
        self.snapshot.cycles()
    }

    /// The state of the session's machine.
    pub fn snapshot(&self) -> &Snapshot
        ensures { result.now ≡ self.now.snapshot }
    {
        &self.snapshot
    }
}

impl<M: Inspect> Session<M> {
    /// The session as it is now, without its order, breaks and watches. `NoMemory` comes if memory ran out.
    pub fn point(&self, alloc: Global) -> Result<Point, NoMemory>
        ensures point { IfOk result (IsPointOf (session_of self.now)) }

        // The session can go to the point.
        ensures fits { IfOk result (CanGo (session_of self.now)) }

        // The point stands for every image for which the session does.
        ensures stands { (i : Image) → StandsFor i (session_of self.now)
            → IfOk result (PointStandsFor i (session_of self.now).order) }
    {
        let snapshot = self.machine.snapshot(alloc)?;
        Ok(Point {
            snapshot,
            robin: self.robin,
        })
    }
}

impl<M: Reset> Session<M> {
    /// Goes to a point. State, total and the place of round robin are then those of the point. Order, breaks and
    /// watches stay. Takes no memory.
    pub fn go(&mut self, p: &Point)
        requires { CanGo (session_of self.old) p.now }
        ensures session { session_of self.new ≡ gone (session_of self.old) p.now }

        // The session stands for every image for which it stood and the point stands.
        ensures stands { (i : Image) → StandsFor i (session_of self.old)
            → PointStandsFor i (session_of self.old).order p.now → StandsFor i (session_of self.new) }

        // The session can still go to each point to which it could go.
        ensures fits { (q : PointValue) → CanGo (session_of self.old) q → CanGo (session_of self.new) q }
    {
        self.machine.restore(&p.snapshot);
        self.robin = p.robin;
    }
}
