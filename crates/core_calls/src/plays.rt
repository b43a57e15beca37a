//! A run of two workers whose worlds lie in memory, event by event.
ghost use Rattle.std.specs.Prelude.{◌≡◌, ◌≤◌, All, IsTrue, IfOk};
ghost use Rattle.px_base.specs.Values.{IsValue};
ghost use Rattle.px_base.specs.Worlds.{CarriesValues};
ghost use Rattle.hub_terms.specs.Systems.{AnswersValues};

use crate::jobs::CutJob;
use hub_terms::{Limits, Why};
use px_base::{Answer, LossKind, Order, TOP, Update, Value};
use recovery::{Given, Turn};
use std::alloc::Global;
use std::marker::Model;
use std::process::Abort;
use std::test::Fail;
use std::thread::Threads;
use system_core::System;
use worker_world::World;

/// What a worker is told that asks for a turn.
#[derive(Drop)]
enum Told {
    Work(Given),
    Wait,
    Done(Vec<Value>),
    Stop(Why),
}

/// What a whole run comes to.
#[derive(Debug, PartialEq, Eq, Drop)]
pub enum Outcome {
    /// All is done, with these values of all vertices.
    Done(Vec<Value>),
    /// The run stopped.
    Stopped(Why),
}

/// Writes each update as ` vertex:value`.
fn write_updates(out: &mut String, updates: &[Update]) -> Result<(), Fail> {
    for update in updates {
        write!(out, " {}:{}", update.vertex, update.value)?;
    }
    Ok(())
}

/// Writes each value.
fn write_values(out: &mut String, values: &[Value]) -> Result<(), Fail> {
    for value in values {
        write!(out, " {value}")?;
    }
    Ok(())
}

/// Writes the order: its kind, epoch, round and updates.
fn write_order(out: &mut String, order: &Order) -> Result<(), Fail> {
    match order {
        Order::Step {
            epoch,
            round,
            updates,
        } => {
            write!(out, "step {epoch} {round}")?;
            write_updates(out, updates.as_slice())
        }
        Order::Report { epoch } => {
            write!(out, "report {epoch}")?;
            Ok(())
        }
    }
}

/// Writes the answer: its kind, epoch and round, whether a master changed, and the updates; or the values.
fn write_answer(out: &mut String, answer: &Answer) -> Result<(), Fail> {
    match answer {
        Answer::Stepped {
            epoch,
            round,
            changed,
            updates,
        } => {
            let change = if *changed { "changed" } else { "same" };
            write!(out, "stepped {epoch} {round} {change}")?;
            write_updates(out, updates.as_slice())
        }
        Answer::Reported { epoch, values } => {
            write!(out, "reported {epoch}")?;
            write_values(out, values.as_slice())
        }
    }
}

/// Whether each value is one.
fn all_values(values: &[Value]) -> bool
    ensures { IsTrue result → All IsValue values.now }
{
    values.iter().all(|value| *value <= TOP)
}

/// Whether each update carries a value.
fn all_carry_values(updates: &[Update]) -> bool
    ensures { IsTrue result → CarriesValues updates.now }
{
    updates.iter().all(|update| update.value <= TOP)
}

/// Whether each value of the answer is one.
fn answers_values(answer: &Answer) -> bool
    ensures { IsTrue result → AnswersValues answer.now }
{
    match answer {
        Answer::Stepped { updates, .. } => all_carry_values(updates.as_slice()),
        Answer::Reported { values, .. } => all_values(values.as_slice()),
    }
}

/// A worker's world, and the order that it hasn't answered yet.
#[derive(Drop)]
struct Seat {
    world: Option<World>,
    given: Option<Given>,
}

/// What the world of the seat answers to its order.
fn answer_of<R: Threads + Sync>(rt: &R, seat: &mut Seat) -> Result<Answer, Fail> {
    if let Some(world) = &mut seat.world {
        if let Some(given) = &seat.given {
            let answer = world.step(rt, given.order())?;
            return Ok(answer);
        }
    }
    Err(Fail::new("nobody to answer"))
}

/// A run of a job by two workers.
#[derive(Drop)]
pub struct Play {
    alloc: Global,
    job: CutJob,
    system: System,
    seats: Vec<Seat>,
}

impl Model for Play {
    ghost use Rattle.std.specs.Prelude.{◌≡◌, false};

    ghost Value = { Unit };

    ghost view = { λ _. tt };

    ghost invariant = { λ p. p.system.told ≡ false };
}

impl Play {
    /// A run before its first event, in which no worker is ahead of another, with so many rounds, and at most two losses.
    pub fn new(alloc: Global, job: CutJob, rounds: u64) -> Result<Play, Fail> {
        if rounds < 1 || rounds > 1000 {
            return Err(Fail::new("no such number of rounds"));
        }
        let limits = Limits {
            lag: 0,
            rounds,
            losses: 2,
        };
        let system = job.system(alloc, limits)?;
        let mut seats = Vec::new(alloc);
        for _ in 0..2 {
            seats.push(Seat {
                world: None,
                given: None,
            })?;
        }
        Ok(Play {
            alloc,
            job,
            system,
            seats,
        })
    }

    /// Puts the world and the order in place of the worker's.
    fn put(&mut self, i: u32, seat: Seat) -> Result<(), Fail> {
        if i as usize >= self.seats.len() {
            return Err(Fail::new("no such seat"));
        }
        self.seats[i as usize] = seat;
        Ok(())
    }

    /// A new worker joins, with the new world of its part.
    fn join(&mut self, i: u32) -> Result<(), Fail> {
        if i >= self.system.worker_count() {
            return Err(Fail::new("no such worker"));
        }
        if self.system.is_live(i) || self.system.halted().is_some() {
            return Err(Fail::new("nobody may join"));
        }
        let world = self.job.world(self.alloc, i)?;
        self.system.joined(i);
        self.put(
            i,
            Seat {
                world: Some(world),
                given: None,
            },
        )
    }

    /// The worker is lost, with its world and its order.
    fn lose(&mut self, i: u32) -> Result<(), Fail> {
        if i >= self.system.worker_count() {
            return Err(Fail::new("no such worker"));
        }
        if !self.system.is_live(i) {
            return Err(Fail::new("nobody to lose"));
        }
        self.system.lost(i, LossKind::Ended);
        self.put(
            i,
            Seat {
                world: None,
                given: None,
            },
        )
    }

    /// Gives the worker a turn.
    fn give(&mut self, i: u32) -> Result<Told, Fail> {
        if i >= self.system.worker_count() {
            return Err(Fail::new("no such worker"));
        }
        if !self.system.is_live(i) || self.system.has_order(i) {
            return Err(Fail::new("nobody to give a turn"));
        }
        match self.system.give(i)? {
            Turn::Work(given) => Ok(Told::Work(given)),
            Turn::Wait => Ok(Told::Wait),
            Turn::Done => Ok(Told::Done(self.system.values().to_vec(self.alloc)?)),
            Turn::Stop(why) => Ok(Told::Stop(why)),
        }
    }

    /// The order stays with the worker until it is answered.
    fn keep_order(&mut self, i: u32, given: Given) -> Result<(), Fail> {
        if i as usize >= self.seats.len() {
            return Err(Fail::new("no such seat"));
        }
        self.seats[i as usize].given = Some(given);
        Ok(())
    }

    /// What the worker's world answers to its order.
    fn answer<R: Threads + Sync>(&mut self, rt: &R, i: u32) -> Result<Answer, Fail> {
        if i as usize >= self.seats.len() {
            return Err(Fail::new("no such seat"));
        }
        answer_of(rt, &mut self.seats[i as usize])
    }

    /// The system takes the worker's answer.
    fn take(&mut self, i: u32, answer: &Answer) -> Result<(), Fail> {
        if i >= self.system.worker_count() {
            return Err(Fail::new("no such worker"));
        }
        if !self.system.has_order(i) || !answers_values(answer) {
            return Err(Fail::new("nothing to take"));
        }
        self.system.took(i, answer)?;
        Ok(())
    }

    /// Gives the worker a turn, and writes what it is told.
    fn write_told(&mut self, i: u32, out: &mut String) -> Result<(), Fail> {
        match self.give(i)? {
            Told::Work(given) => {
                write_order(out, given.order())?;
                self.keep_order(i, given)
            }
            Told::Wait => Ok(out.push_str("wait")?),
            Told::Done(values) => {
                out.push_str("done")?;
                write_values(out, &values)
            }
            Told::Stop(_) => Ok(out.push_str("stop")?),
        }
    }

    /// Takes the answer of the worker's world to its order, and writes it.
    fn write_answered<R: Threads + Sync>(
        &mut self,
        rt: &R,
        i: u32,
        out: &mut String,
    ) -> Result<(), Fail> {
        let answer = self.answer(rt, i)?;
        write_answer(out, &answer)?;
        self.take(i, &answer)
    }

    /// Lets worker `i` join or be lost, where the event says so. Else the worker answers, or has a turn, and what comes of it
    /// has to be the event.
    pub fn play<R: Abort + Threads + Sync>(
        &mut self,
        rt: &R,
        i: u32,
        event: &str,
    ) -> Result<(), Fail> {
        if event == "joined" {
            return self.join(i);
        }
        if event == "lost" {
            return self.lose(i);
        }
        let mut came = String::new(self.alloc);
        if event.starts_with("stepped") || event.starts_with("reported") {
            self.write_answered(rt, i, &mut came)?;
        } else {
            self.write_told(i, &mut came)?;
        }
        assert_eq!(rt; came.as_str(), event);
        Ok(())
    }

    /// One turn of the worker with its answer, and what the run comes to, if it comes to an end.
    fn turn<R: Threads + Sync>(&mut self, rt: &R, i: u32) -> Result<Option<Outcome>, Fail> {
        match self.give(i)? {
            Told::Work(given) => {
                self.keep_order(i, given)?;
                let answer = self.answer(rt, i)?;
                self.take(i, &answer)?;
                Ok(None)
            }
            Told::Wait => Ok(None),
            Told::Done(values) => Ok(Some(Outcome::Done(values))),
            Told::Stop(why) => Ok(Some(Outcome::Stopped(why))),
        }
    }

    /// Lets both workers join and have turns one after the other, until the run ends.
    pub fn run<R: Threads + Sync>(&mut self, rt: &R) -> Result<Outcome, Fail> {
        self.join(0)?;
        self.join(1)?;
        for turn in 0..1000u32 {
            if let Some(outcome) = self.turn(rt, turn % 2)? {
                return Ok(outcome);
            }
        }
        Err(Fail::new("no end after 1000 turns"))
    }
}
