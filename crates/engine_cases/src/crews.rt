//! Runs of a block by so many workers, and a gate that watches them.

ghost use Rattle.std.specs.Prelude.{◌≡◌, ◌<◌, ◌≤◌, IfOk, length};

use bag_meaning::Combo;
use eddy_core::Answered;
use eddy_query::Fitting;
use eddy_worker::{Gate, Moment, run_many};
use route_policy::{AnyPolicy, Greedy, Lottery, Pressure, RouteScript};
use sq_value::NoPredicates;
use std::alloc::Global;
use std::sync::Wait;
use std::sync::atomic::{AtomicU64, Ordering};
use std::test::Fail;
use std::thread;
use std::thread::Threads;

// The script of a text, or back pressure.
fn script_of(text: &str) -> AnyPolicy {
    match RouteScript::read(text) {
        Ok(script) => AnyPolicy::Script(script),
        Err(_) => AnyPolicy::Pressure(Pressure::new()),
    }
}

// A policy for the worker of a number, where the script `v0` isn't wanted for all.
fn policy_of(number: usize, scripts: bool) -> AnyPolicy {
    if scripts {
        return script_of("v0");
    }
    match number {
        0 => AnyPolicy::Lottery(Lottery::new(1)),
        1 => AnyPolicy::Greedy(Greedy::new()),
        2 => AnyPolicy::Pressure(Pressure::new()),
        _ => script_of("b,a1,v0"),
    }
}

/// Policies for so many workers: the script `v0`, or each another one.
pub fn policies_of(alloc: Global, workers: usize, scripts: bool) -> Result<Vec<AnyPolicy>, Fail>
    ensures { IfOk result (λ p. length p.items ≡ workers) }
{
    let mut policies = Vec::new(alloc);
    for number in 0..workers {
        policies.push(policy_of(number, scripts))?;
    }
    Ok(policies)
}

/// What so many workers answer for a block.
///
/// # Errors
/// There is no memory for it.
pub fn run_by<'t, R: Threads + Wait + Sync>(
    rt: &R,
    alloc: Global,
    query: &Fitting<'t, NoPredicates>,
    workers: usize,
    scripts: bool,
    gate: &Watch,
) -> Result<Answered<'t>, Fail>
    requires workers { (0 < workers) × (workers ≤ 16) }
{
    let policies = policies_of(alloc, workers, scripts)?;
    let many = run_many(rt, alloc, query, policies, gate)?;
    Ok(many.answered)
}

/// The rows of the first two aliases of each combination, in order.
pub fn pairs_of(alloc: Global, combos: &[Combo]) -> Result<Vec<(u32, u32)>, Fail> {
    let mut pairs = Vec::new(alloc);
    for combo in combos {
        pairs.push((combo.rows[0], combo.rows[1]))?;
    }
    pairs.sort()?;
    Ok(pairs)
}

/// Appends pairs, each after a blank.
pub fn push_pairs(alloc: Global, told: &mut String, pairs: &[(u32, u32)]) -> Result<(), Fail> {
    for pair in pairs {
        told.push_str(format!(in alloc; " {},{}", pair.0, pair.1)?.as_str())?;
    }
    Ok(())
}

/// How many rows were built and keys looked up, and the rows of the first two aliases of each combination, in order.
pub fn told_of(alloc: Global, answered: &Answered<'_>) -> Result<String, Fail> {
    let (rows, keys) = (answered.built.len(), answered.looked.len());
    let mut told = format!(in alloc; "{rows} {keys}")?;
    let pairs = pairs_of(alloc, answered.combos.as_slice())?;
    push_pairs(alloc, &mut told, pairs.as_slice())?;
    Ok(told)
}

/// A gate that wants each turn of a module told twice by its worker: that it has it, and next that it gave it back.
/// It counts turns, and puts into the pool.
///
/// Some workers may meet there: each waits in its first turn of the module of its own number until all of them are in
/// such turns, or for 50,000,000 rounds. How many waited in vain is counted.
#[derive(Drop)]
pub struct Watch {
    // For each worker one more than the alias whose module it holds, and 0 where it holds none.
    holds: Vec<AtomicU64>,
    turns: AtomicU64,
    wrong: AtomicU64,
    puts: AtomicU64,
    // Bit w stands for worker w.
    there: AtomicU64,
    all: u64,
    late: AtomicU64,
}

/// A gate at which no worker holds a module, and the workers of these bits meet.
pub fn watching(alloc: Global, all: u64) -> Result<Watch, Fail> {
    let mut holds = Vec::new(alloc);
    for _ in 0..17 {
        holds.push(AtomicU64::new(0))?;
    }
    Ok(Watch {
        holds,
        turns: AtomicU64::new(0),
        wrong: AtomicU64::new(0),
        puts: AtomicU64::new(0),
        there: AtomicU64::new(0),
        all,
        late: AtomicU64::new(0),
    })
}

impl Watch {
    // A worker that held one thing holds another. Where it held something else, something is wrong.
    fn change(&self, worker: u32, before: u64, now: u64) {
        let held = match self.holds.get(worker as usize) {
            Some(holds) => holds.swap(now, Ordering::SeqCst),
            None => 99,
        };
        if held != before {
            self.wrong.fetch_add(1, Ordering::SeqCst);
        }
    }

    /// How many turns were told whole, or 0 if something is wrong or a module is held.
    pub fn turns(&self) -> u64 {
        for holds in self.holds.iter() {
            if holds.load(Ordering::SeqCst) != 0 {
                return 0;
            }
        }
        if self.wrong.load(Ordering::SeqCst) != 0 {
            return 0;
        }
        self.turns.load(Ordering::SeqCst)
    }

    /// How many tuples were put into the pool.
    pub fn puts(&self) -> u64 {
        self.puts.load(Ordering::SeqCst)
    }

    /// Whether all that were to meet met, and none waited in vain.
    pub fn have_met(&self) -> bool {
        self.there.load(Ordering::SeqCst) == self.all && self.late.load(Ordering::SeqCst) == 0
    }

    // Waits until all are there.
    fn wait(&self) {
        for _ in 0..50_000_000_u32 {
            if self.there.load(Ordering::SeqCst) == self.all {
                return;
            }
            thread::yield_now();
        }
        self.late.fetch_add(1, Ordering::SeqCst);
    }

    // A worker is in a turn of its module.
    fn meet(&self, worker: u32, alias: u32) {
        if worker == alias && worker < 4 && (self.all >> worker) % 2 == 1 {
            self.there.fetch_or(1 << worker, Ordering::SeqCst);
            self.wait();
        }
    }
}

impl Gate for Watch {
    fn at(&self, worker: u32, moment: Moment) {
        match moment {
            Moment::Holding(alias) => {
                self.change(worker, 0, u64::from(alias).saturating_add(1));
                self.meet(worker, alias);
            }
            Moment::Gave(alias) => {
                self.change(worker, u64::from(alias).saturating_add(1), 0);
                self.turns.fetch_add(1, Ordering::SeqCst);
            }
            Moment::Pooled => {
                self.puts.fetch_add(1, Ordering::SeqCst);
            }
        }
    }
}
