//! How statements are run: by so many workers, each under the policy that the words name.

ghost use Rattle.std.specs.Prelude.{◌≡◌, IfOk, length, map};
ghost use Rattle.std.specs.List.{range_with_len};
ghost use Rattle.run_answers.specs.Settings.{AreSettings, fresh_of};

use command_line::PolicyName;
use route_policy::{AnyPolicy, Greedy, Lottery, Policy, Pressure, RouteScript};
use sq_value::{Memory, SqText};
use std::alloc::Global;

/// The number of workers, 1 to 16, the policy's name, the seed of the lottery, the text of the route
/// script, the room of each worker's cache of predicates' answers, 0 to 4,096, where 0 is none, and
/// whether a line of counts is wanted for each statement, and whether all statements run together, which
/// then have one line.
#[derive(Debug, Drop)]
pub struct Settings {
    /// The number of workers, 1 to 16.
    pub workers: u32,
    /// The policy's name.
    pub policy: PolicyName,
    /// The seed of the lottery.
    pub seed: u64,
    /// The text of the route script.
    pub route: SqText,
    /// The room of each worker's cache of predicates' answers, 0 to 4,096; 0 is none.
    pub cache: u32,
    /// Whether a line of counts is wanted for each statement.
    pub tally: bool,
    /// Whether all statements run together, which then have one line of counts.
    pub shared: bool,
}

// A policy that is told that rows of each alias have come.
fn touched_by_all(policy: AnyPolicy) -> AnyPolicy {
    let mut policy = policy;
    for alias in 0..12 {
        policy.touched(alias);
    }
    policy
}

impl Settings {
    /// The policy of the worker with this number, as it is before its first choice. Each worker has one
    /// of its own for each statement. The seed of its lottery is the given one and the worker's number,
    /// added in 64 bits.
    pub fn fresh_policy(&self, worker: u32) -> AnyPolicy
        requires { AreSettings self.now }
        ensures { result ≡ fresh_of self.now worker }
    {
        match self.policy {
            PolicyName::Lottery => {
                AnyPolicy::Lottery(Lottery::new(self.seed.wrapping_add(u64::from(worker))))
            }
            PolicyName::Pressure => AnyPolicy::Pressure(Pressure::new()),
            PolicyName::Greedy => AnyPolicy::Greedy(Greedy::new()),
            PolicyName::Script => {
                AnyPolicy::Script(RouteScript::read(self.route.as_str()).unwrap())
            }
        }
    }

    /// The policies of all workers, in the order of their numbers, each before its first choice.
    ///
    /// # Errors
    /// There is no memory for their list.
    pub fn fresh_policies(&self, alloc: Global) -> Result<Vec<AnyPolicy>, Memory>
        requires { AreSettings self.now }
        ensures { IfOk result (λ policies. policies.items
            ≡ map (fresh_of self.now) (range_with_len 0 self.now.workers)) }
    {
        let mut policies = Vec::new(alloc);
        for worker in 0..self.workers {
            policies.push(self.fresh_policy(worker))?;
        }
        Ok(policies)
    }

    /// The policies of all workers of a shared run, each before its first choice, but told that rows of each alias have
    /// come. A module has the rows of several aliases there, so that an alias may meet rows before its own first one.
    ///
    /// # Errors
    /// There is no memory for their list.
    pub(crate) fn shared_policies(&self, alloc: Global) -> Result<Vec<AnyPolicy>, Memory>
        requires { AreSettings self.now }
        ensures { IfOk result (λ policies. length policies.items ≡ self.now.workers) }
    {
        let mut policies = Vec::new(alloc);
        for worker in 0..self.workers {
            policies.push(touched_by_all(self.fresh_policy(worker)))?;
        }
        Ok(policies)
    }
}
