// The jobs of a plan.
ghost use Rattle.std.specs.Prelude.{◌≡◌, ◌≤◌, ◌<◌, ◌+◌, length, All};
ghost use Rattle.crew_terms.specs.Instance.{task_of};
ghost use Rattle.crew_terms.specs.Legal.{IsLegal};
ghost use Rattle.crew_terms.specs.declared.TheConstants.{LAST_MINUTE};
ghost use Rattle.crew_io.specs.Puts.{Puts};
ghost use Rattle.plan_chart.specs.Jobs.{job_group, job_text};

use crate::bars::Bars;
use crate::looks::{Look, look_of};
use crate::titles::put_title;
use crew_instance::{Instance, Plan};
use crew_io::put::put_all;
use crew_io::sink::{Sink, WriteFault};
use each_out::{Writes, put_each};
use round_changes::Round;

/// The job of task `j` that begins at this minute, by these teams: what is told of it, and a bar for each team.
fn put_job<K: Sink>(
    out: &mut K,
    instance: &Instance,
    plan: &Plan,
    look: Look,
    j: u32,
    start: u32,
    teams: &[u32],
) -> Result<(), WriteFault>
    requires task { j < length instance.now.tasks }
    requires whole { length plan.now ≡ length instance.now.tasks }
    requires day { start + (task_of instance.now j).minutes ≤ LAST_MINUTE }
    requires known { All (λ k. k < length instance.now.teams) teams.now }
    ensures { Puts K.Sink (job_group instance.now plan.now look j start teams.now)
        out.old out.new result }
{
    put_title(out, instance, look, j, start, teams)?;
    let bars = Bars {
        instance,
        plan,
        look,
        j,
        start,
    };
    put_each(out, &bars, teams)?;
    put_all(out, b"</g>")
}

/// The jobs of a legal plan: for each a bar in the row of each of its teams, from the minute at which it begins and as wide
/// as its minutes. What is different since the round before is marked.
#[derive(Drop)]
pub struct Jobs<'a> {
    /// The tasks and the teams.
    pub instance: &'a Instance,
    /// The jobs.
    pub plan: &'a Plan,
    /// What is kept of the round before, if there was one.
    pub before: &'a Option<Round>,
    /// The same of this round.
    pub now: &'a Round,
}

impl Writes<u32> for Jobs<'_> {
    ghost use Rattle.std.specs.Prelude.{◌<◌, length};
    ghost use Rattle.crew_terms.specs.Legal.{IsLegal};
    ghost use Rattle.crew_terms.specs.Rules.{IsInstance};

    ghost text = { λ s j. job_text s.instance.now s.plan.now s.before.now s.now.now j };

    ghost has_text = { λ s j. IsInstance s.instance.now × IsLegal s.instance.now s.plan.now
        × (j < length s.plan.now) };

    fn write<K: Sink>(&self, out: &mut K, item: &u32) -> Result<(), WriteFault> {
        let j = *item;
        match self.plan.start(j) {
            Some(start) => {
                let look = look_of(self.instance, self.plan, self.before, self.now, j);
                let teams = self.plan.teams(j);
                put_job(out, self.instance, self.plan, look, j, start, teams)
            }
            None => Ok(()),
        }
    }
}
