// When a plan stays legal with a job more, and what the job changes. Each law is the contract of a function with nothing
// to do.
ghost use Rattle.std.specs.Prelude.{◌≡◌, ◌<◌, ◌+◌, ◌↔◌, ℕ, List, length, None, Contains};
ghost use Rattle.crew_terms.specs.Instance.{Instance};
ghost use Rattle.crew_terms.specs.Plan.{Plan, Job, job_of, unassigned_count};
ghost use Rattle.crew_terms.specs.Legal.{IsFeasible, IsLegal, IsPacked};
ghost use Rattle.crew_instance.specs.Turns.{AreTurns};
ghost use Rattle.crew_instance.specs.declared.turns.Turn.{Turn};
ghost use Rattle.team_days.specs.declared.obstacles.Obstacle.{Obstacle};
ghost use Rattle.team_days.specs.declared.obstacles.Obstacle.TheVariants.{Free, Busy};
ghost use Rattle.team_days.specs.Free.{IsFreeFor};
ghost use Rattle.team_days.specs.Obstacles.{obstacle_of};
ghost use Rattle.team_days.specs.Adding.{AreFree, FitsNowhere, IsAddition, Keeps, with_job};

/// A plan stays feasible, and legal, with a job of an unassigned task exactly where each of the job's teams can take it
/// into its day. So a legal plan is packed exactly where no unassigned task has enough such teams at any minute.
pub fn free_teams_may_begin()
    ensures feasible { (i : Instance) (p : Plan) (j : ℕ) (job : Job) → IsFeasible i p
        → IsAddition i p j job →
        IsFeasible i (with_job p j job) ↔ AreFree i p j job }
    ensures legal { (i : Instance) (p : Plan) (j : ℕ) (job : Job) → IsLegal i p
        → IsAddition i p j job →
        IsLegal i (with_job p j job) ↔ AreFree i p j job }
    ensures packed { (i : Instance) (p : Plan) → IsLegal i p → IsPacked i p
        ↔ ((j : ℕ) → FitsNowhere i p j) }
{}

/// In a feasible plan nothing keeps a team from a task exactly where the team can take it into its day; a task that does is
/// one of the instance.
pub fn obstacles_are_told()
    ensures free { (i : Instance) (p : Plan) (k j t : ℕ) → IsFeasible i p → k < length i.teams →
        (obstacle_of i p k j t ≡ Free) ↔ IsFreeFor i p k j t }
    ensures busy { (i : Instance) (p : Plan) (k j t h : ℕ) → IsFeasible i p →
        obstacle_of i p k j t ≡ Busy h → h < length i.tasks }
{}

/// A job of an unassigned task changes what its own teams do alone.
pub fn other_days_stay()
    ensures { (p : Plan) (j : ℕ) (job : Job) (k n : ℕ) (turns : List Turn) → j < length p
        → job_of p j ≡ None →
        ¬ (Contains job.teams k) → AreTurns p k n turns → AreTurns (with_job p j job) k n turns }
{}

/// A plan keeps its jobs where a job of an unassigned task is added, and one task less is unassigned then.
pub fn jobs_stay()
    ensures keeps { (p : Plan) (j : ℕ) (job : Job) → j < length p → job_of p j ≡ None
        → Keeps p (with_job p j job) }
    ensures count { (p : Plan) (j : ℕ) (job : Job) → j < length p → job_of p j ≡ None →
        unassigned_count (with_job p j job) + 1 ≡ unassigned_count p }
{}
