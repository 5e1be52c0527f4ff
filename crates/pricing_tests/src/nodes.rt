// Small nodes, drawn from a seed, against every route that is written out.
ghost use Rattle.std.specs.Prelude.{◌≤◌};

use crate::asserts::{same, same_at};
use crate::priced::{Offer, earned, priced, prices_of};
use crew_fixtures::{builder_of, numbered, task, team};
use crew_instance::{Instance, Task, Team};
use crew_terms::Pair;
use label_pricing::Pricer;
use node_limits::Limits;
use rand_core::utils::NextWord;
use rand_pcg::Lcg64Xsh32;
use std::alloc::{Alloc, AllocError, Global};
use std::process::Abort;
use std::test::Fail;

/// One of the numbers below `n`, or 0.
fn draw(words: &mut Lcg64Xsh32, n: u32) -> u32
    ensures { result ≤ n }
{
    words.next_word().checked_rem(n).unwrap_or(0).min(n)
}

/// These teams, and four tasks at three places with windows of up to six minutes.
fn small_day(alloc: Global, words: &mut Lcg64Xsh32, teams: &[Team]) -> Result<Instance, Fail> {
    let mut day = builder_of(alloc, &[b"BASE", b"G1", b"G2"], 1, teams, &[])?;
    for from in 0..3 {
        for to in 0..3 {
            day.travel(from, to, draw(words, 6))?;
        }
    }
    for j in 0..4 {
        let earliest = 400 + draw(words, 20);
        day.task(Task {
            name: numbered(j)?,
            place: draw(words, 3),
            earliest,
            latest: earliest + draw(words, 6),
            minutes: 1 + draw(words, 6),
            ..task(b"A")?
        })?;
    }
    Ok(day.finish()?)
}

/// The most that team `k` can earn from task `j` at minute `t` on, by at most so many further visits.
fn best_from(limits: &Limits<'_>, offer: Offer<'_>, k: u32, j: u32, t: u32, visits: u32) -> i64 {
    let mut most = 0i64;
    if visits > 0 {
        for h in 0..limits.instance().tasks() as u32 {
            let (from, until) = limits.window(h);
            for u in from.max(t.saturating_add(1))..=until {
                if (j as usize) < limits.instance().tasks()
                    && (k as usize) < limits.instance().teams()
                    && limits.may_visit(k, h, u)
                    && limits.may_follow(j, t, h, u)
                {
                    most = most.max(best_from(limits, offer, k, h, u, visits - 1));
                }
            }
        }
    }
    earned(limits, offer, k, j).saturating_add(most)
}

/// The most that team `k` can earn: the routes from each visit on, of at most so many visits.
fn best_of_all(limits: &Limits<'_>, offer: Offer<'_>, k: u32, visits: u32) -> i64 {
    let mut most = 0i64;
    for j in 0..limits.instance().tasks() as u32 {
        let (from, until) = limits.window(j);
        for t in from..=until {
            if (k as usize) < limits.instance().teams() && limits.may_visit(k, j, t) {
                most = most.max(best_from(limits, offer, k, j, t, visits));
            }
        }
    }
    most
}

/// Prices of four tasks, of which some are negative.
fn drawn_prices(words: &mut Lcg64Xsh32) -> [i64; 4] {
    let mut list = [0i64; 4];
    for price in list.iter_mut() {
        *price = i64::from(draw(words, 40)) - 12;
    }
    list
}

/// A team from minute 400 to 440.
fn short_team(called: &[u8]) -> Result<Team, Fail> {
    Ok(Team {
        from: 400,
        until: 440,
        ..team(called)?
    })
}

#[test]
fn earns_what_the_best_route_earns(rt: HostRuntime) -> Result<(), Fail> {
    let mut words = Lcg64Xsh32::new(7, 7);
    let crew = [short_team(b"T1")?];
    for round in 0..200 {
        let day = small_day(rt.alloc(), &mut words, &crew)?;
        let root = Limits::root(rt.alloc(), &day)?;
        assert!(rt; day.teams() == 1);
        let list = drawn_prices(&mut words);
        let offer = Offer {
            list: &list,
            extra: 0,
        };
        let (worth, _) = priced(&rt, &root, 0, offer)?;
        same_at(&rt, &worth, &best_of_all(&root, offer, 0, 6), &round);
    }
    Ok(())
}

/// Takes a minute off a window at either end, or leaves it.
fn narrow(limits: &mut Limits<'_>, j: u32, words: &mut Lcg64Xsh32) -> Result<(), AllocError> {
    if j as usize >= limits.instance().tasks() {
        return Ok(());
    }
    let (from, until) = limits.window(j);
    let first = from.saturating_add(draw(words, 2)).min(until);
    let last = until.saturating_sub(draw(words, 2)).max(first);
    limits.reserve(1)?;
    limits.set_window(j, first, last);
    Ok(())
}

/// Decides a free pair, or leaves it.
fn decide(
    limits: &mut Limits<'_>,
    k: u32,
    j: u32,
    words: &mut Lcg64Xsh32,
) -> Result<(), AllocError> {
    let instance = limits.instance();
    let is_known = (k as usize) < instance.teams() && (j as usize) < instance.tasks();
    if !is_known || limits.pair(k, j) != Pair::Free {
        return Ok(());
    }
    limits.reserve(1)?;
    match draw(words, 4) {
        0 => limits.set_pair(k, j, Pair::Forbidden),
        1 => limits.set_pair(k, j, Pair::Required),
        _ => {}
    }
    Ok(())
}

/// A node below the root: windows are narrowed, and pairs of three teams are decided.
fn drawn_node<'i>(
    alloc: Global,
    day: &'i Instance,
    words: &mut Lcg64Xsh32,
) -> Result<Limits<'i>, AllocError> {
    let mut limits = Limits::root(alloc, day)?;
    for j in 0..4 {
        narrow(&mut limits, j, words)?;
        for k in 0..3 {
            decide(&mut limits, k, j, words)?;
        }
    }
    Ok(limits)
}

/// Asserts that each team earns what its best route earns.
fn each_earns_the_most(
    rt: &(impl Abort + Alloc<A = Global>),
    limits: &Limits<'_>,
    offer: Offer<'_>,
) -> Result<(), Fail> {
    for k in 0..limits.instance().teams() as u32 {
        let (worth, _) = priced(rt, limits, k, offer)?;
        same_at(rt, &worth, &best_of_all(limits, offer, k, 6), &k);
    }
    Ok(())
}

/// What the best route of each team earns.
fn most_of_each(
    alloc: Global,
    limits: &Limits<'_>,
    offer: Offer<'_>,
) -> Result<Vec<i64>, AllocError> {
    let mut most = Vec::new(alloc);
    for k in 0..limits.instance().teams() as u32 {
        most.push(best_of_all(limits, offer, k, 6))?;
    }
    Ok(most)
}

/// Asserts that the worths of all teams are what their best routes earn, where no visit earns more as one that is required.
fn worths_are_the_most(
    rt: &(impl Abort + Alloc<A = Global>),
    limits: &Limits<'_>,
    list: &[i64],
) -> Result<(), Fail> {
    let prices = prices_of(rt.alloc(), limits, list)?;
    let mut pricer = Pricer::reserve(rt.alloc(), limits.instance())?;
    let _proved = pricer.proved(limits, &prices);
    let most = most_of_each(rt.alloc(), limits, Offer { list, extra: 0 })?;
    same(rt, &pricer.worths(), &most.as_slice());
    Ok(())
}

#[test]
fn earns_in_a_node_what_the_best_route_earns(rt: HostRuntime) -> Result<(), Fail> {
    let mut words = Lcg64Xsh32::new(11, 3);
    let late = Team {
        from: 405,
        ..short_team(b"T3")?
    };
    let crew = [short_team(b"T1")?, short_team(b"T2")?, late];
    for _ in 0..60 {
        let day = small_day(rt.alloc(), &mut words, &crew)?;
        let node = drawn_node(rt.alloc(), &day, &mut words)?;
        let list = drawn_prices(&mut words);
        let offer = Offer {
            list: &list,
            extra: i64::from(draw(&mut words, 40)) - 12,
        };
        each_earns_the_most(&rt, &node, offer)?;
        worths_are_the_most(&rt, &node, &list)?;
    }
    Ok(())
}
