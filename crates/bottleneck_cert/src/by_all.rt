//! The verdict, closing by closing: each link is tested at each closing.

ghost use Rattle.std.specs.Prelude.{◌≡◌, ◌==◌, length, reverse, IfOk, OnOk, None};
ghost use Rattle.std.specs.List.{list_any};
ghost use Rattle.bwe_specs.specs.RightClosings.{last_share, over_at, cause_after, next_cause as next_cause_of, top_verdict as top_verdict_of, verdict as verdict_of};
ghost use Rattle.path_groups.specs.Plan.{IsBuiltOn};
ghost use Rattle.mpfa_fill.specs.GroupValues.{Values, wan_of};
ghost use Rattle.mpfa_fill.specs.Moment.{IsMoment, wan_in, state_of};

use bwe_specs::{Cause, Closing, OutOfMemory, Verdict};
use mono_search::Steps;
use mpfa_fill::{GroupValues, Moment};
use path_groups::PathPlan;
use std::alloc::Global;
use std::sync::ledger::Ledger;
use wan_topology::Topology;

/// The verdict on the list. Its time goes by the closings and by all links and groups.
pub(crate) fn verdict_by_all<V: GroupValues, L: Ledger>(
    alloc: Global,
    values: &V,
    topology: &Topology,
    plan: &PathPlan,
    closings: &[Closing],
    steps: &mut Steps<L>,
) -> Result<Verdict, OutOfMemory>
    requires built_on { IsBuiltOn topology.now plan.now }
    requires groups { (V.meaning values.now).groups ≡ length plan.now }
    ensures { IfOk result (λ verdict. verdict
        ≡ verdict_of (wan_of (V.meaning values.now) plan.now topology.now.capacities) closings.now) }
{
    let top = values.top();
    let mut moment = Moment::first(alloc, values, topology, plan)?;
    for place in 0..closings.len() {
        let closing = closings[place];
        let cause = cause_of(&mut moment, closing, topology.links(), top, steps);
        if let Some(cause) = cause {
            return Ok(Verdict::Wrong {
                at: place as u64,
                cause,
            });
        }
        moment.go_to(closing.share);
        moment.close_link(closing.link)?;
    }
    moment.go_to(top);
    Ok(top_verdict(
        first_over(&moment, topology.links(), steps),
        closings.len() as u64,
    ))
}

// Why the closing is not right after those of the moment, which goes to the closing's share on the
// way, or past it.
fn cause_of<V: GroupValues, L: Ledger>(
    moment: &mut Moment<'_, V>,
    closing: Closing,
    links: u32,
    top: u64,
    steps: &mut Steps<L>,
) -> Option<Cause>
    requires moment { IsMoment V.meaning moment.old }
    requires last { (state_of moment.old).share ≡ last_share (state_of moment.old).closings }
    requires links { links ≡ length (wan_in V.meaning moment.old).capacities }
    requires top { top ≡ (wan_in V.meaning moment.old).top }
    ensures cause { result ≡ cause_after (wan_in V.meaning moment.old) (state_of moment.old).closings closing }
    ensures moment { IsMoment V.meaning moment.new }
    ensures wan { wan_in V.meaning moment.new ≡ wan_in V.meaning moment.old }
    ensures closings { (state_of moment.new).closings ≡ (state_of moment.old).closings }
{
    if closing.link >= links {
        return Some(Cause::NoSuchLink);
    }
    if is_closed(moment.closings(), closing.link) {
        return Some(Cause::Reclosed);
    }
    if closing.share < moment.share() {
        return Some(Cause::ShareFalls);
    }
    if closing.share >= top {
        return Some(Cause::ShareAtTop);
    }
    moment.go_to(closing.share);
    if let Some(link) = first_over(moment, links, steps) {
        return Some(Cause::OverBefore { link });
    }
    moment.go_to(closing.share + 1);
    steps.tick();
    let is_named_over = moment.is_over(closing.link);
    next_cause(
        closing.link,
        is_named_over,
        first_over(moment, links, steps),
    )
}

// The lowest link that is over. It looks at each link up to that one.
fn first_over<V: GroupValues, L: Ledger>(
    moment: &Moment<'_, V>,
    links: u32,
    steps: &mut Steps<L>,
) -> Option<u32>
    requires moment { IsMoment V.meaning moment.now }
    requires links { links ≡ length (wan_in V.meaning moment.now).capacities }
    ensures { result ≡ over_at
        (wan_in V.meaning moment.now) (state_of moment.now).closings (state_of moment.now).share }
{
    for link in 0..links {
        steps.tick();
        if moment.is_over(link) {
            return Some(link);
        }
    }
    None
}

// Whether the link was closed.
fn is_closed(closings: &[Closing], link: u32) -> bool
    ensures { result ≡ list_any (λ closing. link == closing.link) closings.now }
{
    closings.iter().any(|closing| link == closing.link)
}

// What is wrong at the next share, where the lowest link that is over has to be the named one.
#[tactic(auto, unfolding(bwe_specs::specs::RightClosings::next_cause))]
fn next_cause(link: u32, is_named_over: bool, over: Option<u32>) -> Option<Cause>
    ensures { result ≡ next_cause_of link is_named_over over }
{
    match over {
        None => Some(Cause::FitsAfter),
        Some(lowest) => {
            if is_named_over {
                if lowest < link {
                    Some(Cause::LowerLink { link: lowest })
                } else {
                    None
                }
            } else {
                Some(Cause::FitsAfter)
            }
        }
    }
}

// What is said after all closings, when a link may be over at the top.
#[tactic(auto, unfolding(bwe_specs::specs::RightClosings::top_verdict))]
fn top_verdict(over: Option<u32>, at: u64) -> Verdict
    ensures { result ≡ top_verdict_of over at }
{
    match over {
        Some(link) => Verdict::Wrong {
            at,
            cause: Cause::OverAtTop { link },
        },
        None => Verdict::Right,
    }
}
