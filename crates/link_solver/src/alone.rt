//! Links over which one group grows.

ghost use Rattle.std.specs.Prelude.{◌≡◌, ◌+◌, ◌<◌, ◌≤◌, length, IfSome, IfNone, OnSome};
ghost use Rattle.bwe_specs.specs.RightClosings.{last_share};
ghost use Rattle.mpfa_fill.specs.GroupValues.{Values};
ghost use Rattle.mpfa_fill.specs.Growth.{AreTermsOn};
ghost use Rattle.link_front.specs.Front.{wan_in, closings_in, added_in, IsFront};
ghost use Rattle.link_solver.specs.Dues.{IsFound};

use crate::due::Due;
use growth_queries::last_fit;
use link_front::Front;
use mono_search::Steps;
use mpfa_fill::{GroupValues, Term};
use std::sync::ledger::Ledger;

/// The due of a link over which one group grows, where the group's values tell the last share at
/// which the link fits, and that is from `low` on and below `high`. It takes one look, as the group
/// is asked once, and none where nothing is told.
pub(crate) fn due_of_one<V: GroupValues, L: Ledger>(
    front: &Front<V>,
    terms: &[Term],
    link: u32,
    low: u64,
    high: u64,
    steps: &mut Steps<L>,
) -> Option<Due>
    requires front { IsFront V.meaning front.now }
    requires link { link < length (wan_in V.meaning front.now).capacities }
    requires terms { AreTermsOn (wan_in V.meaning front.now) (closings_in front.now)
        (added_in front.now) link terms.now }
    requires last { last_share (closings_in front.now) ≤ low }
    requires within { high ≤ (wan_in V.meaning front.now).top }
    ensures found { IfSome result
        (IsFound (wan_in V.meaning front.now) (closings_in front.now) link low high) }
    ensures look { OnSome result (steps.new ≡ steps.old + 1) }
    ensures none { IfNone result (steps.new ≡ steps.old) }
{
    let [term] = terms else {
        return None;
    };
    let last = last_fit(&front.growth, *term, link, low, high)?;
    steps.tick();
    let capacity = front.growth.capacity(link) as u128;
    Some(Due {
        share: last,
        over: last + 1,
        low_load: capacity,
        over_load: capacity + 1,
    })
}
